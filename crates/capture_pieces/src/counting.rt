//! How many frames of a capture were cut when they were taken.
ghost use Rattle.std.specs.Prelude.{◌≡◌, None};
ghost use Rattle.capture.specs.Records.{record_fault};
ghost use Rattle.capture_pieces.specs.CutFrames.{all_cut_in, counted, cut_frames_of, is_cut};

use crate::records::Records;
use capture::{HEADER_LEN, Order, read_header, split_record};

/// How many bytes a record has in front of those that it stores.
const RECORD_HEADER_LEN: usize = 16;

/// Whether the record that stands first stores fewer bytes than its frame had.
pub(crate) fn is_cut(order: Order, bytes: &[u8]) -> bool
    ensures { record_fault order bytes.now ≡ None → result ≡ is_cut order bytes.now }
{
    if bytes.len() < RECORD_HEADER_LEN {
        return false;
    }
    order.read_u32(&bytes[8..]) < order.read_u32(&bytes[12..])
}

/// How many of these records hold a frame that was cut, up to the first that has a fault.
pub(crate) fn count_cut(order: Order, records: &mut Records<'_>) -> u64
    ensures { result ≡ counted (all_cut_in order records.old) }
{
    let mut cut: u64 = 0;
    while !records.is_empty() {
        let is_cut = records.is_cut(order);
        match records.pass(order) {
            Ok(_) => cut = cut.saturating_add(u64::from(is_cut)),
            Err(_) => return cut,
        }
    }
    cut
}

/// The same of records in one slice.
fn count_whole(order: Order, bytes: &[u8]) -> u64
    ensures { result ≡ counted (all_cut_in order bytes.now) }
{
    let mut cut: u64 = 0;
    let mut rest = bytes;
    while !rest.is_empty() {
        let Ok((_, behind)) = split_record(order, rest) else {
            return cut;
        };
        cut = cut.saturating_add(u64::from(is_cut(order, rest)));
        rest = behind;
    }
    cut
}

/// How many frames of a capture file, which is one slice, were cut when they were taken, up to the file's first fault: their records
/// store fewer bytes than the frames had.
pub fn cut_frames(file: &[u8]) -> u64
    ensures { result ≡ counted (cut_frames_of file.now) }
{
    let Ok(order) = read_header(file) else {
        return 0;
    };
    count_whole(order, &file[HEADER_LEN..])
}
