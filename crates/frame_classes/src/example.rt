//! A frame that has a class.
ghost use Rattle.std.specs.Prelude.{◌≡◌, IfOk, length};
ghost use Rattle.frame_classes.specs.Classes.{IsFrame};
ghost use Rattle.frame_rows.specs.Field.{fields, values_of};
ghost use Rattle.frame_classes.specs.Splitting.{IsOf};
ghost use Rattle.frame_classes.specs.Frame.{frame_by, frame_length, head_by};

use frame_rows::{Field, FrameClass, LONG, Values};
use std::alloc::{AllocError, Global};

/// A class, and the bytes of a frame that has it.
#[derive(Debug, Drop)]
pub struct ClassExample {
    /// The class.
    pub class: FrameClass,
    /// The frame's bytes, from the destination address on, without a check sequence.
    pub frame: Vec<u8>,
}

/// The classes of a frame by two configurations that see it otherwise, and its bytes.
#[derive(Debug, Drop)]
pub struct Difference {
    /// Its class by the one.
    pub before: FrameClass,
    /// Its class by the other.
    pub after: FrameClass,
    /// The frame's bytes, from the destination address on, without a check sequence.
    pub frame: Vec<u8>,
}

/// The classes of a frame by three configurations of which the one between sees it otherwise than both others, and its bytes.
#[derive(Debug, Drop)]
pub struct Tear {
    /// Its class by the first.
    pub before: FrameClass,
    /// Its class by the one between.
    pub here: FrameClass,
    /// Its class by the last.
    pub after: FrameClass,
    /// The frame's bytes, from the destination address on, without a check sequence.
    pub frame: Vec<u8>,
}

/// The least number of bytes of a frame that a link carries, without its check sequence (IEEE 802.3, 3.2.7).
const LEAST_SENT: usize = 60;

/// How many bytes of a frame are written by its values and its number.
const HEAD: usize = 32;

/// How many bytes a frame with these values has, of those with at least so many.
fn length_of(values: &Values, least: usize) -> usize
    ensures value { result ≡ frame_length values.now least }
    ensures eleven { length values.now.values ≡ 11 }
{
    let length = values.get(Field::Length);
    if length < LONG {
        return usize::from(length);
    }
    LEAST_SENT.max(least)
}

/// The first bytes of a frame with these values, as long as it may be, and a number behind what counts.
fn head_of(values: &Values, number: u64) -> [u8; HEAD]
    ensures { result ≡ head_by values.now number }
{
    let words = values.words();
    let [a, b] = words[0].to_be_bytes();
    let [c, d] = words[1].to_be_bytes();
    let [e, f] = words[2].to_be_bytes();
    let [g, h] = words[3].to_be_bytes();
    let [i, j] = words[4].to_be_bytes();
    let [k, l] = words[5].to_be_bytes();
    let [s, t, u, v, w, x, y, z] = number.to_be_bytes();
    [
        2, 0, 0, 0, 0, 1, 2, 0, 0, 0, 0, 2, a, b, c, d, e, f, g, h, i, j, k, l, s, t, u, v, w, x,
        y, z,
    ]
}

/// A frame with these values, of at least so many bytes. Where there is room, a number stands behind what counts.
pub(crate) fn frame_of(
    alloc: Global,
    values: &Values,
    least: usize,
    number: u64,
) -> Result<Vec<u8>, AllocError>
    ensures bytes { IfOk result (λ frame. frame.items ≡ frame_by values.now least number) }
    ensures frame { IfOk result (λ frame. IsOf least fields values.now → IsFrame least frame.items) }
    ensures values { IfOk result (λ frame. IsOf least fields values.now
        → values_of frame.items ≡ values.now) }
{
    let head = head_of(values, number);
    let length = length_of(values, least);
    let mut frame = Vec::from_slice(alloc, &head[..length.min(HEAD)])?;
    for _more in 0..length.saturating_sub(HEAD) {
        frame.push(0)?;
    }
    Ok(frame)
}
