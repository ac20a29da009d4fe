//! The bytes of a file that are held: what was read, and isn't taken yet.
ghost use Rattle.std.specs.Prelude.{◌≡◌, ◌+◌, ◌<◌, ◌≤◌, IfOk, OnErr, drop, take, vec_len};
ghost use Rattle.std.specs.Io.KnownBytes.{Consumes, IsAtEnd, Keeps};

use crate::fault::ReadFault;
use crate::span::Gap;
use std::alloc::{AllocError, Global};
use std::io::{ErrorKind, Read};

/// How many bytes the buffer has: over a longest record of the classic format, and over those that are held of a block.
const ROOM: usize = 512 * 1024;

/// A buffer of 524,288 bytes, of which those from the start to the end are held.
#[derive(Drop)]
pub(crate) struct Window {
    pub(crate) bytes: Vec<u8>,
    pub(crate) start: usize,
    pub(crate) end: usize,
    ghost ordered: { start ≤ end },
    ghost within: { end ≤ vec_len bytes },
    ghost room: { vec_len bytes ≡ 524288 },
}

impl Window {
    ghost use Rattle.std.specs.Prelude.{◌≡◌, ◌+◌, ◌-◌, ◌<◌, ◌≤◌, [], false, IfErr, IfOk, drop, length};
    ghost use Rattle.std.specs.Io.KnownBytes.{IsAtEnd, Keeps, prepend_known};
    ghost use Rattle.bench_capture.specs.Formats.{cut_of};
    ghost use Rattle.bench_capture.specs.Windows.{IsNoCaptureFault, held};

    /// A window that holds nothing.
    pub(crate) fn new(alloc: Global) -> Result<Window, AllocError>
        ensures { IfOk result (λ window. held window ≡ []) }
    {
        Ok(Window {
            bytes: vec![in alloc; 0; ROOM]?,
            start: 0,
            end: 0,
        })
    }

    /// The bytes that are held.
    pub(crate) fn as_slice(&self) -> &[u8]
        ensures value { result.now ≡ held self.now }
        ensures size { length result.now ≡ self.now.end - self.now.start }
    {
        &self.bytes[self.start..self.end]
    }

    /// Lets the first bytes go.
    pub(crate) fn take(&mut self, count: usize)
        requires { count ≤ length (held self.old) }
        ensures held { held self.new ≡ drop count (held self.old) }
        ensures bytes { self.new.bytes.items ≡ self.old.bytes.items }
        ensures start { self.new.start ≡ self.old.start + count }
    {
        self.start += count;
    }

    /// Lets bytes go that stand behind the first ones.
    pub(crate) fn cut(&mut self, gap: Gap)
        requires { gap.start + gap.length ≤ length (held self.old) }
        ensures { held self.new ≡ cut_of gap (held self.old) }
    {
        if gap.start == 0 {
            return self.take(gap.length);
        }
        let to = self.start + gap.start;
        let from = to + gap.length;
        let end = self.end;
        self.bytes.copy_within(from..end, to);
        self.end = end - gap.length;
    }

    /// Moves the bytes that are held to the front of the buffer.
    fn move_to_front(&mut self)
        ensures held { held self.new ≡ held self.old }
        ensures start { self.new.start ≡ 0 }
    {
        if self.start == 0 {
            return;
        }
        let (start, end) = (self.start, self.end);
        self.bytes.copy_within(start..end, 0);
        self.start = 0;
        self.end = end - start;
    }

    /// Reads once behind the bytes that are held, which are few enough that there is room. Whether more may come: false at the reader's
    /// end. Err where the reader fails; then nothing is lost.
    pub(crate) fn read_more<R: Read>(&mut self, reader: &mut R) -> Result<bool, ReadFault>
        requires { length (held self.old) < 524288 }
        ensures none_lost { Keeps (prepend_known (held self.old) (R.remaining reader.old))
            (prepend_known (held self.new) (R.remaining reader.new)) }
        ensures end { IfOk result (λ more. more ≡ false → IsAtEnd (R.remaining reader.new)) }
        ensures refused { IfErr result IsNoCaptureFault }
    {
        self.move_to_front();
        let end = self.end;
        match read_behind(reader, &mut self.bytes, end) {
            Ok(count) => {
                self.end = end + count;
                Ok(count != 0)
            }
            Err(ErrorKind::Interrupted) => Ok(true),
            Err(kind) => Err(ReadFault::Unreadable(kind)),
        }
    }
}

/// Reads once, behind the first bytes. How many bytes the reader gave: 0 at its end.
fn read_behind<R: Read>(
    reader: &mut R,
    bytes: &mut Vec<u8>,
    first: usize,
) -> Result<usize, ErrorKind>
    requires { first < vec_len bytes.old }
    ensures kept { take first bytes.new.items ≡ take first bytes.old.items }
    ensures size { vec_len bytes.new ≡ vec_len bytes.old }
    ensures within { IfOk result (λ count. first + count ≤ vec_len bytes.new) }
    ensures given { IfOk result (λ count. Consumes (R.remaining reader.old) (R.remaining reader.new)
        (take count (drop first bytes.new.items))) }
    ensures end { IfOk result (λ count. count ≡ 0 → IsAtEnd (R.remaining reader.new)) }
    ensures failed { OnErr result (Keeps (R.remaining reader.old) (R.remaining reader.new)) }
{
    let (_, room) = bytes.split_at_mut(first);
    match reader.read(room) {
        Ok(count) => Ok(count),
        Err(error) => Err(error.kind()),
    }
}
