//! The piece of a script that a replay holds: the beginning of a line, and what a read gave.
ghost use Rattle.std.specs.Prelude.{◌≡◌, ◌+◌, ◌-◌, ◌≤◌, ◌<◌, ◌++◌, IfSome, IfNone, drop, length, take};
ghost use Rattle.std.specs.Io.KnownBytes.{Consumes, IsAtEnd, Keeps};

use std::io::Read;

/// Reads once, behind the first `begun` bytes of the text. How many bytes the reader gave: 0 is
/// its end. None where the read fails.
pub fn read_piece<R: Read>(reader: &mut R, text: &mut [u8], begun: usize) -> Option<usize>
    requires { begun < length text.old }
    ensures kept { take begun text.new ≡ take begun text.old }
    ensures within { IfSome result (λ count. begun + count ≤ length text.new) }
    ensures given { IfSome result (λ count.
        Consumes (R.remaining reader.old) (R.remaining reader.new)
        (take count (drop begun text.new))) }
    ensures end { IfSome result (λ count. count ≡ 0 → IsAtEnd (R.remaining reader.new)) }
    ensures failed { IfNone result (Keeps (R.remaining reader.old) (R.remaining reader.new)) }
{
    let (_, room) = text.split_at_mut(begun);
    reader.read(room).ok()
}

/// Moves the bytes from `start` to `end` to the front of the text.
pub fn move_to_front(text: &mut [u8], start: usize, end: usize)
    requires order { start ≤ end }
    requires within { end ≤ length text.old }
    ensures { take (end - start) text.new ≡ take (end - start) (drop start text.old) }
{
    if start == 0 {
        return;
    }
    text.copy_within(start..end, 0);
}
