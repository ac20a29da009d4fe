//! The words for faults that several commands tell alike, each ended by a line feed.
ghost use Rattle.std.specs.Prelude.{◌≡◌, ◌≤◌, ◌++◌, ◌∷◌, [], codes, length};
ghost use Rattle.std.specs.Fmt.{decimal};
ghost use Rattle.text_writing.specs.FaultWords.{bad_line_words, bad_trace_words, no_memory_words, read_failed_words, write_failed_words};

use arrayvec::ArrayVec;
use itoa::Buffer;

/// What is written on a fault: the longest are words and a number of 64 bits.
pub type Words = ArrayVec<u8, 64>;

/// The line of a script of this number is bad.
pub fn bad_line_words(line: u64) -> Words
    ensures { result.items ≡ bad_line_words line }
{
    numbered(b"line ", line)
}

/// The line of a trace of this number is bad.
pub fn bad_trace_words(line: u64) -> Words
    ensures { result.items ≡ bad_trace_words line }
{
    numbered(b"trace line ", line)
}

/// A read failed.
pub fn read_failed_words() -> Words
    ensures { result.items ≡ read_failed_words }
{
    plain(b"read failed\n")
}

/// A write failed.
pub fn write_failed_words() -> Words
    ensures { result.items ≡ write_failed_words }
{
    plain(b"write failed\n")
}

/// There was no memory.
pub fn no_memory_words() -> Words
    ensures { result.items ≡ no_memory_words }
{
    plain(b"no memory\n")
}

/// The words for a bad line, behind those that say of what it is one.
fn numbered(front: &[u8], line: u64) -> Words
    requires { length front.now ≤ 11 }
    ensures { result.items ≡ front.now ++ decimal line ++ codes " is bad" ++ 10 ∷ [] }
{
    let mut words = ArrayVec::new();
    let mut digits = Buffer::new();
    let _ = words.try_extend_from_slice(front);
    let _ = words.try_extend_from_slice(digits.format(line).as_bytes());
    let _ = words.try_extend_from_slice(b" is bad\n");
    words
}

/// The words for a fault that has no number.
fn plain(text: &[u8]) -> Words
    requires { length text.now ≤ 64 }
    ensures { result.items ≡ text.now }
{
    let mut words = ArrayVec::new();
    let _ = words.try_extend_from_slice(text);
    words
}
