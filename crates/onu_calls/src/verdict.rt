//! A verdict as C reads it.
ghost use Rattle.std.specs.Prelude.{◌≡◌};
ghost use Rattle.onu_calls.specs.Forwarding.{said_of, word_at, words_of};

use onu_unit::Verdict;
use tag_view::Tag;

/// What becomes of a frame, in numbers. A frame that leaves is its first 12 bytes, the tags, and its bytes from `rest` on.
#[repr(C)]
#[derive(Drop)]
pub struct CVerdict {
    /// The port-ID of the GEM port, or 0 where the frame is dropped.
    pub gem: u16,
    /// The number of the reason to drop it, from 1, or 0 where it leaves.
    pub reason: u8,
    /// How many tags the frame leaves with, at most four.
    pub count: u8,
    /// The tags, outermost first, each as one number of 32 bits whose highest byte leaves first; 0 behind the last.
    pub tags: [u32; 4],
    /// Where the rest of the frame begins in the bytes that came in, or 0 where it is dropped.
    pub rest: usize,
}

impl CVerdict {
    /// The numbers of a verdict on a frame.
    pub(crate) fn of(bytes: &[u8], verdict: &Verdict<'_>) -> CVerdict
        ensures { result ≡ said_of bytes.now verdict.now }
    {
        match verdict {
            Verdict::Forward { gem, frame } => CVerdict {
                gem: *gem,
                reason: 0,
                count: frame.tags().len() as u8,
                tags: words_of(frame.tags()),
                rest: bytes.len().saturating_sub(frame.rest().len()),
            },
            Verdict::Drop(reason) => CVerdict {
                gem: 0,
                reason: reason.code(),
                count: 0,
                tags: [0; 4],
                rest: 0,
            },
        }
    }
}

/// The word of the tag at a place, or 0 where there is none.
fn word_at(tags: &[Tag], place: usize) -> u32
    ensures { result ≡ word_at tags.now place }
{
    match tags.get(place) {
        Some(tag) => tag.word(),
        None => 0,
    }
}

/// The words of the first four tags.
fn words_of(tags: &[Tag]) -> [u32; 4]
    ensures { result ≡ words_of tags.now }
{
    [
        word_at(tags, 0),
        word_at(tags, 1),
        word_at(tags, 2),
        word_at(tags, 3),
    ]
}
