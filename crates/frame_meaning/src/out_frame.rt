//! A frame as it leaves.
ghost use Rattle.std.specs.Prelude.{◌≡◌, ◌≤◌, length, map, take};
ghost use Rattle.tag_view.specs.Word.{tag_of};

use arrayvec::ArrayVec;
use std::marker::Model;
use tag_view::{FrameView, Tag};

/// A frame as it leaves: the addresses and the rest of the frame that came in, lent by its bytes, and the tags that stand
/// between them now. The frame is nowhere as a whole until it is asked for.
#[derive(Drop)]
pub struct OutFrame<'a> {
    // The frame that came in.
    bytes: &'a [u8],
    // The tags, and behind them what makes them four.
    tags: [Tag; 4],
    // How many tags there are. These two numbers are as wide as leaves no byte unused, since unused ones are written too.
    count: u32,
    // How many tags it came in with: the rest stands behind them.
    received: u32,
}

impl<'a> Model for OutFrame<'a> {
    ghost use Rattle.std.specs.Prelude.{◌≤◌, ◌+◌, ◌*◌, length, take};
    ghost use Rattle.tag_view.specs.Frame.{Reading, with_tags};

    ghost Value = { Reading };

    ghost view = { λ f. with_tags f.bytes.now f.received (take f.count f.tags) };

    ghost invariant = { λ f. (f.count ≤ 4) × (14 + 4 * f.received ≤ length f.bytes.now) };
}

impl<'a> OutFrame<'a> {
    ghost use Rattle.std.specs.Prelude.{◌≡◌, ◌≤◌, ◌+◌, ◌*◌, length, take, map};
    ghost use Rattle.tag_view.specs.Word.{tag_of};
    ghost use Rattle.tag_view.specs.Frame.{with_tags};

    /// A frame that was read, with other tags, outermost first.
    pub fn new(frame: &FrameView<'a>, tags: ArrayVec<Tag, 4>) -> Self
        ensures { result ≡ record frame.now { tags = tags.items } }
    {
        OutFrame {
            bytes: frame.bytes(),
            count: tags.len() as u32,
            tags: four_of(tags.as_slice()),
            received: frame.tags().len() as u32,
        }
    }

    /// A frame whose tags are the first `count` of these words, in place of the `received` tags that it came with.
    #[inline(always)]
    pub fn of_words(bytes: &'a [u8], received: u8, words: [u32; 4], count: usize) -> Self
        requires whole { 14 + 4 * received ≤ length bytes.now }
        requires four { count ≤ 4 }
        ensures { result ≡ with_tags bytes.now received (map tag_of (take count words)) }
    {
        OutFrame {
            bytes,
            tags: tags_of(&words),
            count: count as u32,
            received: u32::from(received),
        }
    }

    /// The same for at most two tags: the other words are not looked at.
    #[inline(always)]
    pub fn of_two_words(bytes: &'a [u8], received: u8, words: [u32; 4], count: usize) -> Self
        requires whole { 14 + 4 * received ≤ length bytes.now }
        requires two { count ≤ 2 }
        ensures { result ≡ with_tags bytes.now received (map tag_of (take count words)) }
    {
        OutFrame {
            bytes,
            tags: two_tags_of(&words),
            count: count as u32,
            received: u32::from(received),
        }
    }

    /// The destination's and the source's address.
    pub fn addresses(&self) -> &'a [u8]
        ensures value { result.now ≡ self.now.addresses }
        ensures twelve { length result.now ≡ 12 }
    {
        &self.bytes[..12]
    }

    /// The tags, outermost first.
    pub fn tags(&self) -> &[Tag]
        ensures value { result.now ≡ self.now.tags }
        ensures four { length result.now ≤ 4 }
    {
        &self.tags[..self.count as usize]
    }

    /// What follows the tags, from the type on.
    pub fn rest(&self) -> &'a [u8]
        ensures { result.now ≡ self.now.rest }
    {
        &self.bytes[12 + 4 * self.received as usize..]
    }
}

/// At most four tags, and behind them what makes them four.
fn four_of(tags: &[Tag]) -> [Tag; 4]
    requires { length tags.now ≤ 4 }
    ensures { take (length tags.now) result ≡ tags.now }
{
    let mut four = [Tag::default(); 4];
    four[..tags.len()].copy_from_slice(tags);
    four
}

/// The tags of four words.
#[inline(always)]
fn tags_of(words: &[u32]) -> [Tag; 4]
    requires { length words.now ≡ 4 }
    ensures { result ≡ map tag_of words.now }
{
    [
        Tag::of_word(words[0]),
        Tag::of_word(words[1]),
        Tag::of_word(words[2]),
        Tag::of_word(words[3]),
    ]
}

/// The tags of the first two words, and behind them what makes them four.
#[inline(always)]
fn two_tags_of(words: &[u32]) -> [Tag; 4]
    requires { 2 ≤ length words.now }
    ensures { take 2 result ≡ map tag_of (take 2 words.now) }
{
    [
        Tag::of_word(words[0]),
        Tag::of_word(words[1]),
        Tag::of_word(0),
        Tag::of_word(0),
    ]
}
