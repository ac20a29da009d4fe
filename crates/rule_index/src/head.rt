//! The head of a frame: what the filters of an entry look at.
ghost use Rattle.std.specs.Prelude.{◌≡◌, ◌≤◌, ◌+◌, ◌-◌, [], ◌∷◌, ℕ, Ok, length, slice_index_or};
ghost use Rattle.tag_view.specs.Tag.{missing_tag};
ghost use Rattle.tag_view.specs.Frame.{tag_at, type_at};
ghost use Rattle.tag_view.specs.Word.{tag_of};
ghost use Rattle.rule_index.specs.Head.{head_of, head_read, tags_ahead};

use byteorder::{BigEndian, ByteOrder};
use std::marker::Model;
use tag_view::{FrameFault, FrameView, MISSING_WORD, is_tag_type};

/// The tags of a frame and the type behind them. A tag is held as its word, the number in its four
/// bytes (IEEE 802.1Q, 9.6).
#[derive(Drop)]
pub struct Head {
    // The number of tags.
    pub(crate) tags: u8,
    // The first tag, or the missing tag.
    pub(crate) outer: u32,
    // The last tag, which of one tag is that tag, or the missing tag.
    pub(crate) inner: u32,
    pub(crate) ethertype: u16,
}

impl Model for Head {
    ghost use Rattle.std.specs.Prelude.{◌≡◌, ◌<◌, ◌≤◌};
    ghost use Rattle.tag_view.specs.Tag.{missing_tag};
    ghost use Rattle.tag_view.specs.Word.{tag_of, word_of};
    ghost use Rattle.rule_index.specs.Head.{FrameHead, last_tags};

    ghost Value = { FrameHead };

    ghost view = { λ h. record {
      tags = last_tags h.tags (tag_of h.outer) (tag_of h.inner);
      type = h.ethertype;
    } };

    ghost invariant = { λ h.
        (h.tags ≤ 2)
        × (h.tags < 2 → h.outer ≡ h.inner)
        × (h.tags < 1 → h.inner ≡ word_of missing_tag) };
}

impl Head {
    /// The head of a frame that was read.
    #[inline(always)]
    pub fn of(frame: &FrameView<'_>) -> Self
        ensures { result ≡ head_of frame.now }
    {
        let tags = frame.tags();
        let ethertype = frame.ethertype();
        match tags {
            [outer, inner, ..] => two_tags(outer.word(), inner.word(), ethertype),
            [tag] => one_tag(tag.word(), ethertype),
            [] => untagged(ethertype),
        }
    }

    /// The head of the frame that the bytes are, or the fault for which `view` refuses them. No byte behind
    /// the type is looked at. To find by it is faster than by a view, since no tag is taken apart.
    #[inline(always)]
    pub fn read(bytes: &[u8], input_tpid: u16) -> Result<Self, FrameFault>
        ensures { result ≡ head_read input_tpid bytes.now }
    {
        if bytes.len() < 14 {
            return Err(FrameFault::Runt);
        }
        let first = type_at(bytes, 12);
        if !is_tag_type(first, input_tpid) {
            return Ok(untagged(first));
        }
        if bytes.len() < 18 {
            return Err(FrameFault::CutTag);
        }
        let outer = word_at(bytes, 12);
        let second = type_at(bytes, 16);
        if !is_tag_type(second, input_tpid) {
            return Ok(one_tag(outer, second));
        }
        if bytes.len() < 22 {
            return Err(FrameFault::CutTag);
        }
        let inner = word_at(bytes, 16);
        Ok(two_tags(outer, inner, type_at(bytes, 20)))
    }

    /// How many tags are read of the frame that the bytes are, two at most, where it has at least 22 bytes, and 128 where it has
    /// fewer. No branch depends on the tags, so a processor can find it while the frames before are under way. Who asks that early
    /// knows in time which way a frame goes, and has its head by [`Head::of_tags`].
    #[inline(always)]
    pub fn tags_ahead(bytes: &[u8], input_tpid: u16) -> u8
        ensures { result ≡ tags_ahead input_tpid bytes.now }
    {
        if bytes.len() < 22 {
            // A match on this and the others becomes comparisons. With 3 it would be a table of jumps, which is slower.
            return 128;
        }
        let first = is_tag_type(type_at(bytes, 12), input_tpid);
        let second = first & is_tag_type(type_at(bytes, 16), input_tpid);
        u8::from(first) + u8::from(second)
    }

    /// The head of the frame that the bytes are, of which so many tags are read.
    #[inline(always)]
    pub fn of_tags(bytes: &[u8], tags: u8) -> Self
        requires whole { 22 ≤ length bytes.now }
        requires two { tags ≤ 2 }
        ensures read { (input : ℕ) → tags ≡ tags_ahead input bytes.now
            → head_read input bytes.now ≡ Ok result }
        ensures tags { length result.tags ≡ tags }
    {
        match tags {
            0 => untagged(type_at(bytes, 12)),
            1 => one_tag(word_at(bytes, 12), type_at(bytes, 16)),
            _ => two_tags(word_at(bytes, 12), word_at(bytes, 16), type_at(bytes, 20)),
        }
    }

    /// The number of tags that were read, two at most.
    #[inline(always)]
    pub fn tags(&self) -> usize
        ensures value { result ≡ length self.now.tags }
        ensures limit { result ≤ 2 }
    {
        usize::from(self.tags)
    }

    /// The word of the first tag, or of the missing tag where there is none.
    #[inline(always)]
    pub fn outer(&self) -> u32
        ensures { tag_of result ≡ slice_index_or self.now.tags 0 missing_tag }
    {
        self.outer
    }

    /// The word of the last tag, which of one tag is that tag, or of the missing tag where there is none.
    #[inline(always)]
    pub fn inner(&self) -> u32
        ensures { tag_of result
            ≡ slice_index_or self.now.tags (length self.now.tags - 1) missing_tag }
    {
        self.inner
    }

    /// The type behind the tags that were read. It may be that of a third tag.
    #[inline(always)]
    pub fn ethertype(&self) -> u16
        ensures { result ≡ self.now.type }
    {
        self.ethertype
    }
}

#[inline(always)]
fn untagged(ethertype: u16) -> Head
    ensures { result ≡ record { tags = []; type = ethertype } }
{
    Head {
        tags: 0,
        outer: MISSING_WORD,
        inner: MISSING_WORD,
        ethertype,
    }
}

#[inline(always)]
fn one_tag(word: u32, ethertype: u16) -> Head
    ensures { result ≡ record { tags = tag_of word ∷ []; type = ethertype } }
{
    Head {
        tags: 1,
        outer: word,
        inner: word,
        ethertype,
    }
}

#[inline(always)]
fn two_tags(outer: u32, inner: u32, ethertype: u16) -> Head
    ensures { result ≡ record { tags = tag_of outer ∷ tag_of inner ∷ []; type = ethertype } }
{
    Head {
        tags: 2,
        outer,
        inner,
        ethertype,
    }
}

/// The word of the tag at a place.
#[inline(always)]
fn word_at(bytes: &[u8], place: usize) -> u32
    requires { place + 4 ≤ length bytes.now }
    ensures { tag_of result ≡ tag_at place bytes.now }
{
    BigEndian::read_u32(&bytes[place..])
}

/// The type in the two bytes from a place.
#[inline(always)]
fn type_at(bytes: &[u8], place: usize) -> u16
    requires { place + 2 ≤ length bytes.now }
    ensures { result ≡ type_at place bytes.now }
{
    BigEndian::read_u16(&bytes[place..])
}
