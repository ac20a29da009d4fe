//! A VLAN tag.

use crate::tag_type::CUSTOMER_TPID;
use byteorder::{BigEndian, ByteOrder};
use std::marker::Model;

/// A VLAN tag (IEEE 802.1Q, 9.6), held as the number of its four bytes, the first of them its highest: every number of 32 bits is
/// that of one tag.
#[derive(Clone, Copy, Debug, Default, PartialEq, Eq)]
pub struct Tag {
    word: u32,
}

impl Model for Tag {
    ghost use Rattle.std.specs.Prelude.{ℕ};
    ghost use Rattle.std.proofs.Common.{ap};
    ghost use Rattle.tag_view.specs.Tag.{TagFields};
    ghost use Rattle.tag_view.specs.Word.{tag_of, word_of};
    ghost use Rattle.tag_view.specs.Packed.{tag_back};

    ghost Value = { TagFields };

    ghost view = { λ t. tag_of t.word };

    ghost inverse = { λ t. record { word = word_of t } };

    ghost inverse_ok = { λ t h. ap (λ (w : ℕ). record t { word = w }) (tag_back t.word) };
}

/// What stands for a tag that isn't there: a customer's, which is zero otherwise (a choice of this project).
pub const MISSING_TAG: Tag = Tag { word: MISSING_WORD };

/// The word of [`MISSING_TAG`].
pub const MISSING_WORD: u32 = (CUSTOMER_TPID as u32) << 16;

impl Tag {
    ghost use Rattle.std.specs.Prelude.{◌≡◌, ◌<◌, ◌≤◌, length};
    ghost use Rattle.tag_view.specs.Tag.{tag_bytes};
    ghost use Rattle.tag_view.specs.Frame.{tag_at};
    ghost use Rattle.tag_view.specs.Word.{tag_of, word_of};

    /// The tag of a tag protocol identifier, a priority code point, a drop eligible indicator and a VLAN identifier.
    #[inline(always)]
    pub const fn new(tpid: u16, pcp: u8, dei: bool, vid: u16) -> Self
        requires pcp { pcp < 8 }
        requires vid { vid < 4096 }
        ensures { result ≡ record { tpid = tpid; pcp = pcp; dei = dei; vid = vid } }
    {
        let control = (pcp as u32) * 8192 + (dei as u32) * 4096 + vid as u32;
        Tag {
            word: (tpid as u32) * 65536 + control,
        }
    }

    /// The tag in the first four bytes.
    pub(crate) fn read(bytes: &[u8]) -> Tag
        requires { 4 ≤ length bytes.now }
        ensures { result ≡ tag_at 0 bytes.now }
    {
        Tag::of_word(BigEndian::read_u32(bytes))
    }

    /// The tag protocol identifier.
    #[inline(always)]
    pub fn tpid(&self) -> u16
        ensures { result ≡ self.now.tpid }
    {
        (self.word >> 16) as u16
    }

    /// The priority code point.
    #[inline(always)]
    pub fn pcp(&self) -> u8
        ensures value { result ≡ self.now.pcp }
        ensures bound { result < 8 }
    {
        (self.word >> 13 & 7) as u8
    }

    /// The drop eligible indicator.
    #[inline(always)]
    pub fn dei(&self) -> bool
        ensures { result ≡ self.now.dei }
    {
        (self.word >> 12) & 1 == 1
    }

    /// The VLAN identifier.
    #[inline(always)]
    pub fn vid(&self) -> u16
        ensures value { result ≡ self.now.vid }
        ensures bound { result < 4096 }
    {
        (self.word & 0x0fff) as u16
    }

    /// The four bytes of the tag.
    pub fn bytes(&self) -> [u8; 4]
        ensures { result ≡ tag_bytes self.now }
    {
        let mut bytes = [0; 4];
        BigEndian::write_u32(&mut bytes, self.word);
        bytes
    }

    /// The four bytes of the tag as one number, the first of them its highest.
    #[inline(always)]
    pub fn word(&self) -> u32
        ensures value { result ≡ word_of self.now }
        ensures back { tag_of result ≡ self.now }
    {
        self.word
    }

    /// The tag whose four bytes are these, the first of them the highest: every number of 32 bits is
    /// that of one tag.
    #[inline(always)]
    pub fn of_word(word: u32) -> Tag
        ensures { result ≡ tag_of word }
    {
        Tag { word }
    }
}
