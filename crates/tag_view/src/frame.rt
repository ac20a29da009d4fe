//! A frame as slices of its bytes.

use crate::tag::Tag;
use arrayvec::ArrayVec;
use byteorder::{BigEndian, ByteOrder};
use std::marker::Model;

/// A frame that was read: 12 bytes of addresses, at most two tags, and the rest, which begins with
/// a type. The slices are lent by the frame's bytes, and live as long as these.
#[derive(Clone, Debug, Drop)]
pub struct FrameView<'a> {
    // All bytes of the frame.
    pub(crate) bytes: &'a [u8],
    pub(crate) tags: ArrayVec<Tag, 2>,
}

impl<'a> Model for FrameView<'a> {
    ghost use Rattle.std.specs.Prelude.{◌≤◌, ◌+◌, ◌*◌, length};
    ghost use Rattle.tag_view.specs.Frame.{Reading, with_tags};

    ghost Value = { Reading };

    ghost view = { λ f. with_tags f.bytes.now (length f.tags.items) f.tags.items };

    ghost invariant = { λ f. 14 + 4 * length f.tags.items ≤ length f.bytes.now };
}

impl<'a> FrameView<'a> {
    ghost use Rattle.std.specs.Prelude.{◌≡◌, ◌<◌, ◌≤◌, ◌+◌, ◌*◌, IfSome, length};
    ghost use Rattle.tag_view.specs.Frame.{type_at, with_tags};
    ghost use Rattle.tag_view.specs.Dscp.{dscp_of};

    /// All bytes of the frame: addresses, the tags that were read, and the rest.
    pub fn bytes(&self) -> &'a [u8]
        ensures parts { with_tags result.now (length self.now.tags) self.now.tags ≡ self.now }
        ensures whole { 14 + 4 * length self.now.tags ≤ length result.now }
    {
        self.bytes
    }

    /// The 12 bytes of the destination's and the source's address.
    pub fn addresses(&self) -> &'a [u8]
        ensures value { result.now ≡ self.now.addresses }
        ensures len { length result.now ≡ 12 }
    {
        &self.bytes[..12]
    }

    /// The tags that were read, outermost first.
    pub fn tags(&self) -> &[Tag]
        ensures value { result.now ≡ self.now.tags }
        ensures two { length result.now ≤ 2 }
    {
        self.tags.as_slice()
    }

    /// What follows the tags, from the type on.
    pub fn rest(&self) -> &'a [u8]
        ensures value { result.now ≡ self.now.rest }
        ensures len { 2 ≤ length result.now }
    {
        &self.bytes[12 + 4 * self.tags.len()..]
    }

    /// The type behind the tags that were read. It may be that of a third tag.
    pub fn ethertype(&self) -> u16
        ensures { result ≡ type_at 0 self.now.rest }
    {
        BigEndian::read_u16(self.rest())
    }

    /// The DSCP (RFC 2474, section 3), or None where what follows the tags is neither IPv4 nor IPv6
    /// by its type, or has under two bytes behind it. The type 0x0800 is IPv4 even where it begins
    /// tags at this port.
    #[tactic(auto, unfolding(crate::specs::Dscp::dscp_of))]
    pub fn dscp(&self) -> Option<u8>
        ensures value { result ≡ dscp_of self.now.rest }
        ensures bound { IfSome result (λ dscp. dscp < 64) }
    {
        let [_, _, first, second, ..] = self.rest() else {
            return None;
        };
        let ds_field = match self.ethertype() {
            0x0800 => *second,
            0x86dd => (*first & 0x0f) << 4 | *second >> 4,
            _ => return None,
        };
        Some(ds_field >> 2)
    }
}
