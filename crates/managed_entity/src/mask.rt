//! Attribute masks (ITU-T G.988, annex A).
ghost use Rattle.std.specs.Prelude.{◌≡◌, ◌≤◌, ◌<◌};
ghost use Rattle.managed_entity.specs.Mask.{bit_of, names, unknown_of};
ghost use Rattle.managed_entity.specs.Mask.{mask_of};

use byteorder::{BigEndian, ByteOrder};

/// The mask of a Get or a Set.
#[tactic(auto, unfolding(crate::specs::Mask::mask_of))]
pub fn mask_of(contents: &[u8; 32]) -> u16
    ensures { result ≡ mask_of contents.now }
{
    BigEndian::read_u16(contents)
}

/// Whether a mask names the attribute at a place.
pub fn names(mask: u16, place: usize) -> bool
    requires { place < 16 }
    ensures { result ≡ names mask place }
{
    (mask >> (15 - place)) % 2 == 1
}

/// The bit of the attribute at a place.
pub(crate) fn bit(place: usize) -> u16
    requires { place < 16 }
    ensures { result ≡ bit_of place }
{
    1 << (15 - place)
}

/// What a mask names beyond so many attributes.
pub(crate) fn unknown(mask: u16, count: usize) -> u16
    requires { count ≤ 16 }
    ensures { result ≡ unknown_of mask count }
{
    (mask as u32 % (1 << (16 - count))) as u16
}
