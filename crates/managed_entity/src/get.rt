//! What a Get of an instance is answered.
ghost use Rattle.std.specs.Prelude.{◌≡◌, ◌≤◌, length};
ghost use Rattle.managed_entity.specs.Answer.{padded};
ghost use Rattle.managed_entity.specs.Get.{gathered, get_contents, returned_values};

use crate::entity::ManagedEntity;
use crate::mask::{bit, names, unknown};
use crate::padding::padded;
use arrayvec::ArrayVec;
use byteorder::{BigEndian, ByteOrder};

/// What a Get gathers.
#[derive(Drop)]
struct Gathered {
    /// The mask of what is returned.
    returned: u16,
    /// The mask of what doesn't fit.
    left_out: u16,
    /// The bytes of what is returned.
    bytes: ArrayVec<u8, 25>,
}

/// Gathers the attributes that a mask names, in ascending order, each that fits.
fn gather<E: ManagedEntity>(entity: &E, mask: u16) -> Gathered
    ensures returned { result.returned
        ≡ (gathered mask 0 25 (returned_values E.layout (E.values entity.now)
        (E.entries entity.now))).returned }
    ensures left_out { result.left_out
        ≡ (gathered mask 0 25 (returned_values E.layout (E.values entity.now)
        (E.entries entity.now))).left_out }
    ensures bytes { result.bytes.items
        ≡ (gathered mask 0 25 (returned_values E.layout (E.values entity.now)
        (E.entries entity.now))).bytes }
{
    let mut returned = 0;
    let mut left_out = 0;
    let mut bytes = ArrayVec::new();
    for place in 0..E::layout().len() {
        if names(mask, place) {
            if let Some(value) = entity.returned(place) {
                match bytes.try_extend_from_slice(&value) {
                    Ok(()) => returned += bit(place),
                    Err(_) => left_out += bit(place),
                }
            }
        }
    }
    Gathered {
        returned,
        left_out,
        bytes,
    }
}

/// The contents of the answer to a Get of an instance.
#[tactic(auto, unfolding(crate::specs::Get::get_contents))]
pub fn get_contents<E: ManagedEntity>(entity: &E, mask: u16) -> [u8; 32]
    ensures { result
        ≡ get_contents (length E.layout) mask
        (returned_values E.layout (E.values entity.now) (E.entries entity.now)) }
{
    let found = gather(entity, mask);
    let unknown = unknown(mask, E::layout().len());
    let mut contents = [0; 32];
    contents[0] = if unknown == 0 && found.left_out == 0 {
        0
    } else {
        9
    };
    BigEndian::write_u16(&mut contents[1..3], found.returned);
    BigEndian::write_u16(&mut contents[28..30], unknown);
    BigEndian::write_u16(&mut contents[30..], found.left_out);
    contents[3..28].copy_from_slice(&padded::<25>(&found.bytes));
    contents
}
