//! Writing the attributes of an instance that a mask names.
ghost use Rattle.std.specs.Prelude.{◌≡◌, ◌≤◌, ℕ, length};
ghost use Rattle.managed_entity.specs.Mask.{named_width, unwritable_of};
ghost use Rattle.managed_entity.specs.Instance.{shown_as};
ghost use Rattle.managed_entity.specs.Write.{written, created};

use crate::entity::ManagedEntity;
use crate::mask::names;

/// Writes the attributes that a mask names, but the table, from the bytes, one after another.
pub(crate) fn write<E: ManagedEntity>(entity: &mut E, mask: u16, bytes: &[u8])
    requires fits { named_width mask 0 E.layout ≤ length bytes.now }
    requires writable { unwritable_of mask 0 E.layout ≡ 0 }
    ensures values { E.values entity.new ≡ written mask 0 E.layout bytes.now (E.values entity.old) }
    ensures entries { E.entries entity.new ≡ E.entries entity.old }
{
    let layout = E::layout();
    let mut used = 0;
    for place in 0..layout.len() {
        if names(mask, place) {
            let width = layout[place].width as usize;
            if !layout[place].access.is_table() {
                entity.set_attribute(place, &bytes[used..used + width]);
            }
            used += width;
        }
    }
}

/// Makes an instance what Create leaves, with the set-by-create attributes of the contents.
pub fn create<E: ManagedEntity>(entity: &mut E, contents: &[u8; 32])
    ensures { (n : ℕ) → shown_as n (E.values entity.new) (E.entries entity.new)
        ≡ created E.layout n contents.now }
{
    entity.reset();
    write(entity, E::GIVEN, contents);
}
