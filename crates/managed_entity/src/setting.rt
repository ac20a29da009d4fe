//! What a Set does to an instance: a check, which may refuse it, and the change.
ghost use Rattle.std.specs.Prelude.{◌≡◌, ◌≤◌, ℕ, length, drop};
ghost use Rattle.managed_entity.specs.Instance.{shown_as};
ghost use Rattle.managed_entity.specs.Mask.{named_width, unwritable_of};
ghost use Rattle.managed_entity.specs.Answer.{outcome_of, left_by};
ghost use Rattle.managed_entity.specs.Set.{entry_at, entries_after, set_instance};
ghost use Rattle.managed_entity.specs.Write.{written};

use crate::attribute::Attribute;
use crate::entity::ManagedEntity;
use crate::mask::{bit, names, unknown};
use crate::refusal::Refusal;
use crate::write::write;

/// Where the entry of the table stands among the bytes of a Set, if its mask names the table of a class with this layout.
pub fn entry_at(layout: &[Attribute], mask: u16) -> Option<usize>
    requires { length layout.now ≤ 16 }
    ensures { result ≡ entry_at mask 0 layout.now }
{
    let mut at = 0;
    for place in 0..layout.len() {
        if names(mask, place) {
            if layout[place].access.is_table() {
                return Some(at);
            }
            at += layout[place].width as usize;
        }
    }
    None
}

/// The number of bytes of the attributes that a mask names.
fn named_width(layout: &[Attribute], mask: u16) -> usize
    requires { length layout.now ≤ 16 }
    ensures { result ≡ named_width mask 0 layout.now }
{
    let mut width = 0;
    for place in 0..layout.len() {
        if names(mask, place) {
            width += layout[place].width as usize;
        }
    }
    width
}

/// The attributes that a mask names and that are read only.
fn unwritable(layout: &[Attribute], mask: u16) -> u16
    requires { length layout.now ≤ 16 }
    ensures { result ≡ unwritable_of mask 0 layout.now }
{
    let mut unwritable = 0;
    for place in 0..layout.len() {
        if names(mask, place) && layout[place].access.is_read_only() {
            unwritable += bit(place);
        }
    }
    unwritable
}

/// Whether the table takes the entry that is set, if the mask names the table.
fn check_named<E: ManagedEntity>(entity: &E, mask: u16, bytes: &[u8]) -> Result<(), Refusal>
    requires { named_width mask 0 E.layout ≤ length bytes.now }
    ensures { result
        ≡ outcome_of (entries_after (entry_at mask 0 E.layout) bytes.now (E.entries entity.now)) }
{
    match entry_at(E::layout(), mask) {
        Some(at) => entity.check_entry(&bytes[at..at + 16]),
        None => Ok(()),
    }
}

/// Puts the entry that is set into the table, if the mask names the table.
fn put_named<E: ManagedEntity>(entity: &mut E, mask: u16, bytes: &[u8])
    requires { named_width mask 0 E.layout ≤ length bytes.now }
    ensures entries { E.entries entity.new ≡ left_by (E.entries entity.old)
        (entries_after (entry_at mask 0 E.layout) bytes.now (E.entries entity.old)) }
    ensures values { E.values entity.new ≡ E.values entity.old }
{
    if let Some(at) = entry_at(E::layout(), mask) {
        entity.put_entry(&bytes[at..at + 16]);
    }
}

/// Whether a Set of the attributes that a mask names is refused.
#[tactic(auto, unfolding(crate::specs::Set::set_instance), using(crate::proofs::SetInstance::outcome_of_with_entries))]
pub fn check_set<E: ManagedEntity>(entity: &E, mask: u16, bytes: &[u8]) -> Result<(), Refusal>
    requires { length bytes.now ≡ 30 }
    ensures { (n : ℕ) → result ≡ outcome_of
        (set_instance E.layout mask bytes.now
        (shown_as n (E.values entity.now) (E.entries entity.now))) }
{
    let layout = E::layout();
    let unknown = unknown(mask, layout.len());
    let unwritable = unwritable(layout, mask);
    if unknown != 0 || unwritable != 0 {
        return Err(Refusal::AttributesFailed(unknown, unwritable));
    }
    if named_width(layout, mask) > 30 {
        return Err(Refusal::ParameterError);
    }
    check_named(entity, mask, bytes)
}

/// Writes the attributes that a mask names, by a Set that isn't refused.
pub fn set<E: ManagedEntity>(entity: &mut E, mask: u16, bytes: &[u8])
    requires fits { named_width mask 0 E.layout ≤ length bytes.now }
    requires writable { unwritable_of mask 0 E.layout ≡ 0 }
    ensures values { E.values entity.new ≡ written mask 0 E.layout bytes.now (E.values entity.old) }
    ensures entries { E.entries entity.new ≡ left_by (E.entries entity.old)
        (entries_after (entry_at mask 0 E.layout) bytes.now (E.entries entity.old)) }
{
    put_named(entity, mask, bytes);
    write(entity, mask, bytes);
}

/// The values of a Set.
pub fn set_values(contents: &[u8; 32]) -> &[u8]
    ensures values { result.now ≡ drop 2 contents.now }
    ensures len { length result.now ≡ 30 }
{
    &contents[2..]
}
