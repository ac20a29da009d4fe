//! What a class of managed entities says of itself.
ghost use Rattle.std.specs.Prelude.{◌≡◌, ◌≤◌, List, ℕ, IfOk, IfSome, length, map, option_map, slice_get, slice_set};

use crate::attribute::Attribute;
use crate::bytes::Bytes;
use crate::refusal::Refusal;
use std::alloc::{AllocError, Global};

/// A class of managed entities, by the bytes of its attributes. Attribute n stands at place n - 1.
pub trait ManagedEntity: Drop {
    ghost use Rattle.managed_entity.specs.declared.attribute.Attribute.{Attribute};
    ghost use Rattle.managed_entity.specs.Class.{initial_value, initial_entries, width_at, table_at, read_only_at, tables_fit};
    ghost use Rattle.managed_entity.specs.Mask.{unwritable_of, given_mask, named_width};
    ghost use Rattle.managed_entity.specs.Answer.{outcome_of, left_by};
    ghost use Rattle.managed_entity.specs.Get.{returned_values};
    ghost use Rattle.managed_entity.specs.Set.{entries_with};
    ghost use Rattle.std.specs.Prelude.{true, false};

    /// How many instances there may be.
    const ROOM: usize;

    ghost ROOM: { ℕ };

    /// The mask of the attributes that Create is given.
    const GIVEN: u16;

    ghost GIVEN: { ℕ };

    /// The attributes of the class.
    ghost layout: { List Attribute };

    /// The bytes of each attribute, none of the table.
    ghost values: { Self → List (List ℕ) };

    /// The entries of the table.
    ghost entries: { Self → List (List ℕ) };

    fn layout() -> &'static [Attribute]
        ensures { result.now ≡ layout };

    /// An instance as Create leaves one that it gives nothing, with all the memory that it will need.
    fn new(alloc: Global) -> Result<Self, AllocError>
    where
        Self: Sized,
        ensures values { IfOk result (λ entity. values entity ≡ map initial_value layout) }
        ensures entries { IfOk result (λ entity. entries entity ≡ initial_entries layout) };

    /// Gives each attribute its value after Create, and 0 where Create gives one.
    fn reset(&mut self)
        ensures values { values self.new ≡ map initial_value layout }
        ensures entries { entries self.new ≡ initial_entries layout };

    /// What a Get returns of the attribute at a place.
    fn returned(&self, place: usize) -> Option<Bytes>
        ensures value { option_map (λ (v : _). v.items) result
            ≡ slice_get (returned_values layout (values self.now) (entries self.now)) place }
        ensures width { table_at layout place ≡ false
            → IfSome result (λ v. length v.items ≡ width_at layout place) };

    /// Writes the attribute at a place.
    fn set_attribute(&mut self, place: usize, bytes: &[u8])
        requires width { length bytes.now ≡ width_at layout place }
        requires no_table { table_at layout place ≡ false }
        requires writable { read_only_at layout place ≡ false }
        ensures values { values self.new ≡ slice_set (values self.old) place bytes.now }
        ensures entries { entries self.new ≡ entries self.old };

    /// Whether the table, if the class has one, takes an entry.
    fn check_entry(&self, entry: &[u8]) -> Result<(), Refusal>
        requires { length entry.now ≡ 16 }
        ensures { result ≡ outcome_of (entries_with layout (entries self.now) entry.now) };

    /// Puts an entry into the table; one that it doesn't take changes nothing.
    fn put_entry(&mut self, entry: &[u8])
        requires { length entry.now ≡ 16 }
        ensures entries { entries self.new
            ≡ left_by (entries self.old) (entries_with layout (entries self.old) entry.now) }
        ensures values { values self.new ≡ values self.old };

    /// There is a value for each attribute.
    ghost counts: { (entity : Self) → length (values entity) ≡ length layout };

    /// A mask has a bit for each attribute.
    ghost fits_mask: { length layout ≤ 16 };

    /// A Set writes 16 bytes of the table.
    ghost entries_fit: { tables_fit layout ≡ true };

    ghost given_is: { GIVEN ≡ given_mask 0 layout };

    /// Create is given nothing that is read only.
    ghost given_writable: { unwritable_of GIVEN 0 layout ≡ 0 };

    /// What Create is given fits into the contents of a request.
    ghost given_fits: { named_width GIVEN 0 layout ≤ 32 };
}
