//! Masks by the number of tags and the type behind them.
ghost use Rattle.std.specs.Prelude.{◌≡◌, ◌<◌, ◌≤◌, ◌+◌, ◌*◌, ◌++◌, ◌∷◌, [], ℕ, List, length, slice_index_or};
ghost use Rattle.rule_index.specs.declared.row.Row.{Row};
ghost use Rattle.rule_index.specs.Filters.{type_class};
ghost use Rattle.rule_index.specs.Masks.{IsBetween};
ghost use Rattle.rule_index.specs.Kinds.{joined_kind, AreKinds, AreTags, AreTypes};

use crate::bit::{insert_bits, remove_bits, set_bit};
use crate::row::Row;

/// The types that filters ask for, each at its place. No two have the same.
static TYPES: [u16; 32] = [
    0, 0, 0, 0, 0, 0, 0x888e, 0, 0x0800, 0, 0, 0x8863, 0x8864, 0, 0x0806, 0, 0, 0, 0, 0, 0, 0, 0,
    0, 0, 0, 0, 0x86dd, 0, 0, 0, 0,
];

/// The class of the type at each place.
static CLASSES: [u8; 32] = [
    0, 0, 0, 0, 0, 0, 5, 0, 1, 0, 0, 2, 2, 0, 3, 0, 0, 0, 0, 0, 0, 0, 0, 0, 0, 0, 0, 4, 0, 0, 0, 0,
];

/// The class of a type: the key of the filter that asks for it, or 0, as for a type that isn't at its place.
/// It has no branch, for types come in no order that a processor could foresee.
#[inline(always)]
pub(crate) fn type_class(ethertype: u16) -> usize
    ensures value { result ≡ type_class ethertype }
    ensures bound { result < 6 }
{
    let place = usize::from((ethertype ^ ethertype >> 8) % 32);
    usize::from(CLASSES[place]) * usize::from(TYPES[place] == ethertype)
}

/// A mask for each number of tags and class of types, joined from masks by either.
#[derive(Clone, Copy)]
pub(crate) struct KindMasks {
    tags: [u128; 3],
    types: [u128; 6],
    joined: [u128; 18],
}

/// No row.
pub(crate) const NO_KINDS: KindMasks = KindMasks {
    tags: [0; 3],
    types: [0; 6],
    joined: [0; 18],
};

impl KindMasks {
    pub(crate) fn clear(&mut self)
        ensures tags { AreTags self.new.tags [] }
        ensures types { AreTypes self.new.types [] }
    {
        self.tags = [0; 3];
        self.types = [0; 6];
    }

    /// One row more, which has a place in the order.
    pub(crate) fn add(&mut self, row: &Row, place: usize)
        requires place { place < 128 }
        ensures tags { (rows : List Row) → length rows ≡ place
            → AreTags self.old.tags rows → AreTags self.new.tags (rows ++ row.now ∷ []) }
        ensures types { (rows : List Row) → length rows ≡ place
            → AreTypes self.old.types rows → AreTypes self.new.types (rows ++ row.now ∷ []) }
    {
        set_bit(&mut self.tags, row.tags(), place);
        set_bit(&mut self.types, row.type_key(), place);
    }

    /// A row that comes to a place in the order, before those from there on.
    pub(crate) fn insert(&mut self, row: &Row, place: usize)
        requires place { place < 128 }
        ensures tags { (before after : List Row) → IsBetween before after place
            → AreTags self.old.tags (before ++ after)
            → AreTags self.new.tags (before ++ row.now ∷ after) }
        ensures types { (before after : List Row) → IsBetween before after place
            → AreTypes self.old.types (before ++ after)
            → AreTypes self.new.types (before ++ row.now ∷ after) }
    {
        insert_bits(&mut self.tags, 3, place, false, row.tags());
        insert_bits(&mut self.types, 6, place, false, row.type_key());
    }

    /// The row at a place in the order goes.
    pub(crate) fn remove(&mut self, place: usize)
        requires place { place < 128 }
        ensures tags { (before after : List Row) (row : Row) → length before ≡ place
            → AreTags self.old.tags (before ++ row ∷ after)
            → AreTags self.new.tags (before ++ after) }
        ensures types { (before after : List Row) (row : Row) → length before ≡ place
            → AreTypes self.old.types (before ++ row ∷ after)
            → AreTypes self.new.types (before ++ after) }
    {
        remove_bits(&mut self.tags, 3, place);
        remove_bits(&mut self.types, 6, place);
    }

    /// All rows are added.
    pub(crate) fn finish(&mut self)
        ensures tags { self.new.tags ≡ self.old.tags }
        ensures types { self.new.types ≡ self.old.types }
        ensures kinds { (rows : List Row) → AreTags self.old.tags rows
            → AreTypes self.old.types rows
            → AreKinds self.new.joined rows }
    {
        for k in 0..18 {
            self.joined[k] = self.tags[k / 6] & (self.types[0] | self.types[k % 6]);
        }
    }

    /// The mask of a number of tags and a class.
    #[inline(always)]
    pub(crate) fn mask(&self, tags: usize, class: usize) -> u128
        requires tags { tags ≤ 2 }
        requires class { class < 6 }
        ensures { result ≡ slice_index_or self.now.joined (tags * 6 + class) 0 }
    {
        self.joined[tags * 6 + class]
    }

    /// The mask of a number of tags.
    pub(crate) fn tag_mask(&self, tags: usize) -> u128
        requires { tags ≤ 2 }
        ensures { result ≡ slice_index_or self.now.tags tags 0 }
    {
        self.tags[tags]
    }
}
