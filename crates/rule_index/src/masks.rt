//! The masks of an index.
ghost use Rattle.std.specs.Prelude.{◌≡◌, ◌<◌, ◌≤◌, ◌==◌, ◌+◌, ◌++◌, ◌∷◌, [], ℕ, IsTrue, List, length};
ghost use Rattle.rule_index.specs.declared.row.Row.{Row};
ghost use Rattle.rule_index.specs.Masks.{mask_of, IsBetween};
ghost use Rattle.rule_index.specs.Order.{row_matches};
ghost use Rattle.rule_index.specs.Filters.{admits_vid, inner_in, tags_in};

use crate::head::Head;
use crate::kind_masks::{KindMasks, NO_KINDS, type_class};
use crate::row::Row;
use crate::tag_masks::TagMasks;
use std::alloc::{AllocError, Global};

/// The masks of an index: a mask for each value of each field.
#[derive(Drop)]
pub(crate) struct Masks {
    kinds: KindMasks,
    outer: TagMasks,
    inner: TagMasks,
}

impl Masks {
    ghost use Rattle.rule_index.specs.Built.{IsGrouping, IsBuilt};

    pub(crate) fn new(alloc: Global) -> Result<Self, AllocError> {
        Ok(Masks {
            kinds: NO_KINDS,
            outer: TagMasks::new(alloc)?,
            inner: TagMasks::new(alloc)?,
        })
    }

    /// The masks of some rows.
    pub(crate) fn rebuild(&mut self, rows: &[Row])
        requires { length rows.now ≤ 128 }
        ensures { IsBuilt self.new rows.now }
    {
        self.group(rows);
        self.kinds.finish();
        self.outer.finish();
        self.inner.finish();
    }

    /// Sets the bits of some rows.
    fn group(&mut self, rows: &[Row])
        requires { length rows.now ≤ 128 }
        ensures { IsGrouping self.new rows.now }
    {
        self.kinds.clear();
        self.outer.clear();
        self.inner.clear();
        for place in 0..rows.len() {
            let row = &rows[place];
            self.kinds.add(row, place);
            self.outer.add(row.outer(), place);
            self.inner.add(row.inner(), place);
        }
    }

    /// A row that comes to a place in the order, before those from there on.
    pub(crate) fn insert(&mut self, row: &Row, place: usize)
        requires place { place < 128 }
        requires outer { self.old.outer.vids.named < 128 }
        requires inner { self.old.inner.vids.named < 128 }
        ensures { (before after : List Row) → IsBetween before after place
            → IsBuilt self.old (before ++ after) → IsBuilt self.new (before ++ row.now ∷ after) }
    {
        self.kinds.insert(row, place);
        self.kinds.finish();
        self.outer.insert(row.outer(), place);
        self.inner.insert(row.inner(), place);
    }

    /// The row at a place in the order goes.
    pub(crate) fn remove(&mut self, place: usize)
        requires { place < 128 }
        ensures { (before after : List Row) (row : Row) → length before ≡ place
            → IsBuilt self.old (before ++ row ∷ after) → IsBuilt self.new (before ++ after) }
    {
        self.kinds.remove(place);
        self.kinds.finish();
        self.outer.remove(place);
        self.inner.remove(place);
    }

    /// Whether there is a class for one VID more of each tag.
    pub(crate) fn has_room(&self) -> bool
        ensures outer { IsTrue result → self.now.outer.vids.named < 128 }
        ensures inner { IsTrue result → self.now.inner.vids.named < 128 }
    {
        self.outer.has_room() && self.inner.has_room()
    }

    /// The mask of the rows that are for a frame with this head, joined from those of the tags that it has.
    /// Inlined where the number of tags is known, only its arm is left.
    #[inline(always)]
    pub(crate) fn mask(&self, head: &Head, input_tpid: u16) -> u128
        ensures { (rows : List Row) → IsBuilt self.now rows
            → result ≡ mask_of (λ row.
            row_matches input_tpid head.now.tags head.now.type row) rows }
    {
        let class = type_class(head.ethertype);
        match head.tags {
            0 => self.kinds.mask(0, class),
            1 => self.kinds.mask(1, class) & self.inner.mask(head.inner, input_tpid),
            _ => {
                self.kinds.mask(2, class)
                    & self.outer.mask(head.outer, input_tpid)
                    & self.inner.mask(head.inner, input_tpid)
            }
        }
    }

    /// The mask of the rows of a number of tags.
    pub(crate) fn tag_mask(&self, tags: usize) -> u128
        requires { tags ≤ 2 }
        ensures { (rows : List Row) → IsBuilt self.now rows
            → result ≡ mask_of (λ row. tags_in row.filter == tags) rows }
    {
        self.kinds.tag_mask(tags)
    }

    /// The mask of the rows that admit an inner VID.
    pub(crate) fn inner_vid_mask(&self, vid: u16) -> u128
        requires { vid < 4096 }
        ensures { (rows : List Row) → IsBuilt self.now rows
            → result ≡ mask_of (λ row. admits_vid vid (inner_in row.filter).vid) rows }
    {
        self.inner.vid_mask(vid)
    }
}
