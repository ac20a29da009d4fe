//! Masks by the fields of one tag of a frame.
ghost use Rattle.std.specs.Prelude.{◌≡◌, ◌<◌, ◌≤◌, ◌+◌, ◌++◌, ◌∷◌, [], ℕ, IsTrue, List, length};
ghost use Rattle.tag_view.specs.Word.{tag_of};
ghost use Rattle.vlan_rule.specs.declared.filter.TagFilter.{TagFilter};
ghost use Rattle.vlan_rule.specs.Choice.{is_tag};
ghost use Rattle.rule_index.specs.Masks.{mask_of, IsBetween};
ghost use Rattle.rule_index.specs.Vids.{mask_at};

use crate::code_masks::{CodeMasks, NO_CODES};
use crate::vid_masks::VidMasks;
use std::alloc::{AllocError, Global};
use vlan_rule::TagFilter;

/// A mask for each tag, joined from two.
#[derive(Drop)]
pub(crate) struct TagMasks {
    codes: CodeMasks,
    vids: VidMasks,
}

impl TagMasks {
    ghost use Rattle.rule_index.specs.TagMasks.{IsTagGrouping, IsTagIndex};

    pub(crate) fn new(alloc: Global) -> Result<Self, AllocError> {
        Ok(TagMasks {
            codes: NO_CODES,
            vids: VidMasks::new(alloc)?,
        })
    }

    /// No filter.
    pub(crate) fn clear(&mut self)
        ensures few { self.new.vids.named ≡ 0 }
        ensures grouping { IsTagGrouping self.new [] }
    {
        self.codes.clear();
        self.vids.clear();
    }

    /// One filter more, which has a place in the order.
    pub(crate) fn add(&mut self, filter: TagFilter, place: usize)
        requires place { place < 128 }
        requires room { self.old.vids.named ≤ place }
        ensures few { self.new.vids.named ≤ place + 1 }
        ensures grouping { (filters : List TagFilter) → length filters ≡ place
            → IsTagGrouping self.old filters → IsTagGrouping self.new (filters ++ filter ∷ []) }
    {
        self.codes.add(filter, place);
        self.vids.add(filter.vid, place);
    }

    /// All filters are added.
    pub(crate) fn finish(&mut self)
        ensures { (filters : List TagFilter) → IsTagGrouping self.old filters
            → IsTagIndex self.new filters }
    {
        self.codes.finish();
        self.vids.finish();
    }

    /// A filter that comes to a place in the order, before those from there on.
    pub(crate) fn insert(&mut self, filter: TagFilter, place: usize)
        requires place { place < 128 }
        requires room { self.old.vids.named < 128 }
        ensures { (before after : List TagFilter) → IsBetween before after place
            → IsTagIndex self.old (before ++ after)
            → IsTagIndex self.new (before ++ filter ∷ after) }
    {
        self.codes.insert(filter, place);
        self.codes.finish();
        self.vids.insert(filter.vid, place);
    }

    /// The filter at a place in the order goes.
    pub(crate) fn remove(&mut self, place: usize)
        requires { place < 128 }
        ensures { (before after : List TagFilter) (filter : TagFilter) → length before ≡ place
            → IsTagIndex self.old (before ++ filter ∷ after)
            → IsTagIndex self.new (before ++ after) }
    {
        self.codes.remove(place);
        self.codes.finish();
        self.vids.remove(place);
    }

    /// Whether there is a class for one VID more.
    pub(crate) fn has_room(&self) -> bool
        ensures { IsTrue result → self.now.vids.named < 128 }
    {
        self.vids.has_room()
    }

    /// The mask of the filters that the tag of a word passes.
    #[inline(always)]
    pub(crate) fn mask(&self, tag: u32, input_tpid: u16) -> u128
        ensures { (filters : List TagFilter) → IsTagIndex self.now filters
            → result ≡ mask_of (λ filter. is_tag input_tpid filter (tag_of tag)) filters }
    {
        self.codes.mask(tag, input_tpid) & self.vids.mask((tag % 4096) as u16)
    }

    /// The mask of the filters that admit a VID.
    #[inline(always)]
    pub(crate) fn vid_mask(&self, vid: u16) -> u128
        requires { vid < 4096 }
        ensures { result ≡ mask_at self.now.vids.class.items self.now.vids.masks.items vid }
    {
        self.vids.mask(vid)
    }
}
