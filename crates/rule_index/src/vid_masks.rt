//! Masks by VID.
ghost use Rattle.std.specs.Prelude.{◌≡◌, ◌<◌, ◌≤◌, ◌+◌, ◌++◌, ◌∷◌, [], ℕ, IsTrue, List, length, vec_len, bit_or, slice_index_or};
ghost use Rattle.vlan_rule.specs.declared.filter.VidFilter.{VidFilter};
ghost use Rattle.vlan_rule.specs.Table.{table_max_size};
ghost use Rattle.rule_index.specs.Masks.{IsBetween};
ghost use Rattle.rule_index.specs.Vids.{class_at, mask_at, AreClasses, AreVids, IsVidGrouping};

use crate::bit::{bit, insert_bits, remove_bits};
use std::alloc::{AllocError, Global};
use vlan_rule::{TABLE_MAX_SIZE, VidFilter};

/// A mask for each class of VIDs. Those that filters name have a class each, from 1 on, and all others have
/// class 0. While filters are added, the mask of a class is of those that name its VID.
#[derive(Drop)]
pub(crate) struct VidMasks {
    // By VID.
    class: Vec<u8>,
    // By class.
    masks: Vec<u128>,
    // How many VIDs are named.
    named: usize,
    // The filters that name none.
    any: u128,
    ghost classes: { vec_len class ≡ 4096 },
    ghost room: { vec_len masks ≡ table_max_size + 1 },
    ghost few: { named ≤ table_max_size },
    ghost below: { (v : ℕ) → v < 4096 → class_at class.items v ≤ named },
}

impl VidMasks {
    pub(crate) fn new(alloc: Global) -> Result<Self, AllocError> {
        Ok(VidMasks {
            class: vec![in alloc; 0; 4096]?,
            masks: vec![in alloc; 0; TABLE_MAX_SIZE as usize + 1]?,
            named: 0,
            any: 0,
        })
    }

    /// No filter.
    pub(crate) fn clear(&mut self)
        ensures few { self.new.named ≡ 0 }
        ensures naming { IsVidGrouping self.new.class.items self.new.masks.items self.new.any [] }
    {
        self.class.fill(0);
        self.masks[0] = 0;
        self.named = 0;
        self.any = 0;
    }

    /// The class of a VID, made where it has none.
    fn class_of(&mut self, vid: u16) -> usize
        requires vid { vid < 4096 }
        requires room { self.old.named < 128 }
        ensures few { self.new.named ≤ self.old.named + 1 }
        ensures class { (0 < result) × (result ≤ 128)
            × (result ≡ class_at self.new.class.items vid) }
        ensures any { self.new.any ≡ self.old.any }
        ensures classes { (mask : ℕ → ℕ) (none : ℕ)
            → AreClasses self.old.class.items self.old.masks.items mask none
            → AreClasses self.new.class.items self.new.masks.items mask none }
    {
        let at = usize::from(vid);
        let class = self.class[at];
        if class != 0 {
            return usize::from(class);
        }
        self.named += 1;
        self.class[at] = self.named as u8;
        self.masks[self.named] = self.masks[0];
        self.named
    }

    /// One filter more, which has a place in the order.
    pub(crate) fn add(&mut self, filter: VidFilter, place: usize)
        requires place { place < 128 }
        requires room { self.old.named ≤ place }
        ensures few { self.new.named ≤ place + 1 }
        ensures naming { (filters : List VidFilter) → length filters ≡ place
            → IsVidGrouping self.old.class.items self.old.masks.items self.old.any filters
            → IsVidGrouping self.new.class.items self.new.masks.items self.new.any (filters
            ++ filter ∷ []) }
    {
        match filter {
            VidFilter::Any => self.any |= bit(place),
            VidFilter::Exactly(vid) if vid < 4096 => {
                let class = self.class_of(vid);
                self.masks[class] |= bit(place);
            }
            VidFilter::Exactly(_) => {}
        }
    }

    /// All filters are added: the masks get those that name no VID, too.
    pub(crate) fn finish(&mut self)
        ensures { (filters : List VidFilter)
            → IsVidGrouping self.old.class.items self.old.masks.items self.old.any filters
            → AreVids self.new.class.items self.new.masks.items filters }
    {
        for class in 0..self.named + 1 {
            self.masks[class] |= self.any;
        }
    }

    /// A filter that comes to a place in the order, before those from there on.
    pub(crate) fn insert(&mut self, filter: VidFilter, place: usize)
        requires place { place < 128 }
        requires room { self.old.named < 128 }
        ensures { (before after : List VidFilter) → IsBetween before after place
            → AreVids self.old.class.items self.old.masks.items (before ++ after)
            → AreVids self.new.class.items self.new.masks.items (before ++ filter ∷ after) }
    {
        match filter {
            VidFilter::Any => insert_bits(&mut self.masks, self.named + 1, place, true, 0),
            VidFilter::Exactly(vid) if vid < 4096 => {
                let class = self.class_of(vid);
                insert_bits(&mut self.masks, self.named + 1, place, false, class);
            }
            VidFilter::Exactly(_) => {
                insert_bits(&mut self.masks, self.named + 1, place, false, 129);
            }
        }
    }

    /// The filter at a place in the order goes. A VID that no filter names any longer keeps its class.
    pub(crate) fn remove(&mut self, place: usize)
        requires { place < 128 }
        ensures { (before after : List VidFilter) (filter : VidFilter) → length before ≡ place
            → AreVids self.old.class.items self.old.masks.items (before ++ filter ∷ after)
            → AreVids self.new.class.items self.new.masks.items (before ++ after) }
    {
        remove_bits(&mut self.masks, self.named + 1, place);
    }

    /// Whether there is a class for one VID more.
    pub(crate) fn has_room(&self) -> bool
        ensures { IsTrue result → self.now.named < 128 }
    {
        self.named < TABLE_MAX_SIZE as usize
    }

    /// The mask of a VID.
    #[inline(always)]
    pub(crate) fn mask(&self, vid: u16) -> u128
        requires { vid < 4096 }
        ensures { result ≡ mask_at self.now.class.items self.now.masks.items vid }
    {
        self.masks[usize::from(self.class[usize::from(vid)])]
    }
}
