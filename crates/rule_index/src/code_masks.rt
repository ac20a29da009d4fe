//! Masks by what a tag has beside its VID: its priority, its TPID and its DEI.
ghost use Rattle.std.specs.Prelude.{◌≡◌, ◌<◌, ◌≤◌, ◌+◌, ◌/◌, ◌%◌, ◌==◌, ◌^◌, ◌++◌, ◌∷◌, [], ℕ, List, length, slice_index_or};
ghost use Rattle.tag_view.specs.Word.{tag_of};
ghost use Rattle.vlan_rule.specs.declared.filter.TagFilter.{TagFilter};
ghost use Rattle.rule_index.specs.Masks.{AreGroups, IsBetween};
ghost use Rattle.rule_index.specs.Filters.{code_of, priority_key, tpid_key};
ghost use Rattle.rule_index.specs.Codes.{joined_code, joined_priority, joined_tpid, only_if, AreCodes};

use crate::bit::{insert_bits, remove_bits, set_bit};
use tag_view::CUSTOMER_TPID;
use vlan_rule::{PriorityFilter, TagFilter, TpidFilter};

/// The key of a filter for a priority.
fn priority_key(filter: PriorityFilter) -> usize
    ensures value { result ≡ priority_key filter }
    ensures bound { result < 10 }
{
    match filter {
        PriorityFilter::Any => 8,
        PriorityFilter::Exactly(pcp) if pcp < 8 => usize::from(pcp),
        PriorityFilter::Exactly(_) => 9,
    }
}

/// The key of a filter for a TPID and a DEI.
fn tpid_key(filter: TpidFilter) -> usize
    ensures value { result ≡ tpid_key filter }
    ensures bound { result < 5 }
{
    match filter {
        TpidFilter::Any => 0,
        TpidFilter::Standard => 1,
        TpidFilter::Input => 2,
        TpidFilter::InputNotEligible => 3,
        TpidFilter::InputEligible => 4,
    }
}

/// The code of the tag of a word: its TPID by whether it is that of a customer tag and
/// whether it is the input TPID, its priority and its DEI.
#[inline(always)]
pub(crate) fn code_of(tag: u32, input_tpid: u16) -> usize
    ensures value { result ≡ code_of input_tpid (tag_of tag) }
    ensures bound { result < 64 }
{
    usize::from(tag >> 16 == u32::from(CUSTOMER_TPID)) * 32
        + usize::from(tag >> 16 == u32::from(input_tpid)) * 16
        + (tag >> 12 & 15) as usize
}

/// A mask, or that of no entry.
fn only_if(condition: bool, mask: u128) -> u128
    ensures { result ≡ only_if condition mask }
{
    if condition { mask } else { 0 }
}

/// The mask of a TPID and a DEI from those by key.
fn joined_tpid(masks: &[u128; 5], standard: bool, input: bool, dei: bool) -> u128
    ensures { result ≡ joined_tpid masks.now standard input dei }
{
    masks[0]
        | only_if(standard, masks[1])
        | only_if(input, masks[2])
        | only_if(input && !dei, masks[3])
        | only_if(input && dei, masks[4])
}

/// The masks of each TPID and DEI: those of a code from its bits 5, 4 and 0.
fn joined_tpids(masks: &[u128; 5]) -> [u128; 8]
    ensures { (k : ℕ) → k < 8
        → slice_index_or result k 0
        ≡ joined_tpid masks.now (k / 4 == 1) (k / 2 % 2 == 1) (k % 2 == 1) }
{
    let mut joined = [0; 8];
    for k in 0..8 {
        joined[k] = joined_tpid(masks, k / 4 == 1, k / 2 % 2 == 1, k % 2 == 1);
    }
    joined
}

/// A mask for each code of a tag, joined from masks by priority and by TPID and DEI.
#[derive(Clone, Copy)]
pub(crate) struct CodeMasks {
    priorities: [u128; 10],
    tpids: [u128; 5],
    codes: [u128; 64],
}

/// No filter.
pub(crate) const NO_CODES: CodeMasks = CodeMasks {
    priorities: [0; 10],
    tpids: [0; 5],
    codes: [0; 64],
};

impl CodeMasks {
    ghost use Rattle.rule_index.specs.CodeMasks.{IsCodeGrouping};

    pub(crate) fn clear(&mut self)
        ensures { IsCodeGrouping self.new [] }
    {
        self.priorities = [0; 10];
        self.tpids = [0; 5];
    }

    /// One filter more, which has a place in the order.
    pub(crate) fn add(&mut self, filter: TagFilter, place: usize)
        requires place { place < 128 }
        ensures { (filters : List TagFilter) → length filters ≡ place
            → IsCodeGrouping self.old filters → IsCodeGrouping self.new (filters ++ filter ∷ []) }
    {
        set_bit(&mut self.priorities, priority_key(filter.priority), place);
        set_bit(&mut self.tpids, tpid_key(filter.tpid), place);
    }

    /// A filter that comes to a place in the order, before those from there on.
    pub(crate) fn insert(&mut self, filter: TagFilter, place: usize)
        requires place { place < 128 }
        ensures { (before after : List TagFilter) → IsBetween before after place
            → IsCodeGrouping self.old (before ++ after)
            → IsCodeGrouping self.new (before ++ filter ∷ after) }
    {
        let priority = priority_key(filter.priority);
        insert_bits(&mut self.priorities, 10, place, false, priority);
        insert_bits(&mut self.tpids, 5, place, false, tpid_key(filter.tpid));
    }

    /// The filter at a place in the order goes.
    pub(crate) fn remove(&mut self, place: usize)
        requires place { place < 128 }
        ensures { (before after : List TagFilter) (filter : TagFilter) → length before ≡ place
            → IsCodeGrouping self.old (before ++ filter ∷ after)
            → IsCodeGrouping self.new (before ++ after) }
    {
        remove_bits(&mut self.priorities, 10, place);
        remove_bits(&mut self.tpids, 5, place);
    }

    /// All filters are added.
    pub(crate) fn finish(&mut self)
        ensures keys { (filters : List TagFilter)
            → IsCodeGrouping self.old filters → IsCodeGrouping self.new filters }
        ensures codes { (filters : List TagFilter)
            → IsCodeGrouping self.old filters → AreCodes self.new.codes filters }
    {
        let tpids = joined_tpids(&self.tpids);
        for low in 0..16 {
            let priority = self.priorities[8] | self.priorities[low / 2];
            self.codes[low] = priority & tpids[low % 2];
            self.codes[16 + low] = priority & tpids[2 + low % 2];
            self.codes[32 + low] = priority & tpids[4 + low % 2];
            self.codes[48 + low] = priority & tpids[6 + low % 2];
        }
    }

    /// The mask of the tag of a word.
    #[inline(always)]
    pub(crate) fn mask(&self, tag: u32, input_tpid: u16) -> u128
        ensures { result ≡ slice_index_or self.now.codes (code_of input_tpid (tag_of tag)) 0 }
    {
        self.codes[code_of(tag, input_tpid)]
    }
}
