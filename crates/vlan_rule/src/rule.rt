//! A rule: what an entry means.
ghost use Rattle.std.specs.Prelude.{◌≡◌, IsTrue, Some, MatchOption, MatchResult, true, false};
ghost use Rattle.vlan_rule.specs.Entry.{refusal_of};
ghost use Rattle.vlan_rule.specs.Meaning.{treatment_fits};
ghost use Rattle.vlan_rule.specs.Spelling.{are_codable, is_spellable, spelled, spelled_key_of, spelled_rest_of};

use crate::entry::Entry;
use crate::fault::RuleFault;
use crate::filter::{EthertypeFilter, Filter};
use crate::layout::{FILTER_ETHERTYPE, FILTER_INNER, FILTER_OUTER};
use crate::rank::Rank;
use crate::refusal::refusal;
use crate::treatment::Treatment;

/// What an entry that isn't refused means: which frames it is for, and what becomes of them
/// (G.988, 9.3.13). Every rule is that of some entry, and what it adds can stand in a tag.
#[derive(Clone, Copy, Debug, PartialEq, Eq)]
pub struct Rule {
    pub filter: Filter,
    pub ethertype: EthertypeFilter,
    pub treatment: Treatment,
    pub rank: Rank,
    pub ghost codable: { IsTrue (is_spellable filter ethertype treatment rank) },
    pub ghost fits: { IsTrue (treatment_fits treatment) },
}

impl Rule {
    ghost use Rattle.vlan_rule.specs.Rule.{IsRuleBy, IsRuleOf, NoEntrySays};

    /// The rule of these parts, ranked by its filter (rank 0, or 1 for a default). None where no
    /// entry says them: a filter's priority over 7 or VID over 4095, an added priority over 7 or VID
    /// over 4094, more than two tags removed, or a drop eligible indicator that doesn't go with the
    /// TPID. Every indicator goes with the output TPID; with that of the received inner or outer tag
    /// goes that tag's; 0 goes with 0x8100.
    pub fn new(filter: Filter, ethertype: EthertypeFilter, treatment: Treatment) -> Option<Rule>
        ensures { MatchOption result
            ((are_codable filter treatment ≡ false) × NoEntrySays filter ethertype treatment)
            (λ rule. (are_codable filter treatment ≡ true)
            × IsRuleBy filter ethertype treatment rule) }
    {
        if filter.is_codable() && treatment.is_codable() {
            let rank = filter.rank();
            Some(Rule {
                filter,
                ethertype,
                treatment,
                rank,
            })
        } else {
            None
        }
    }

    /// An entry that means the rule. Its padding is zero. A VID filter that isn't asked for is 4096,
    /// in a predefined key 0; what adds no tag has the priority 15, and its VID and TPID/DE are 0.
    pub fn spell(&self) -> Entry
        ensures bytes { result.0
            ≡ spelled self.now.filter self.now.ethertype self.now.treatment self.now.rank }
        ensures read { IsRuleOf result.0 self.now }
    {
        Entry::of(self.key(), self.rest())
    }

    /// The number in the first eight bytes of the entry that it is spelled as.
    fn key(&self) -> u64
        ensures { result ≡ spelled_key_of self.now.filter self.now.ethertype self.now.rank }
    {
        let any_vid = self.rank.any_vid();
        let outer = self.filter.outer_codes(any_vid).number();
        let inner = self.filter.inner_codes(any_vid).number();
        (outer * 0x1_0000_0000 + inner) * 0x1000 + u64::from(self.ethertype.code())
    }

    /// The number in the last eight bytes of the entry that it is spelled as.
    fn rest(&self) -> u64
        ensures { result ≡ spelled_rest_of self.now.treatment }
    {
        let remove = u64::from(self.treatment.removal());
        let outer = self.treatment.outer_codes().number();
        let inner = self.treatment.inner_codes().number();
        (remove * 0x4000_0000 + outer) * 0x1_0000_0000 + inner
    }

    /// The rule of an entry, or the first reason for which it is refused. Padding is ignored, also
    /// where an edition of the standard gives it a meaning (a choice of this project).
    #[tactic(auto, unfolding(crate::specs::Meaning::filter_of, crate::specs::Meaning::ethertype_of, crate::specs::Meaning::rank_of))]
    pub fn read(entry: &Entry) -> Result<Rule, RuleFault>
        ensures { MatchResult result
            (IsRuleOf entry.now.0)
            (λ fault. refusal_of entry.now.0 ≡ Some fault) }
    {
        match refusal(entry) {
            Some(fault) => Err(fault),
            None => {
                let kind = entry.kind();
                Ok(Rule {
                    filter: Filter::of(kind, entry.codes(FILTER_OUTER), entry.codes(FILTER_INNER)),
                    ethertype: EthertypeFilter::of(entry.value(FILTER_ETHERTYPE)),
                    treatment: Treatment::of(entry),
                    rank: Rank::of(entry.is_predefined(), kind),
                })
            }
        }
    }
}
