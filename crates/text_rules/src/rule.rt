//! A rule in words.
use crate::asked::{check_alone, rule_at, take_word};
use crate::filter::FilterAsked;
use crate::treatment::TreatmentAsked;
use std::alloc::AllocError;
use text_words::{Mistake, Mistakes, Word};
use vlan_rule::{Entry, Rule, Treatment};

/// What the words of a rule ask so far: a filter, and behind an arrow a treatment.
#[derive(Clone, Copy)]
pub struct RuleAsked {
    filter: FilterAsked,
    treatment: TreatmentAsked,
    /// The column of the arrow, once it has come.
    arrow: Option<usize>,
}

/// The rule of the predefined key of the same kind: but for the priorities, which say the kind, such a key is 0.
fn predefined(rule: &Rule) -> Option<Rule> {
    let mut bytes = rule.spell().0;
    let (outer, inner) = (bytes[0] & 0xf0, bytes[4] & 0xf0);
    bytes[..8].copy_from_slice(&[outer, 0, 0, 0, inner, 0, 0, 0]);
    Rule::read(&Entry(bytes)).ok()
}

impl RuleAsked {
    /// Nothing is asked yet.
    pub const NEW: RuleAsked = RuleAsked {
        filter: FilterAsked::NEW,
        treatment: TreatmentAsked::NEW,
        arrow: None,
    };

    /// Takes a word.
    pub fn take(&mut self, word: Word<'_>, mistakes: &mut Mistakes) -> Result<(), AllocError> {
        if self.arrow.is_some() {
            return take_word(&mut self.treatment, word, mistakes);
        }
        if word.is("->") {
            self.arrow = Some(word.column);
            return Ok(());
        }
        take_word(&mut self.filter, word, mistakes)
    }

    /// The rule in all, or what is wrong with it. The line ends in front of the column `end`.
    pub fn rule<'a>(&self, end: usize) -> Result<Rule, Mistake<'a>> {
        let Some(arrow) = self.arrow else {
            return Err(rule_at(end, "behind the filter stand -> and the treatment"));
        };
        self.with(self.treatment.treatment()?, arrow)
    }

    /// The rule with this filter that drops frames, where a filter stands alone; or what is wrong with it. The line ends in front of the
    /// column `end`.
    pub fn filter_alone<'a>(&self, end: usize) -> Result<Rule, Mistake<'a>> {
        check_alone(
            self.arrow,
            "an entry is removed by its filter, no treatment stands behind it",
        )?;
        self.with(Treatment::Discard, end)
    }

    /// The rule with a treatment, whose filter ends in front of a column.
    fn with<'a>(&self, treatment: Treatment, end: usize) -> Result<Rule, Mistake<'a>> {
        let filter = self.filter.filter(end)?;
        let ordinary = Rule::new(filter, self.filter.ethertype(), treatment);
        let rule = match &ordinary {
            Some(rule) if self.filter.is_predefined() => predefined(rule),
            _ => ordinary,
        };
        rule.ok_or(rule_at(end, "no entry of a table says this"))
    }
}
