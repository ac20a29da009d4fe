//! A rule in words.
use crate::filter::FilterWords;
use crate::treatment::TreatmentWords;
use std::fmt;
use vlan_rule::Rule;

/// A rule of a VLAN table in words, on one line: which frames it is for, a colon, and what becomes of them (G.988, 9.3.13).
#[derive(Clone, Copy)]
pub struct RuleWords<'a>(pub &'a Rule);

impl fmt::Display for RuleWords<'_> {
    fn fmt<W: fmt::Write>(&self, f: &mut fmt::Formatter<W>) -> fmt::Result {
        let filter = FilterWords(self.0);
        let treatment = TreatmentWords(&self.0.treatment);
        write!(f, "{filter}: {treatment}")
    }
}
