//! An entry of a VLAN table in words.
use crate::bytes::HexWords;
use crate::rule::RuleWords;
use std::fmt::{self, Display};
use vlan_rule::{Entry, Rule};

/// An entry that is put into a VLAN table, in words: its rule; for a deletion, the key whose entry goes; and for an entry that
/// is refused, its bytes and why.
#[derive(Clone, Copy)]
pub struct EntryWords<'a>(pub &'a Entry);

impl fmt::Display for EntryWords<'_> {
    fn fmt<W: fmt::Write>(&self, f: &mut fmt::Formatter<W>) -> fmt::Result {
        if self.0.is_deletion() {
            let key = self.0.key();
            return write!(f, "delete the entry of key {key:016x}");
        }
        match Rule::read(self.0) {
            Ok(rule) => RuleWords(&rule).fmt(f),
            Err(fault) => {
                let bytes = HexWords(&self.0.0);
                write!(f, "bad entry {bytes}: {fault}")
            }
        }
    }
}
