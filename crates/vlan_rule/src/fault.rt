//! Why an entry is no rule, and why a table refuses one.
ghost use Rattle.std.specs.Prelude.{◌≡◌};

use thiserror::Error;

/// The first reason for which an entry is refused, in this order (a choice of this project). Only
/// fields that count are looked at: the filters of its kind, and the treatments where the frame
/// isn't dropped.
#[derive(Clone, Copy, Debug, PartialEq, Eq, Error)]
pub enum RuleFault {
    /// A filter priority of 9 to 13; an outer one only where the entry isn't for frames without tags.
    #[error("a filter priority is reserved")]
    Priority,
    /// An outer filter priority of 0 to 8 with an inner one of 14.
    #[error("the filter priorities are of no kind of entry")]
    Mixed,
    /// A filter VID over 4096.
    #[error("a filter VID is reserved")]
    Vid,
    /// A filter TPID/DE of 1 to 3.
    #[error("a filter TPID/DE is reserved")]
    Tpid,
    /// An Ethertype filter over 5.
    #[error("the Ethertype filter is reserved")]
    Ethertype,
    /// A treatment priority of 11 to 14.
    #[error("a treatment priority is reserved")]
    TreatPriority,
    /// A treatment VID of 4095, or over 4097, of a tag that is added.
    #[error("a treatment VID is reserved")]
    TreatVid,
    /// A treatment TPID/DE of 5, of a tag that is added.
    #[error("a treatment TPID/DE is reserved")]
    TreatTpid,
}

impl RuleFault {
    ghost use Rattle.vlan_rule.specs.Entry.{rule_fault_code};

    /// Its number, 1 to 8.
    pub fn code(self) -> u8
        ensures { result ≡ rule_fault_code self }
    {
        match self {
            RuleFault::Priority => 1,
            RuleFault::Mixed => 2,
            RuleFault::Vid => 3,
            RuleFault::Tpid => 4,
            RuleFault::Ethertype => 5,
            RuleFault::TreatPriority => 6,
            RuleFault::TreatVid => 7,
            RuleFault::TreatTpid => 8,
        }
    }
}

/// Why a table refuses an entry.
#[derive(Clone, Copy, Debug, PartialEq, Eq, Error)]
pub enum TableFault {
    /// The entry is no deletion and no rule.
    #[error("the entry is no rule: {0}")]
    Bad(RuleFault),
    /// The table holds `TABLE_MAX_SIZE` entries, and none of them has the entry's key.
    #[error("the table is full")]
    Full,
}

impl TableFault {
    ghost use Rattle.vlan_rule.specs.Table.{table_fault_code};

    /// Its number: 1 for a bad entry, 2 for a full table.
    pub fn code(self) -> u8
        ensures { result ≡ table_fault_code self }
    {
        match self {
            TableFault::Bad(_) => 1,
            TableFault::Full => 2,
        }
    }
}
