//! The rules by which an ONU treats VLAN tags (ITU-T G.988, 9.3.13, received frame VLAN tagging
//! operation table): entries of 16 bytes, the rules that they mean, and the table that holds them.
#![tactic(auto)]

mod edit;
pub mod entry;
pub mod fault;
pub mod filter;
mod kind;
pub mod laws;
mod layout;
mod matching;
pub mod put;
pub mod rank;
mod refusal;
pub mod rule;
pub mod settings;
mod spelling;
pub mod table;
pub mod treatment;
mod walk;

pub use entry::Entry;
pub use fault::{RuleFault, TableFault};
pub use filter::{EthertypeFilter, Filter, PriorityFilter, TagFilter, TpidFilter, VidFilter};
pub use laws::law_of_choice;
pub use put::Put;
pub use rank::Rank;
pub use rule::Rule;
pub use settings::TableSettings;
pub use table::{RuleTable, TABLE_MAX_SIZE};
pub use treatment::{
    AddedTag, EligibleSource, PrioritySource, Retag, TpidSource, Treatment, VidSource,
};
