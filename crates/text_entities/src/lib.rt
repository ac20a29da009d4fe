//! Managed entities as text: what a rule of a VLAN table says in words, what the value of an attribute is, and all that a
//! MIB holds, for one who reads it and, as JSON (RFC 8259), for other programs.
//!
//! **Nothing is written out by hand for a class.** What attributes a class has, what they are called and what their values
//! are, is data of `managed_entity`.
//!
//! **What is promised.** Every call returns, and nothing is undefined. What stands in a text is shown by tests.
#![tactic(auto)]

mod bytes;
mod class_names;
mod dscp;
mod entity;
mod entry;
mod field;
mod filter;
mod json_text;
mod mib;
mod mib_json;
mod part;
mod rule;
mod rule_json;
mod tag;
mod treatment;
mod value;

pub use bytes::HexWords;
pub use class_names::standard_class_name;
pub use dscp::DscpMapWords;
pub use entity::EntityWords;
pub use entry::EntryWords;
pub use filter::FilterWords;
pub use json_text::{FORMAT, JsonText, put_flag, put_number, put_text, put_words};
pub use mib::write_mib;
pub use mib_json::{put_value_json, put_value_word, write_mib_json};
pub use part::{ANY_PARTS, Part, TagParts, TpidCell, added_parts, filter_parts, type_word};
pub use rule::RuleWords;
pub use rule_json::{put_added_tag, put_entry_json, put_rule, put_table_entry};
pub use tag::TagWords;
pub use treatment::{AddedTagWords, TreatmentWords};
pub use value::{ValueWords, value_word};
