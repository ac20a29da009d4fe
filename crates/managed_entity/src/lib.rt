//! The attributes of managed entities (ITU-T G.988, clause 9), and what Create, Set and Get do to one instance.
//!
//! **Classes are data.** The attributes of a class (their number of bytes, who may write them, their value after Create)
//! are one table, `specs/Class.antt`, and the code's table is proved to be the same. An action is one definition over that
//! table, and a class is a struct with named fields, which says how its attributes are read and written as bytes, and
//! nothing else.
//!
//! **A check, then a change.** `check_set` says why a Set is refused, and changes nothing; `set` makes the change of one
//! that isn't.
#![tactic(auto)]

mod attribute;
mod bytes;
pub mod class;
mod description;
mod entity;
mod gem_port;
mod get;
mod interwork;
mod known;
mod mapper;
mod mask;
mod onu_data;
mod padding;
mod refusal;
mod setting;
mod vlan;
mod write;

pub use attribute::{Access, Attribute};
pub use bytes::{Bytes, byte, one};
pub use class::Class;
pub use description::{AttributeKind, Description, NamedValue};
pub use entity::ManagedEntity;
pub use get::get_contents;
pub use known::{class_name, descriptions_of, layout_of};
pub use mask::{mask_of, names};
pub use padding::padded;
pub use refusal::Refusal;
pub use setting::{check_set, entry_at, set, set_values};
pub use vlan::VlanConfig;
pub use write::create;
