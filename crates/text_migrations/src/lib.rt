//! Messages that change one configuration into another, written as a script or as JSON, each with what it asks in the words of `encode`.
//!
//! What they do to frames is checked by the crate `migration_check`; this crate writes them.
#![tactic(auto)]

mod migration;
mod parts;
mod saying;

pub use migration::{Migration, write_migration};
