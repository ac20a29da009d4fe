//! The command `migrate`: messages that change one configuration into another, so that no frame is treated otherwise than by one of the two.
//!
//! They are looked for by the crate `migration_search`, checked by `migration_check`, and written by `text_migrations`.
#![tactic(auto)]

mod best;
mod migrating;

pub use migrating::migrate;
