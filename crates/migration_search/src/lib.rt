//! A way from one configuration to another on which no frame is torn, looked for.
//!
//! **A guess, then a check.** [`migrate`] guesses requests, and gives those alone that the crate `migration_check` finds to be a migration. So nothing
//! here is promised but that; a search that is wrong finds less.
//!
//! **The ways.** In place and by an understudy (the crate `migration_steps`), and with a chain, a mapper or a table aside (`migration_asides`). Each is a file
//! that says when it works and why it is hitless. A later one is tried where the ones before find nothing. All go on from request to request: of those that are left to do, the next is one after which nothing is torn.
#![tactic(auto)]

mod found;
mod searching;

pub use found::{Found, Way};
pub use searching::migrate;
