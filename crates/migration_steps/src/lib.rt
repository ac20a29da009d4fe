//! The steps of a way between two configurations: what is left to do, each in its place, and what stands in for entries that move.
//!
//! [`finish`] takes of what is left to do, request by request, one behind which nothing is torn; [`find_understudy`] helps where an entry has to move.
#![tactic(auto)]

mod changes;
mod entries;
mod finishing;
mod in_place;
mod keys;
mod least;
mod understudy;

pub use entries::{changed_entries, set_entry};
pub use finishing::{Came, Splitting, finish, force};
pub use least::least_of;
pub use understudy::find_understudy;
