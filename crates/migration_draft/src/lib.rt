//! A way between two configurations as far as it is tried: the requests that were taken, and what they lead to.
//!
//! A [`Draft`] takes a request where a unit accepts it and no frame is torn behind it (the crate `migration_check`). Nothing is promised of it: what a search
//! finds by drafts is checked as a whole.
#![tactic(auto)]

mod draft;
mod requests;
mod sides;
mod temporary;
mod ties;
mod watching;

pub use draft::{Draft, MOST_INSTANCES, has, numbers_of};
pub use requests::{
    OUT_OF_FORCE, SET_ROOM, UNATTACHED, create_gem_port, create_interwork, create_mapper,
    create_table, delete, put, set,
};
pub use sides::Sides;
pub use temporary::Temporary;
pub use ties::has_tie;
