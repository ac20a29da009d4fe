//! What decides an expectation for all frames, as three lists of rows that ask something of a frame's fields.
//!
//! **A filter is rows.** It becomes one row for each number of tags and each TPID that these may have: a frame that passes one is read
//! with these tags, and is admitted, unless a DSCP is asked for that it hasn't. Then the row ends by the priority of a mapping in which
//! that DSCP alone has another one. A last row, which asks nothing, has all other frames.
//!
//! **A treatment is theirs.** The frames of each row leave with the tags that are wanted, as an entry of a table would change them. A TPID
//! that is named is 0x8100, the output TPID, or that of a tag that the row asks for; if it is none of these, no treatment at the port
//! writes it, and the row ends in a GEM port of its own.
//!
//! **Three lists decide.** The rows of the port stand before, with GEM port 0 in place of each that is wanted and 1 in place of each
//! other; those of the filter stand between, and the row that has no frame stands after. The rows between see a frame otherwise than those
//! after exactly where the filter admits it, and otherwise than those before where the frame doesn't end or leave as is wanted
//! (`specs/Decision.antt`). So what lists the frames that lists of rows see otherwise decides an expectation, of all bytes.
#![tactic(auto)]

mod decision;
mod filter;
mod only;
mod pushing;
mod wanted;

pub use decision::{ExpectationRows, is_failing};
pub use filter::ADMITTED;
