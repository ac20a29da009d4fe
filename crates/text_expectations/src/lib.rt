//! What is expected of frames, in words: `257 tags=1 vid=100 -> gem 1024 remove=1 inner(pcp=inner vid=200 tpid=8100)`, a line each.
//!
//! **The words are those of scripts.** A filter and a treatment are said as those of an entry are (`text_rules`), and say more: any TPID, a
//! type and a DSCP by number. Between the filter and the treatment stand an arrow and how the frames end.
//!
//! **All mistakes of a text are told**, by line and column, as those of a script are. A text with one gives no expectation.
#![tactic(auto)]

mod ending;
mod fault;
mod filter;
mod line;
mod reading;
mod treating;

pub use fault::ExpectationsFault;
pub use reading::{ExpectedLine, read_expectations};
