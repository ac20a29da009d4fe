//! What is expected of the frames that come in at a port: which of them leave, through which GEM port and with which tags, and which are
//! dropped.
//!
//! **An expectation** is a port, a filter, an ending and a treatment. The filter says of which frames it speaks: by the number of tags that
//! the port reads, by fields of the outer and of the inner tag, by the type behind them and by the DSCP. The ending and the treatment say
//! what is to become of them. What both mean for the bytes of a frame is defined in `specs/Expectation.antt`, over the meaning of the
//! managed entities (ITU-T G.988, clause 9).
//!
//! **A filter says more than an entry of a table** (clause 9.3.13): a drop eligible indicator and a TPID of any value, a type as a number,
//! a DSCP, and any number of tags. A condition on a field of a tag, or on a DSCP, admits only frames that have it. A filter admits only
//! frames that the port can read.
//!
//! **An expectation holds** where its filter admits some frame and each admitted frame meets it, it is void where none is admitted, and
//! else a frame fails it (`specs/Check.antt`): three outcomes of all bytes, of which one holds ([`law_of_outcomes`]).
//! [`Expectation::admits`] and [`Expectation::is_met`] decide for one frame. No call takes memory.
#![tactic(auto)]

mod expectation;
mod filter;
mod laws;
mod meeting;
mod wanted;

pub use expectation::Expectation;
pub use filter::{FrameFilter, TagCondition, TypeCondition};
pub use laws::law_of_outcomes;
pub use wanted::{WantedEnding, WantedRetag, WantedTag, WantedTreatment};
