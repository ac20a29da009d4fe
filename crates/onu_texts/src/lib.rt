//! Texts in a room that a C program has for them: the answers to a script, the judgement of a history, and the explanation of a frame.
//!
//! Each call says how many bytes its text has. A room that is too small for them stays as it is, and the number says so.
#![tactic(auto)]

mod explaining;
mod judging;
mod replaying;
mod room;

pub use explaining::explain_into;
pub use judging::{Asked, judge_all_into, judge_into};
pub use replaying::replay_into;
pub use room::put;
