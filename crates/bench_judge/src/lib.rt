//! The judge of histories: may a right unit have done what this one was seen to do?
//!
//! A history (bench_history) is what one observer saw at an optical network unit: messages, replies, frames that were sent into its
//! ports and how they ended. [`judge`] says that a right unit may have behaved so, or names the first line that no right unit explains,
//! and what the versions that are left to its frame would have done. [`judge_all`] names every such line: it takes back the claim of each
//! deviation and judges what is left. [`follow`] judges too, and gives the frames that were judged, with their least versions.
//!
//! **The definitions** stand in `specs/`: what a history is judged upon (Terms), when one of several frames may have left (Doubt), which
//! events may stand by themselves (Admitted), which histories are explained (Explained), what counts as evidence (Evidence), what is said
//! of a history (Judged), which frames it judged by which versions (Course), and what is taken back behind a deviation (Deviations). A *version* is a number of accepted requests: the
//! entities after them decide what becomes of a frame. What was asked, which replies are right, and from which version to which a frame may
//! leave is defined by bench_answers.
//!
//! **The way.** The events are walked once, from front to back, up to the first that isn't admitted: a wrong reply, a stray where none may
//! leave, or a frame that left as none of those that it may be does (walk, admitting, doubt). A frame is then its window and the places of
//! its events (frame). A sweep goes once through the versions, with one plan that is followed from version to version, and lets
//! the next frame of each port take the least that it may have (sweep, seeing). Where a frame finds none, the sweep says where its queue
//! ended: mostly that is the first line, and two more sweeps show it. Else the line is found by halving, and so is the greatest version
//! that the frame behind it leaves (halving, bounds). No payload is decoded: digits are compared. Where every deviation is looked for, the
//! versions that the frames before one were found to have are known for the next, so that their payloads aren't compared again (known).
#![tactic(auto)]

mod admitting;
mod bounds;
mod counts;
mod course;
mod cut;
mod deviation;
mod deviations;
mod doubt;
mod evidence;
mod fault;
mod fitting;
mod following;
mod frame;
mod halving;
mod judgement;
mod judging;
mod known;
mod laws;
mod reading;
mod runs;
mod scene;
mod seeing;
mod settings;
mod steps;
mod sweep;
mod terms;
mod walk;
mod watch;

pub use course::{Course, JudgedFrame};
pub use deviations::{judge_all, judge_all_pieces};
pub use fault::JudgeFault;
pub use following::{Followed, follow, follow_pieces};
pub use judgement::{
    Answer, Candidate, Counts, Deviation, Deviations, End, Evidence, Explanation, Findings,
    Judgement, Leaving, Run, Step, Wrong, WrongFrame, WrongOneOf, WrongReply,
};
pub use judging::{judge, judge_pieces, judge_watched};
pub use laws::{law_of_fronts, law_of_least_versions};
pub use settings::JudgeSettings;
pub use watch::{Nobody, Stage, Watch};
