//! The replay of a script: OMCI messages and Ethernet frames, a line each, answered as an optical network unit answers them.
//!
//! **What is written** is defined in `specs/Answers.antt`: the answers to a text, line by line, from an ONU without any instance on.
//! [`replay`] reads the text piece by piece and writes these answers; `specs/Replay.antt` says for each way to end what was read and
//! what is written then.
//!
//! **No answer is held back.** What a read handed over is answered, as far as its lines end, before the next read; so a reader that
//! fails loses no answer.
//!
//! **All memory is taken before the first read**, so a replay that finds none has read and written nothing.
//!
//! **The end** has words and a status of its own, which [`report_replay`] gives.
#![tactic(auto)]

mod answer;
mod fault;
mod frame;
mod lines;
mod pieces;
mod report;
mod script;

pub use fault::ReplayFault;
pub use report::report_replay;
pub use script::replay;
