//! What a unit was asked, and what each of its replies stands for.
//!
//! The messages of a history go through a model, which answers them. `specs/Asked.antt` defines the requests that are carried out, the
//! model's replies and the versions of the entities; `specs/Standing.antt` what each reply of the unit stands for; `specs/Right.antt`
//! which replies are right; and `specs/Windows.antt` which versions are in force for a frame.
//!
//! Without settings the k-th reply answers the k-th request that wants an answer. Three things make it more: repeats, which a unit
//! answers from memory; requests that were carried out before the first event; and wrong replies that are excused, so that a judge can go
//! on behind them. `specs/Plain.antt` says what is left without the three, and a lemma shows that it is the same.
//!
//! [`Answers`] follows a history from event to event. It takes time in proportion to the messages and replies; a reply to a repeat, and
//! one that is excused, once more to the requests that wait.
#![tactic(auto)]

mod answers;
mod asking;
mod awaited;
mod basis;
mod replies;
mod search;
mod standing;

pub use answers::Answers;
pub use awaited::{Awaited, Later};
pub use basis::Basis;
pub use standing::Standing;
