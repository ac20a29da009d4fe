//! Versions of the managed entities with their plan, from one control to many lanes.
//!
//! **A version** is the entities, with what is compiled of them, after a list of accepted messages: those that were accepted
//! before a publish, all of them and in their order. Its number is how many they are. What is accepted shows in no frame before
//! it is published, and all that one publish adds shows at once.
//!
//! **Who owns what.** [`open`] makes one [`Control`] and 1 to 16 [`Lane`]s. The control, on one thread, answers messages by its
//! desk and keeps each accepted one for the copies; its type keeps that the desk's entities are those after the accepted
//! messages. There are two copies of the entities with their plan, by `left_right`: lanes enter the one that was published
//! last. To publish, the control lets the other one absorb what it lacks, and swaps the two. Absorbing is a step of the
//! entities and needs no memory, so a publish has no refusal. A lane may go to any thread. One that is in is a [`Held`]: it
//! borrows its lane, lends the held version, and leaves when it is dropped.
//!
//! **What waits for what.** A lane waits for nobody: it enters, forwards and leaves in a few steps, without a lock. A message
//! waits for nobody either. [`Control::publish`] waits for lanes, those that still hold the copy from before the last publish;
//! so a lane that holds on for long delays the control, though never another lane. [`Control::close`] waits for all lanes that
//! are in.
//!
//! **What a lane may rely on.** All that it forwards while it is in, it forwards by one version, whatever is published
//! meanwhile. That version never falls: every list that the lane held before is a prefix of its list. A publish gives a token,
//! [`Told`], which any lane may learn. A lane that has learnt it holds only lists of which the token's is a prefix. Where what it
//! then holds has the token's number, it holds just what was published.
//!
//! **Lists in contracts alone.** What is published, held, told and learnt are lists of requests. They are ghost state, and no field
//! stores them: they are prefixes of one history of all accepted requests (`history`), of which a length and the newest request are
//! stored. `specs/Rule.antt` has the rule that holds after each step, whoever takes it. [`law_of_interleavings`] says, over
//! definitions alone, what follows for every order of messages, publishes and lanes' steps.
#![tactic(auto)]

mod control;
mod edition;
mod entering;
mod fault;
mod held;
mod history;
mod lane;
mod law;
mod opening;
mod publisher;
mod rule;
mod told;

pub use control::Control;
pub use fault::{ControlFault, OpenFault};
pub use held::Held;
pub use lane::Lane;
pub use law::law_of_interleavings;
pub use opening::open;
pub use told::Told;
