//! Scripts in a room that a C program has for them: made of words, decoded, what their messages leave, what they change of every frame, and
//! whether that is as is expected.
//!
//! The texts are those that the commands `encode`, `decode --json`, `mib --json`, `lint --json`, `rules --json`, `cover --json`, `diff --json`,
//! `hitless --json` and `expect --json` write. Each call says how many bytes its text has. A room that is too small for them stays as it is, and the number says
//! so.
#![tactic(auto)]

mod comparing;
mod decoding;
mod encoding;
mod expecting;
mod looking;
mod making;

pub use comparing::{Moments, Sides, differences_into, hitless_into, moments_into};
pub use decoding::decode_into;
pub use encoding::encode_into;
pub use expecting::{Expectations, expect_into, from_line};
pub use looking::{cover_into, frames_of, lint_into, mib_into, rules_into};
