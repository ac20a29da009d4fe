//! The lines of a text, and what a line of a script asks for, which `specs/Line.antt` defines. No call takes memory: what a line
//! spells is put into a buffer of the caller.
#![tactic(auto)]

pub mod line;
mod number;
pub mod reading;
mod text;

pub use line::{Line, Parts};
pub use number::{read_decimal, read_port};
pub use reading::{
    LINE_LIMIT, MOST_SPELLED, Numbered, read_bytes, read_line, read_numbered, split_line,
};
pub use text::first_line;
