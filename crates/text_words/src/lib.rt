//! The words of a line that somebody wrote by hand, and what is wrong with them.
//!
//! **A line is words.** Blanks part them, `#` begins a remark, and what stands in parentheses belongs to the word that opens them.
//! Each word knows its column, so that a [`Mistake`] can name the place, what was found and what is allowed there.
//!
//! **All mistakes of a text are told.** [`Mistakes`] gathers them, line by line, with the nearest word where one is near.
#![tactic(auto)]

mod choices;
mod digits;
mod mark;
mod mistake;
mod mistakes;
mod near;
mod number;
mod shown;
mod word;
mod words;

pub use choices::Choices;
pub use digits::put_digits;
pub use mark::without_mark;
pub use mistake::{Mistake, Why};
pub use mistakes::Mistakes;
pub use number::{number_at_most, read_number, read_tpid};
pub use shown::Shown;
pub use word::Word;
pub use words::Words;
