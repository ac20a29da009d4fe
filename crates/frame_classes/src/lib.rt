//! The classes of the frames that come in at a port: what its table uses for a frame (ITU-T G.988, clause 9.3.13), and how the
//! frame ends. Of every frame, which is any list of bytes: [`classes`] leaves none out, and shows one of each class.
//!
//! A port is a list of rows, and the class of a frame is that of the first row that asks nothing else of its fields: so says the
//! crate `frame_rows`, and nothing here knows what entities mean.
//!
//! **What configurations see otherwise.** [`differences`] and [`torn`] compare two and three configurations of a port, for every
//! frame: of each pair, or three, of classes that some frame has which they see otherwise they show one such frame.
//! [`differences_by_rows`] and [`torn_by_rows`] do so for rows that no managed entities need to mean.
//!
//! **Splitting.** One splitting serves one, two and three configurations side by side. Fields are gone through one by one. A case is
//! the rows of all sides that are left, which are those that ask nothing else of the fields before, and a value for each of these
//! fields. For the next field it looks at values that stand for all others: rows admit them alike, their frames end alike, and have
//! added tags of one priority. Of a type those are the ones that standards name and one more, of a VID those that rows name and as
//! many more as there are sides, or as many for each DSCP; of a length the greatest with the same fields. At the end each side has
//! the first of its rows that is left.
//!
//! **Why nothing is left out.** A frame of which something is told keeps it where one field is set to a value that is looked at. For
//! classes any value does that stands for its own. The bytes that leave are, by one field, lines: each part of a tag is a constant, or
//! the field. Two lists of lines that are the same with two values are the same with all; so of as many values as there are sides
//! one shows the difference. **Why nothing is too much:** each value that is looked at is one that a frame can have, and a frame of the
//! values is written, and has them.
//!
//! **One use.** Where only the frames of one entry are looked for, or of none, rows that no such frame can have are left out before: those that ask for
//! another value of some field than every row of that use does. Where the configuration between sees frames as one of the others does, by each row of that
//! use and each of the other that may still be the first, they aren't split any more.
//!
//! **What it costs.** A case costs its rows, which are bits of a few words. Nothing grows but the list that is given.
#![tactic(auto)]

mod alike;
mod choices;
mod example;
mod found;
mod known;
mod left;
mod listing;
mod meeting;
mod settled;
mod sides;
mod spare;
mod splitting;
mod told;

pub use example::{ClassExample, Difference, Tear};
pub use frame_rows::{Ending, FrameClass, Use};
pub use listing::{classes, differences, differences_by_rows, torn, torn_by, torn_by_rows};
