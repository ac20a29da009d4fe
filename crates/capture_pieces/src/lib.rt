//! The frames of a capture file that is held in pieces, as several threads read it.
//!
//! **A file in pieces** ([`Pieces`]) is read part by part, each into memory of its own, and then joined: behind its own bytes each piece gets
//! those that follow in the file, as many as the longest record has. So a record that begins in a piece lies in it whole, and each frame is
//! one slice, although the file is nowhere as a whole. Nothing else is copied.
//!
//! **Frames in batches** ([`Batches`]): a walk over the records finds the first fault, and notes where each batch begins. The frames of a
//! batch are listed when they are asked for, by a second look at its records. So no list of all frames is kept.
//!
//! **Cut frames** are counted where they are asked for ([`cut_frames`], and [`Pieces::cut_frames`] of a file in pieces).
//!
//! **What is read** is what `capture` reads of the same file as one slice: the frames, or the first fault (`specs/Joined.antt` says which file
//! pieces hold).
#![tactic(auto)]

mod batches;
mod counting;
mod cutting;
mod header;
mod joining;
mod piece;
mod pieces;
mod records;

pub use batches::Batches;
pub use counting::cut_frames;
pub use piece::OVERLAP;
pub use pieces::Pieces;
