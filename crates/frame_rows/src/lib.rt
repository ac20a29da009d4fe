//! What managed entities mean for the frames that come in at a port, as rows that ask something of a frame's fields.
//!
//! The entities are those of ITU-T G.988, clauses 9.3.13, 9.3.10, 9.2.4 and 9.2.3.
//!
//! **Fields.** A frame counts for its class by eleven fields alone: its length, where all from 24 bytes on are one, the types at
//! bytes 12, 16 and 20, and of the words between them the VID (of the last one the same bits, which hold a DSCP), the priority and
//! the drop eligible indicator. A field that a frame is too short for is 0.
//!
//! **Rows.** A port has three rows of frames that can't be read, one for each entry in the order in which entries are tried, and
//! three of frames that no entry matches; without a table three that keep the tags. A row asks something of each field, and says how
//! its frames end: by a reason, or as the mapper says for a priority, which is a number, a tag's, or that of a DSCP by a mapping.
//!
//! **What they mean.** For all bytes the class of a frame, which is what the port's table uses for it and how the frame ends, is
//! that of the first row that asks nothing else of its values (`Mean`).
//!
//! **What leaves.** A row also says how many tags its frames are read with, how these change, and which DSCP gives an added tag its
//! priority. So for all bytes what is seen of a frame, which is the GEM port and the bytes with which it leaves or the reason to drop
//! it, is by that row too (`AreSeen`). The tags with which it leaves are by its values ([`Rows::leaving`]). By two configurations the
//! sights of a frame differ exactly where the endings of its two rows or these tags do ([`law_of_sights`]): where the rows read unlike
//! numbers of tags, the bytes that only one reads as a tag stand for one on the other side.
#![tactic(auto)]

mod ask;
mod class;
mod field;
mod laws;
mod leaving;
mod row;
mod rows;
mod source;

pub use ask::Ask;
pub use class::{Ending, FrameClass, Use};
pub use field::{FIELD_COUNT, Field, LONG, Values};
pub use laws::{law_of_sights, law_of_uses};
pub use row::{Ends, Row};
pub use rows::Rows;
pub use source::{DscpSource, Packet, Source};
