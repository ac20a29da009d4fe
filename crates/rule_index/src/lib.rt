//! Which entry of a received frame VLAN tagging operation table is used for a frame (ITU-T G.988,
//! 9.3.13), found without a look at each.
//!
//! **What it is.** An [`Index`] is rebuilt from a table whenever that changes, and `find` answers what a
//! walk over the table answers: of the entries that match a frame, the place of the first of least rank.
//! The index keeps the entries that it is of, and contracts see it as their list, so that `rebuild` makes
//! it equal to the table, and `find` promises of that list what the walk promises of the table.
//!
//! **Masks.** The entries are put in the order of rank and place, and entry number j of that order is bit j
//! of every mask; a mask has 128 bits, and a table at most 128 entries. For each value that a frame can
//! have in a field there is a mask of the entries that admit it. So the entries that match a frame are the
//! "and" of one mask per field that the frame has, and the one that is used is its lowest bit. An entry whose
//! kind doesn't count a field admits every value of it, so that no kind is a case of its own. In the proofs a
//! mask is a function of a test and a list, and all that an index keeps is one equation for each mask. To join
//! masks is to join tests.
//!
//! **Fields.** The number of tags and the Ethertype have one mask for each of three numbers and six classes
//! of types. Priority, TPID and DEI of a tag have one for each of 64 codes; the TPID counts there by whether
//! it is 0x8100 and whether it is the input TPID, which `find` is told, so that an index doesn't depend on
//! it. A VID has a class, which is found in 4,096 bytes: each VID that an entry names has one of its own,
//! and all others share one. There is one mask for each class.
//!
//! **What it costs.** `find` joins one mask and two more for each tag of the frame, and counts zeros, for 3
//! entries as for 128: no turn per entry, and nothing to be searched, sorted or compared. It branches on the
//! number of tags alone, which its caller mostly knows. Groups of entries by VID and priority would need a
//! search for each combination of fields that some entry leaves open. `rebuild` sets some bits for each entry
//! and then joins the masks that `find` needs, whatever table the index was of. An index takes some 20 KB, all
//! of it in `new`.
//!
//! What a caller keeps for each entry can be kept by its number in the order: [`Index::number`] gives that,
//! for a [`Head`], the words of a frame that filters look at. [`Index::follow`] becomes the index of a table
//! as `rebuild` does, and spares what it can: a table that stayed is gone over once, and where one treatment
//! alone differs order and masks stay as well. Where one entry was added or deleted, the rows behind it move by
//! one number, and each mask by one bit. Otherwise order and masks are made anew. It returns what it found
//! ([`Followed`]), and so which of what is kept for each entry stays or moves. A VID whose last entry is deleted
//! keeps its class until the masks are made anew, as they are where an entry names another one and no class is
//! left.
//!
//! Where several entries differ, [`Index::approach`] takes one such step alone, at the first place at which index
//! and table differ, and returns which. A caller takes as many as it holds to be cheaper than all anew: a table is
//! changed by treatments that are set in place, by deletions, and by keys that come at its end, and a step is as dear
//! as the move of each mask by one bit.
#![tactic(auto)]

mod bit;
mod code_masks;
mod entries;
mod followed;
mod head;
mod index;
mod kind_masks;
mod laws;
mod masks;
mod ranking;
mod row;
mod tag_masks;
mod vid_masks;

pub use followed::Followed;
pub use head::Head;
pub use index::Index;
pub use laws::law_of_order;
