//! The rows of a MIB upload, and the reply to every action (ITU-T G.988, 9.1.3 and annex A).
//!
//! **Rows.** A MIB upload is answered by rows, each with some attributes of one instance. The definition, `specs/Rows.antt`,
//! is a relation: joined, the rows of an instance have each attribute but the table once and in ascending order; none is
//! empty or over 26 bytes; and a row begins only with an attribute that would not have fitted the one before. A law says that
//! there is exactly one such list, and [`Shelf::fill`] is proved to give it.
//!
//! **The shelf.** The rows are those of the moment of the upload. They stand on a [`Shelf`] until the next one, whatever
//! happens to the entities.
//!
//! **The desk.** A [`Desk`] is a MIB with a shelf. `answer` gives the reply to every action: a MIB upload and a MIB upload next
//! by the shelf, every other one, Get next among them, by a step of the MIB. `carry_out` says beside the reply what the request
//! touched and whether it was accepted ([`Carried`]).
//!
//! **Memory.** A shelf has room for the rows of all instances that there may be: 609, by the attributes' numbers of bytes and
//! the instances that each class has room for. That it suffices is proved, so an answer takes no memory.
#![tactic(auto)]

ghost use Rattle.mib_upload.specs.Rows.{RowsOnce, RowsRise};

mod desk;
mod row;
mod shelf;

pub use desk::Desk;
pub use mib_state::Carried;
pub use row::Row;
pub use shelf::Shelf;

/// Entities whose attributes each fit a row have one list of rows, and it is the computed one.
pub fn law_of_rows()
    ensures { RowsOnce }
{}

/// The rows of an upload rise by class, and in a class by instance, whatever was requested before.
pub fn law_of_row_order()
    ensures { RowsRise }
{}
