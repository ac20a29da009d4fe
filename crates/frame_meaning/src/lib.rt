//! What the managed entities of an optical network unit mean for Ethernet frames upstream: the GEM port by which a frame
//! leaves and the tags that it leaves with, or the first reason to drop it (ITU-T G.988, clause 9).
//!
//! **The meaning** is one definition, `specs/Meaning.antt`: of the managed entities, a port and the bytes of a frame, for
//! every port and all bytes. Every way of forwarding is proved to give it, so it alone says what forwarding is. A frame is
//! read as its port reads it, its port's table says which tags it leaves with, the port's mapper gives it a priority and a
//! GEM interworking termination point, and this leads to a GEM port. The reasons to drop it come in this order, each where
//! it is found.
//!
//! **The plain walk** goes from entity to entity for each frame. It is slow and short, the reference for faster ways.
//!
//! **Frames are lent.** A [`Verdict`] borrows the bytes of the frame, and nothing of the entities. What leaves is an
//! [`OutFrame`]: slices of the frame that came in, with the tags in place between them; it is written only when asked for.
//! Nothing but [`OutFrame::append_to`] takes memory.
#![tactic(auto)]

mod gem_port;
mod out_frame;
mod reason;
mod spelling;
mod table;
mod verdict;
mod walk;

pub use gem_port::{gem_port_of, mapper_at, pointer_of, port_id_of};
pub use out_frame::OutFrame;
pub use reason::Reason;
pub use spelling::NoMemory;
pub use table::{PortTable, input_tpid, settings_of};
pub use verdict::Verdict;
pub use walk::plain_walk;
