//! A step of an explanation.
use crate::force::TableInForce;
use crate::mismatch::Mismatch;
use crate::outgoing::OutgoingTag;
use crate::priority::PriorityOrigin;
use arrayvec::ArrayVec;
use frame_meaning::Verdict;
use tag_view::FrameView;

/// A step of the explanation of a frame that comes in at a port. Steps come in this order, as far as the frame comes; a port
/// without a table has no `Failed` and no `Used`. Each explanation ends with its one `Verdict`.
#[derive(Drop)]
pub enum Step<'a> {
    /// The table in force at the port.
    Table(TableInForce),
    /// The frame as it is read with the input TPID of that table.
    Read(FrameView<'a>),
    /// An entry that was tried, by its place, and the first field by which it doesn't admit the frame.
    Failed {
        place: usize,
        field: Mismatch,
    },
    /// The entry that is used, by its place.
    Used {
        place: usize,
    },
    /// The tags that the frame leaves with, outermost first, and where each comes from.
    Tags(ArrayVec<OutgoingTag, 4>),
    /// The number of the port's mapper.
    Mapper(u16),
    /// The priority of the frame as it leaves, 0 to 7, and where it comes from.
    Priority {
        priority: u8,
        origin: PriorityOrigin,
    },
    /// The mapper's pointer for that priority, the number of a GEM interworking termination point.
    Pointer(u16),
    /// That GEM interworking termination point, and its pointer to a GEM port network CTP.
    Interwork {
        instance: u16,
        gem_port_pointer: u16,
    },
    /// That GEM port network CTP, its port-ID, and its direction, which is 1: upstream, 2: downstream, 3: both.
    GemPort {
        instance: u16,
        port_id: u16,
        direction: u8,
    },
    /// What becomes of the frame.
    Verdict(Verdict<'a>),
}
