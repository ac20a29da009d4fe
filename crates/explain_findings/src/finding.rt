//! A finding.
use frame_meaning::Reason;
use managed_entity::Class;

/// A finding about the managed entities. What each claims is `Claims`, in `specs/Claims.antt`.
#[derive(Clone, Copy)]
pub enum Finding {
    /// The mapper points to a port at which another mapper is in force, the one of least number.
    SecondMapper {
        mapper: u16,
        port: u16,
        in_force: u16,
    },
    /// The table points to a port, or to the mapper of a port, at which another table is in force.
    SecondTable {
        table: u16,
        port: u16,
        in_force: u16,
    },
    /// All frames of the port are dropped: each for this reason, or before, as it is read or by the port's table.
    PortDrops {
        port: u16,
        reason: Reason,
    },
    /// All frames of the port are dropped: its mapper has no priority that a GEM port carries. The reasons differ.
    PortCarriesNone {
        port: u16,
    },
    /// The mapper's pointer for the priority is null, so its frames are dropped.
    NullPointer {
        mapper: u16,
        priority: u8,
    },
    /// The mapper's pointer for the priority leads to no GEM interworking termination point, so its frames are dropped.
    MissingInterwork {
        mapper: u16,
        priority: u8,
        pointer: u16,
    },
    /// The mapper's pointer for the priority leads to a GEM interworking termination point, and from there to no GEM port that
    /// carries frames upstream, so its frames are dropped for this reason.
    UncarriedPriority {
        mapper: u16,
        priority: u8,
        reason: Reason,
    },
    /// The table's association type is a mapper, and its pointer leads to none.
    MissingMapper {
        table: u16,
        pointer: u16,
    },
    /// The entry at this place of the table is used for no frame: the one at the other place is tried before it, and admits all
    /// that it admits.
    UnusedEntry {
        table: u16,
        place: usize,
        shadow: usize,
    },
    /// The pointer of the GEM interworking termination point leads to no GEM port network CTP.
    MissingGemPort {
        interwork: u16,
        pointer: u16,
    },
    /// The interworking option of the GEM interworking termination point is an 802.1p mapper, and its service profile pointer leads
    /// to none.
    MissingServiceProfile {
        interwork: u16,
        pointer: u16,
    },
    /// The GEM port network CTP doesn't carry frames upstream: its direction is neither 1 nor 3.
    NotUpstream {
        gem_port: u16,
        direction: u8,
    },
    /// The GEM port network CTP has the port-ID of another one, which comes first among those that have it.
    SharedPortId {
        gem_port: u16,
        port_id: u16,
        first: u16,
    },
    /// No frame of any port comes by the instance.
    Unreached {
        class: Class,
        instance: u16,
    },
}
