//! What is found.
use omci_msg::Request;

/// By which way requests were found. Each is a file, whose head says when it works.
#[derive(Clone, Copy, Debug, PartialEq, Eq)]
pub enum Way {
    /// All is done in its place.
    InPlace,
    /// Temporary entries stand in for those that move.
    Understudy,
    /// Interworking points and GEM ports are made anew, and a mapper points to them in one Set.
    ChainAside,
    /// A mapper is filled out of force, and put in force in one Set.
    MapperAside,
    /// A table is.
    TableAside,
    /// A mapper is, with its table.
    BothAside,
}

/// What is found.
#[derive(Drop)]
pub enum Found {
    /// A migration, and the way by which it was found.
    Migration(Vec<Request>, Way),
    /// No way. These requests came nearest: they lead to the goal, or near it, and tear frames.
    NoWay(Vec<Request>),
}
