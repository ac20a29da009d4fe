//! What is attached to each port.
ghost use Rattle.std.specs.Prelude.{◌≡◌, vec_len};
ghost use Rattle.forward_plan.specs.Ports.{port_count};

use crate::attached::Attached;
use crate::naming::Namings;
use std::alloc::{AllocError, Global};

/// How many ports there are: one for each number of 16 bits.
pub const PORTS: usize = 65_536;

/// What is attached to each port, by the port's number.
#[derive(Drop)]
pub(crate) struct Ports {
    pub(crate) attached: Vec<Attached>,
    // What the instances said of it.
    pub(crate) names: Namings,
    // Room for what they say next.
    pub(crate) next: Namings,
    ghost all: { vec_len attached ≡ port_count },
}
