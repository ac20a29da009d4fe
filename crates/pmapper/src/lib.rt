//! The managed entities that lead a port's frames to GEM ports: the 802.1p mapper service profile, the GEM interworking
//! termination point and the GEM port network CTP (ITU-T G.988, clauses 9.3.10, 9.2.4 and 9.2.3), each as its attributes.
//! The priority that a mapper has for a frame, and the pointer of that priority, are defined in `specs/Mapper.antt`. No
//! call takes memory.
#![tactic(auto)]

mod gem_port;
mod interwork;
mod mapper;
mod mapping;
mod unmarked;

pub use gem_port::GemPort;
pub use interwork::Interwork;
pub use mapper::Mapper;
pub use mapping::{pointer, priority};
