//! What is compiled of one mapper: the GEM port of each priority, and the priority of frames without a tag.
ghost use Rattle.std.specs.Prelude.{◌≡◌, ◌<◌, ℕ, Option, Some, slice_get, slice_index};
ghost use Rattle.managed_entity.specs.Shown.{interwork_instance, mapper_instance};
ghost use Rattle.pmapper.specs.Mapper.{unmarked_of, unmarked_priority_of};
ghost use Rattle.mib_state.specs.Entities.{find};
ghost use Rattle.port_plan.specs.Plan.{IsDscp, compiled_route, ctp_behind, dscp_place};

use frame_meaning::{Reason, gem_port_of};
use mib_state::Mib;
use pmapper::{Interwork, Mapper};

/// The number of a GEM interworking termination point or a GEM port network CTP that isn't there: that of the null pointer.
const NOWHERE: u16 = 65535;

/// The route of a priority, and the numbers of the instances that it was read from.
#[derive(Clone, Copy)]
pub(crate) struct Route {
    /// The GEM port, or the reason that there is none.
    pub(crate) to: Result<u16, Reason>,
    /// The GEM interworking termination point that the mapper points to.
    pub(crate) interwork: u16,
    /// The GEM port network CTP that this point points to.
    pub(crate) gem_port: u16,
}

impl Route {
    /// The route of a port without a mapper.
    pub(crate) const NONE: Route = Route {
        to: Err(Reason::NoMapper),
        interwork: NOWHERE,
        gem_port: NOWHERE,
    };
}

/// The GEM interworking termination point that a mapper points to for a priority.
fn pointer(mapper: &Mapper, priority: u8) -> u16
    requires { priority < 8 }
    ensures { result ≡ slice_index mapper.now.interwork_tp_pointers priority }
{
    mapper.interwork_tp_pointers[usize::from(priority)]
}

/// The GEM port network CTP that a GEM interworking termination point points to.
fn ctp_of(point: &Interwork) -> u16
    ensures { (n : ℕ) → result ≡ ctp_behind (Some (interwork_instance n point.now)) }
{
    point.gem_port_pointer
}

/// The GEM port network CTP that the GEM interworking termination point of a number points to.
fn ctp_behind(mib: &Mib, interwork: u16) -> u16
    ensures { result ≡ ctp_behind (find interwork mib.now.entities.interworks) }
{
    match mib.interwork(interwork) {
        Some(point) => ctp_of(point),
        None => NOWHERE,
    }
}

/// The route of the frames of a priority.
fn compiled_route(mib: &Mib, mapper: &Mapper, priority: u8) -> Route
    requires { priority < 8 }
    ensures { (n : ℕ) → result
        ≡ compiled_route mib.now.entities (Some (mapper_instance n mapper.now)) priority }
{
    let interwork = pointer(mapper, priority);
    Route {
        to: gem_port_of(mib, mapper, priority),
        interwork,
        gem_port: ctp_behind(mib, interwork),
    }
}

/// The route of each priority.
pub(crate) fn by_priority(mib: &Mib, mapper: &Mapper) -> [Route; 8]
    ensures { (n priority : ℕ) → priority < 8
        → slice_get result priority
        ≡ Some (compiled_route mib.now.entities (Some (mapper_instance n mapper.now)) priority) }
{
    [
        compiled_route(mib, mapper, 0),
        compiled_route(mib, mapper, 1),
        compiled_route(mib, mapper, 2),
        compiled_route(mib, mapper, 3),
        compiled_route(mib, mapper, 4),
        compiled_route(mib, mapper, 5),
        compiled_route(mib, mapper, 6),
        compiled_route(mib, mapper, 7),
    ]
}

/// The priority of frames without a tag for each DSCP, and behind them that of frames without a DSCP.
pub(crate) fn untagged(mapper: &Mapper) -> [u8; 65]
    ensures value { (dscp : Option ℕ) → IsDscp dscp
        → slice_index result (dscp_place dscp)
        ≡ unmarked_priority_of (unmarked_of mapper.now) dscp }
    ensures bound { (place : ℕ) → slice_index result place < 8 }
{
    let mut untagged = [mapper.default_p_bit_assumption % 8; 65];
    if mapper.unmarked_frame_option == 0 {
        for dscp in 0..64 {
            untagged[usize::from(dscp)] = mapper.dscp_map.get(dscp);
        }
    }
    untagged
}
