//! The routes of a mapper (ITU-T G.988, clause 9.3.10), compiled.
ghost use Rattle.std.specs.Prelude.{◌≡◌, ◌==◌, ℕ, ◌<◌, slice_index};
ghost use Rattle.std.specs.List.{list_any};

use crate::mapper_routes::{Route, by_priority, untagged};
use frame_meaning::Reason;
use managed_entity::class::Class;
use mib_state::Mib;
use pmapper::Mapper;

/// The routes of a mapper: where the frames of each priority leave, and which priority frames without a tag have.
#[derive(Drop)]
pub struct Routes {
    // The route of each priority.
    by_priority: [Route; 8],
    // The priority of frames without a tag for each DSCP, and behind them that of frames without a DSCP.
    untagged: [u8; 65],
    // Whether `untagged` depends on the DSCP.
    uses_dscp: bool,
    ghost under_eight: { (place : ℕ) → slice_index untagged place < 8 },
}

impl Routes {
    ghost use Rattle.std.specs.Prelude.{◌≡◌, ◌<◌, ℕ, Option, Some, None, false};
    ghost use Rattle.managed_entity.specs.Instance.{Instance};
    ghost use Rattle.managed_entity.specs.Shown.{mapper_instance};
    ghost use Rattle.mib_state.specs.Entities.{Entities};
    ghost use Rattle.port_plan.specs.Plan.{AreRoutes, DoesNotRead, IsDscp, dscp_place, route_of, untagged_priority};

    /// The routes of a port without a mapper: each frame is dropped for that reason.
    pub fn none() -> Self
        ensures { (e : Entities) → AreRoutes e None result }
    {
        Routes {
            by_priority: [Route::NONE; 8],
            untagged: [0; 65],
            uses_dscp: false,
        }
    }

    /// The routes of a mapper among the entities. This takes no memory.
    pub fn of(mib: &Mib, mapper: &Mapper) -> Self
        ensures { (n : ℕ)
            → AreRoutes mib.now.entities (Some (mapper_instance n mapper.now)) result }
    {
        Routes {
            by_priority: by_priority(mib, mapper),
            untagged: untagged(mapper),
            uses_dscp: mapper.unmarked_frame_option == 0,
        }
    }

    /// Whether a route was read from an instance of a class, so that it is to be compiled again where that instance changes: the
    /// GEM interworking termination point (class 266) that the mapper points to for some priority, or the GEM port network CTP
    /// (class 268) that this point points to, whether they are there or not (ITU-T G.988, clauses 9.3.10, 9.2.4 and 9.2.3). The
    /// mapper itself is no such instance.
    pub fn reads(&self, class: u16, instance: u16) -> bool
        ensures { result ≡ false → DoesNotRead class instance self.now }
    {
        let Some(class) = Class::of(class) else {
            return false;
        };
        match class {
            Class::Interwork => reads_point(&self.by_priority, instance),
            Class::GemPort => reads_ctp(&self.by_priority, instance),
            Class::OnuData | Class::Mapper | Class::Vlan => false,
        }
    }

    /// Whether the priority of frames without a tag depends on their DSCP.
    #[inline(always)]
    pub(crate) fn uses_dscp(&self) -> bool
        ensures { result ≡ self.now.uses_dscp }
    {
        self.uses_dscp
    }

    /// The priority of frames without a tag, by the place of their DSCP: its number, and 64 for none.
    #[inline(always)]
    pub(crate) fn untagged(&self, place: usize) -> u8
        requires { place < 65 }
        ensures value { (e : Entities) (mapper : Option Instance) (dscp : Option ℕ)
            → AreRoutes e mapper self.now → IsDscp dscp → place ≡ dscp_place dscp
            → result ≡ untagged_priority mapper dscp }
        ensures bound { result < 8 }
    {
        self.untagged[place]
    }

    /// The GEM port of the frames of a priority, or the reason that there is none.
    #[inline(always)]
    pub(crate) fn route(&self, priority: u8) -> Result<u16, Reason>
        requires { priority < 8 }
        ensures { (e : Entities) (mapper : Option Instance) → AreRoutes e mapper self.now
            → result ≡ route_of e mapper priority }
    {
        self.by_priority[usize::from(priority)].to
    }
}

/// Whether a route was read from a GEM interworking termination point.
#[inline(always)]
fn reads_point(routes: &[Route; 8], number: u16) -> bool
    ensures { result ≡ list_any (λ route. route.interwork == number) routes.now }
{
    routes.iter().any(|route| route.interwork == number)
}

/// Whether a route was read from a GEM port network CTP.
#[inline(always)]
fn reads_ctp(routes: &[Route; 8], number: u16) -> bool
    ensures { result ≡ list_any (λ route. route.gem_port == number) routes.now }
{
    routes.iter().any(|route| route.gem_port == number)
}
