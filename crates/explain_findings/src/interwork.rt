//! The findings of a GEM interworking termination point (ITU-T G.988, clause 9.2.4).
ghost use Rattle.std.specs.Prelude.{◌≡◌, ◌++◌, OnOk};
ghost use Rattle.managed_entity.specs.Shown.{interwork_instance};
ghost use Rattle.explain_findings.specs.Reach.{reached};
ghost use Rattle.explain_findings.specs.Findings.{interwork_findings, missing_gem_port, missing_service_profile};

use crate::append::{append_all, unreached};
use crate::finding::Finding;
use crate::reach::{Reach, pointer_of_point};
use managed_entity::Class;
use mib_state::Mib;
use pmapper::Interwork;
use std::alloc::AllocError;

/// The interworking option of a point whose service profile is an 802.1p mapper.
const OPTION_MAPPER: u8 = 5;

/// Appends the findings of a GEM interworking termination point.
#[tactic(auto, unfolding(crate::specs::Reach::reached))]
pub(crate) fn append_interwork(
    findings: &mut Vec<Finding>,
    mib: &Mib,
    reach: &Reach,
    number: u16,
    point: &Interwork,
) -> Result<(), AllocError>
    requires { reach.now ≡ reached mib.now.entities }
    ensures { OnOk result (findings.new.items ≡ findings.old.items
        ++ interwork_findings mib.now.entities (interwork_instance number point.now)) }
{
    let missing = missing_gem_port(mib, number, point);
    let profile = missing_service_profile(mib, number, point);
    let reached = unreached(Class::Interwork, number, &reach.points);
    append_all(findings, &[missing, profile, reached])
}

/// Its pointer leads to no GEM port network CTP.
fn missing_gem_port(mib: &Mib, number: u16, point: &Interwork) -> Option<Finding>
    ensures { result ≡ missing_gem_port mib.now.entities (interwork_instance number point.now) }
{
    let pointer = pointer_of_point(point);
    match mib.gem_port(pointer) {
        Some(_) => None,
        None => Some(Finding::MissingGemPort {
            interwork: number,
            pointer,
        }),
    }
}

/// Its service profile pointer is that of an 802.1p mapper, and leads to none.
fn missing_service_profile(mib: &Mib, number: u16, point: &Interwork) -> Option<Finding>
    ensures { result
        ≡ missing_service_profile mib.now.entities (interwork_instance number point.now) }
{
    let pointer = point.service_profile_pointer;
    let is_missing = point.interworking_option == OPTION_MAPPER && mib.mapper(pointer).is_none();
    is_missing.then_some(Finding::MissingServiceProfile {
        interwork: number,
        pointer,
    })
}
