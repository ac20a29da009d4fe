//! The findings of a GEM port network CTP (ITU-T G.988, clause 9.2.3).
ghost use Rattle.std.specs.Prelude.{◌≡◌, ◌++◌, ℕ, OnOk, find};
ghost use Rattle.managed_entity.specs.Instance.{attribute_number};
ghost use Rattle.managed_entity.specs.Shown.{gem_port_instance};
ghost use Rattle.explain_findings.specs.Reach.{reached};
ghost use Rattle.explain_findings.specs.Findings.{gem_port_findings, has_port_id, not_upstream, shared_port_id};

use crate::append::{another, append_all, unreached};
use crate::finding::Finding;
use crate::reach::Reach;
use frame_meaning::port_id_of;
use managed_entity::Class;
use mib_state::Mib;
use pmapper::GemPort;
use std::alloc::AllocError;

/// Appends the findings of a GEM port network CTP.
#[tactic(auto, unfolding(crate::specs::Reach::reached))]
pub(crate) fn append_gem_port(
    findings: &mut Vec<Finding>,
    mib: &Mib,
    reach: &Reach,
    number: u16,
    gem: &GemPort,
) -> Result<(), AllocError>
    requires { reach.now ≡ reached mib.now.entities }
    ensures { OnOk result (findings.new.items ≡ findings.old.items
        ++ gem_port_findings mib.now.entities (gem_port_instance number gem.now)) }
{
    let direction = not_upstream(number, gem);
    let shared = shared_port_id(mib, reach, number, gem);
    let reached = unreached(Class::GemPort, number, &reach.gem_ports);
    append_all(findings, &[direction, shared, reached])
}

/// It doesn't carry frames upstream.
#[tactic(auto, unfolding(frame_meaning::specs::Meaning::port_id_of))]
fn not_upstream(number: u16, gem: &GemPort) -> Option<Finding>
    ensures { result ≡ not_upstream (gem_port_instance number gem.now) }
{
    let direction = gem.direction;
    match port_id_of(gem) {
        Ok(_) => None,
        Err(_) => Some(Finding::NotUpstream {
            gem_port: number,
            direction,
        }),
    }
}

/// Another one has its port-ID, before it.
#[tactic(auto, unfolding(crate::specs::Reach::reached))]
fn shared_port_id(mib: &Mib, reach: &Reach, number: u16, gem: &GemPort) -> Option<Finding>
    requires { reach.now ≡ reached mib.now.entities }
    ensures { result ≡ shared_port_id mib.now.entities (gem_port_instance number gem.now) }
{
    let port_id = id_of(gem);
    let first = another(first_of_port_id(mib, &reach.all_gem_ports, port_id), number)?;
    Some(Finding::SharedPortId {
        gem_port: number,
        port_id,
        first,
    })
}

/// The port-ID of a GEM port network CTP.
fn id_of(gem: &GemPort) -> u16
    ensures { (n : ℕ) → result ≡ attribute_number 1 (gem_port_instance n gem.now) }
{
    gem.port_id
}

/// The first of the GEM port network CTPs of these numbers that has a port-ID.
fn first_of_port_id(mib: &Mib, numbers: &[u16], port_id: u16) -> Option<u16>
    ensures { result ≡ find (has_port_id mib.now.entities port_id) numbers.now }
{
    'each: for number in numbers {
        if has_port_id(mib, *number, port_id) {
            return Some(*number);
        }
    }
    None
}

/// Whether the GEM port network CTP of a number has a port-ID.
fn has_port_id(mib: &Mib, number: u16, port_id: u16) -> bool
    ensures { result ≡ has_port_id mib.now.entities port_id number }
{
    match mib.gem_port(number) {
        Some(gem) => id_of(gem) == port_id,
        None => false,
    }
}
