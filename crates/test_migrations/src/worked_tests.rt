//! Whether worked messages change port 257 without a hit, each answer derived from the rules by hand.
use migration_check::{Aim, Wanted, entities_after, is_migration};
use omci_msg::Request;
use script_trace::{Applied, ScriptFault, apply_script};
use std::alloc::{AllocError, Global};
use std::process::Abort;

/// A GEM port of port-ID 1024, an interworking point, a mapper and a table, with an entry by which frames without a tag get one of VLAN 100.
const PORT: [&str; 5] = [
    "o 0001440a010c040104008001030000000000000000000000000000000000000000000000000000000000002800000000",
    "o 0002440a010a050104010506010000000000000000000000000000000000000000000000000000000000002800000000",
    "o 0003440a0082060101010501050105010501050105010501050101000100000000000000000000000000002800000000",
    "o 0004440a00ab070102010100000000000000000000000000000000000000000000000000000000000000002800000000",
    "o 0005480a00ab07010400f8000000f8000000000f00000000032400000000000000000000000000000000002800000000",
];

/// The deletion of that entry.
const DELETION: &str =
    "o 0006480a00ab07010400f8000000f8000000ffffffffffffffff00000000000000000000000000000000002800000000";

/// The entry by which such frames get a tag of VLAN 200.
const ENTRY_200: &str =
    "o 0007480a00ab07010400f8000000f8000000000f00000000064400000000000000000000000000000000002800000000";

/// A second GEM port, to which nothing leads.
const GEM_PORT: &str =
    "o 0008440a010c040204018001030000000000000000000000000000000000000000000000000000000000002800000000";

/// The requests that were accepted.
fn requests_in(alloc: Global, applied: &Applied) -> Result<Vec<Request>, AllocError> {
    let mut requests = Vec::with_capacity(alloc, applied.accepted.len())?;
    for each in &applied.accepted {
        requests.push(each.request)?;
    }
    Ok(requests)
}

/// The requests of the port, and of a change behind it.
fn requests_of(alloc: Global, change: &[&str]) -> Result<Vec<Request>, ScriptFault> {
    let mut script = String::new(alloc);
    for line in PORT.iter().chain(change) {
        script.push_str(line)?;
        script.push_str("\n")?;
    }
    let applied = apply_script(alloc, script.as_bytes(), None)?;
    Ok(requests_in(alloc, &applied)?)
}

/// Whether a change of the port is a migration to what another leads to.
fn is_way(alloc: Global, change: &[&str], other: &[&str], aim: Aim) -> Result<bool, ScriptFault> {
    let all = requests_of(alloc, change)?;
    let (earlier, requests) = all.split_at(PORT.len().min(all.len()));
    let goal = entities_after(alloc, &requests_of(alloc, other)?)?;
    let wanted = Wanted { goal: &goal, aim };
    Ok(is_migration(alloc, earlier, requests, &wanted)?)
}

#[test]
fn an_entry_that_is_overwritten_tears_nothing(rt: HostRuntime) -> Result<(), ScriptFault> {
    let is = is_way(rt.alloc(), &[ENTRY_200], &[ENTRY_200], Aim::Instances)?;
    assert!(rt; is);
    Ok(())
}

#[test]
fn one_that_is_deleted_and_set_again_does(rt: HostRuntime) -> Result<(), ScriptFault> {
    let is = is_way(
        rt.alloc(),
        &[DELETION, ENTRY_200],
        &[ENTRY_200],
        Aim::Instances,
    )?;
    assert!(rt; !is);
    Ok(())
}

#[test]
fn instances_that_no_frame_meets_may_stay(rt: HostRuntime) -> Result<(), ScriptFault> {
    let is = is_way(
        rt.alloc(),
        &[GEM_PORT, ENTRY_200],
        &[ENTRY_200],
        Aim::Frames,
    )?;
    assert!(rt; is);
    Ok(())
}

#[test]
fn they_may_not_where_instances_count(rt: HostRuntime) -> Result<(), ScriptFault> {
    let is = is_way(
        rt.alloc(),
        &[GEM_PORT, ENTRY_200],
        &[ENTRY_200],
        Aim::Instances,
    )?;
    assert!(rt; !is);
    Ok(())
}
