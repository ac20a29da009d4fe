//! The numbers of faults, and the settings that a run may have, call by call.
use omci_msg::MsgFault;
use run_settings::RunSettings;
use std::test::Fail;
use tag_view::FrameFault;
use test_fixtures::{compare, holds, same};
use vlan_rule::{RuleFault, TableFault};

#[test]
fn faults_have_their_numbers(rt: HostRuntime) {
    let of_messages = [
        MsgFault::Length(47).code(),
        MsgFault::Destination.code(),
        MsgFault::NotRequest.code(),
        MsgFault::Device(11).code(),
        MsgFault::NotReply.code(),
    ];
    same!(rt; of_messages, [1, 2, 3, 4, 5]);
    same!(rt; (FrameFault::Runt.code(), FrameFault::CutTag.code()), (1, 2));
    let of_entries = [
        RuleFault::Priority.code(),
        RuleFault::Mixed.code(),
        RuleFault::Vid.code(),
        RuleFault::Tpid.code(),
        RuleFault::Ethertype.code(),
        RuleFault::TreatPriority.code(),
        RuleFault::TreatVid.code(),
        RuleFault::TreatTpid.code(),
    ];
    same!(rt; of_entries, [1, 2, 3, 4, 5, 6, 7, 8]);
    let bad = TableFault::Bad(RuleFault::Mixed);
    same!(rt; (bad.code(), TableFault::Full.code()), (1, 2));
}

#[test]
fn a_run_has_1_to_16_lanes_and_1_to_65_536_frames_a_batch(rt: HostRuntime) {
    for (lanes, batch, expected) in [
        (1, 1, true),
        (16, 65_536, true),
        (4, 1_024, true),
        (0, 1_024, false),
        (17, 1_024, false),
        (4, 0, false),
        (4, 65_537, false),
    ] {
        let settings = RunSettings {
            port: 257,
            lanes,
            batch,
            after: false,
        };
        same!(rt; settings.can_run(), expected, "{lanes} lanes, {batch} frames");
        same!(rt; RunSettings::new(257, lanes, batch, false).is_some(), expected);
    }
}

/// What the tests themselves say of a difference.
#[test]
fn what_differs_is_said_with_both(rt: HostRuntime) -> Result<(), Fail> {
    holds!(rt; compare(&"ports", &2u8, &2).is_ok());
    let difference = compare(&"ports", &2u8, &3).expect_err(&rt, "two are not three");
    let text = format!(in rt.alloc(); "{difference:?}")?;
    same!(rt; text.as_str(), "ports: 2, and not 3");
    Ok(())
}
