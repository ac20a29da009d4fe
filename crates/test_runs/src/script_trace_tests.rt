//! Scripts carried out as traces.
use script_trace::{Applied, ScriptFault, apply_script, setting_line};
use std::alloc::{AllocError, Global};
use std::test::Fail;
use test_fixtures::{push_message, same};

/// Two Creates of one GEM port around a frame, a message of another device identifier, a remark, a Create of an interworking point, and
/// a bad line.
fn script(alloc: Global) -> Result<String, AllocError> {
    let mut text = String::new(alloc);
    push_message(&mut text, "o ", "0001440a 010c0401 0400 8001 03")?;
    text.push_str("f 257 0800\n")?;
    push_message(&mut text, "o ", "0002440a 010c0401 0400 8001 03")?;
    push_message(&mut text, "o ", "0003440c 010c0402 0401 8001 03")?;
    text.push_str("# a remark\n")?;
    push_message(&mut text, "o ", "0004440a 010a0501 0401 05 0601")?;
    text.push_str("x\n")?;
    Ok(text)
}

/// The lines of the requests that were accepted, of the messages that have a fault, each with the fault's number, and of the requests that
/// were refused, each with its result.
type Told = (Vec<u64>, Vec<(u64, u8)>, Vec<(u64, u8)>);

fn told(alloc: Global, applied: &Applied) -> Result<Told, AllocError> {
    let (mut lines, mut faulty, mut refused) = (Vec::new(alloc), Vec::new(alloc), Vec::new(alloc));
    for accepted in &applied.accepted {
        lines.push(accepted.line)?;
    }
    for message in &applied.faulty {
        faulty.push((message.line, message.fault.code()))?;
    }
    for request in &applied.refused {
        refused.push((request.line, request.result()))?;
    }
    Ok((lines, faulty, refused))
}

#[test]
fn a_script_is_carried_out_up_to_a_line_and_refused_by_its_first_bad_one(
    rt: HostRuntime,
) -> Result<(), Fail> {
    let script = script(rt.alloc())?;
    // The device identifier is fault 4, and an instance that exists result 7.
    for (until, accepted, faulty, refused) in [
        (6, &[1, 6][..], &[(4, 4)][..], &[(3, 7)][..]),
        (2, &[1][..], &[][..], &[][..]),
        (0, &[][..], &[][..], &[][..]),
    ] {
        let applied = apply_script(rt.alloc(), script.as_bytes(), Some(until))?;
        let (lines, faults, refusals) = told(rt.alloc(), &applied)?;
        same!(rt; (lines.as_slice(), faults.as_slice(), refusals.as_slice()), (accepted, faulty, refused));
    }
    for until in [None, Some(7)] {
        let fault = apply_script(rt.alloc(), script.as_bytes(), until).err();
        same!(rt; fault, Some(ScriptFault::BadLine(7)), "{until:?}");
    }
    Ok(())
}

/// Two tables; entries for VLAN 100 in the one and in the other; in the first another for VLAN 100; and in the second one for VLAN 101.
fn table_script(alloc: Global) -> Result<String, AllocError> {
    let mut text = String::new(alloc);
    for message in [
        "0001440a 00ab0701 02 0101",
        "0002440a 00ab0702 02 0102",
        "0003480a 00ab0701 0400 f800000080320000 400f000000080644",
        "0004480a 00ab0702 0400 f800000080320000 400f000000080644",
        "0005480a 00ab0701 0400 f800000080320000 400f000000080964",
        "0006480a 00ab0702 0400 f800000080328000 400f000000080c84",
    ] {
        push_message(&mut text, "o ", message)?;
    }
    Ok(text)
}

#[test]
fn the_line_that_set_an_entry_is_told(rt: HostRuntime) -> Result<(), Fail> {
    let script = table_script(rt.alloc())?;
    let applied = apply_script(rt.alloc(), script.as_bytes(), None)?;
    for (instance, key, line) in [
        (0x0701, 0xf800_0000_8032_0000, Some(5)),
        (0x0702, 0xf800_0000_8032_0000, Some(4)),
        (0x0702, 0xf800_0000_8032_8000, Some(6)),
        (0x0702, 0xf000_0000_f000_0000, Some(2)),
        (0x0703, 0xf000_0000_f000_0000, None),
    ] {
        let told = setting_line(&applied.accepted, instance, key);
        same!(rt; told, line, "{instance:04x} {key:016x}");
    }
    Ok(())
}
