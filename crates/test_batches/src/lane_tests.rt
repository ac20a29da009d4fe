//! Versions, and what lanes hold.
ghost use Rattle.std.specs.Prelude.{◌≡◌, ◌≤◌, IfSome};
ghost use Rattle.mib_state.specs.After.{after};
ghost use Rattle.frame_meaning.specs.Meaning.{meaning};
ghost use Rattle.plan_publish.specs.Lane.{home_of};
ghost use Rattle.plan_publish.specs.Told.{told_home};

use crate::dialogue::{PORT_257, PUSH_VLAN_100, ask, ask_all, tell};
use forward_plan::{Reason, Verdict};
use omci_msg::MsgFault;
use plan_publish::{
    Control, ControlFault, Held, Lane, OpenFault, Told, law_of_interleavings, open,
};
use std::alloc::Global;
use std::process::Abort;
use std::sync::Wait;
use std::sync::atomic::{AtomicU64, Ordering};
use std::test::Fail;
use std::thread::{Threads, join, yield_now};
use test_draws::{UNTAGGED, message};
use test_fixtures::{holds, same};

/// The tag of VID 100.
const TAG_100: [u8; 4] = [0x81, 0, 0, 0x64];

/// How often a lane looks for another thread's flag.
const TURNS: u32 = 10_000_000;

/// Whether the untagged frame leaves by GEM port 1024 with these tags.
fn leaves_with(held: &Held<'_>, tags: &[[u8; 4]]) -> bool {
    match held.forward(257, &UNTAGGED) {
        Verdict::Forward { gem: 1024, frame } => {
            let same = frame.tags().len() == tags.len()
                && frame
                    .tags()
                    .iter()
                    .zip(tags)
                    .all(|(tag, bytes)| tag.bytes() == *bytes);
            same && frame.addresses() == &UNTAGGED[..12] && frame.rest() == &UNTAGGED[12..]
        }
        _ => false,
    }
}

/// The version that a lane holds as it enters, and whether the untagged frame then leaves with these tags.
fn enter_and_leave(lane: &mut Lane, tags: &[[u8; 4]]) -> Option<(u64, bool)>
    ensures { home_of lane.new ≡ home_of lane.old }
{
    let held = lane.enter()?;
    let seen = (held.version(), leaves_with(&held, tags));
    held.leave();
    Some(seen)
}

/// How often the untagged frame leaves without a tag.
fn forward_often(held: &Held<'_>, times: u32) -> u32 {
    let mut same = 0u32;
    for _ in 0..times {
        if leaves_with(held, &[]) {
            same = same.saturating_add(1);
        }
    }
    same
}

/// Waits until a flag is set, though not for ever.
fn wait_for(flag: &AtomicU64) {
    for _ in 0..TURNS {
        if flag.load(Ordering::SeqCst) == 1 {
            return;
        }
        yield_now();
    }
}

/// Enters, forwards 5,000 frames, waits for the control to publish, and forwards 5,000 more. It gives the version that was held,
/// and how many frames left without a tag.
fn hold_on(lane: &mut Lane, entered: &AtomicU64, published: &AtomicU64) -> Option<(u64, u32)>
    ensures { home_of lane.new ≡ home_of lane.old }
{
    let held = lane.enter()?;
    entered.store(1, Ordering::SeqCst);
    let before = forward_often(&held, 5_000);
    wait_for(published);
    let after = forward_often(&held, 5_000);
    let version = held.version();
    held.leave();
    Some((version, before.saturating_add(after)))
}

/// The same by a lane that comes from another thread and goes back there.
fn hold_on_by_itself(
    mut lane: Lane,
    entered: &AtomicU64,
    published: &AtomicU64,
) -> (Option<(u64, u32)>, Lane)
    ensures { home_of result.1 ≡ home_of lane }
{
    let seen = hold_on(&mut lane, entered, published);
    entered.store(1, Ordering::SeqCst);
    (seen, lane)
}

/// Sets a treatment and publishes it once the lane is in.
fn publish_beside<R: Wait + Abort>(
    rt: &R,
    control: &mut Control,
    entered: &AtomicU64,
    published: &AtomicU64,
) -> Told
    ensures { told_home result ≡ control.old.home }
{
    wait_for(entered);
    ask(rt, control, PUSH_VLAN_100.0, PUSH_VLAN_100.1);
    let told = control.publish(rt);
    published.store(1, Ordering::SeqCst);
    told
}

/// Two lanes learn of port 257 and its entities, and one forwards by them.
fn learn_version_4<R: Wait + Abort>(rt: &R, control: &mut Control, zero: &mut Lane, one: &mut Lane)
    requires { (home_of zero.old ≡ control.old.home) × (home_of one.old ≡ control.old.home) }
    ensures control { control.new.home ≡ control.old.home }
    ensures zero { home_of zero.new ≡ home_of zero.old }
    ensures one { home_of one.new ≡ home_of one.old }
{
    ask_all(rt, control, &PORT_257);
    let first = control.publish(rt);
    same!(rt; first.version(), 4);
    zero.learn(&first);
    one.learn(&first);
    same!(rt; enter_and_leave(zero, &[]), Some((4, true)));
}

/// A lane learns of the tag of VLAN 100, forwards with it, and holds just that.
fn learn_version_5(rt: &impl Abort, told: &Told, lane: &mut Lane)
    requires { home_of lane.old ≡ told_home told.now }
{
    same!(rt; told.version(), 5);
    lane.learn(told);
    same!(rt; enter_and_leave(lane, &[TAG_100]), Some((5, true)));
    holds!(rt; lane.confirm(told));
}

/// A lane that is in keeps its version while another one is published.
fn keep_a_version<R: Wait + Threads + Abort + Sync>(
    rt: &R,
    control: &mut Control,
    mut zero: Lane,
    mut one: Lane,
)
    requires { (home_of zero ≡ control.old.home) × (home_of one ≡ control.old.home) }
{
    learn_version_4(rt, control, &mut zero, &mut one);
    let flags = (AtomicU64::new(0), AtomicU64::new(0));
    let (entered, published) = (&flags.0, &flags.1);
    let ((seen, mut one), second) = join(
        rt,
        move || -> (Option<(u64, u32)>, Lane)
            ensures { home_of result.1 ≡ home_of one }
        { hold_on_by_itself(one, entered, published) },
        || -> Told
            ensures { told_home result ≡ control.entry.now.home }
        { publish_beside(rt, control, entered, published) },
    );
    same!(rt; seen, Some((4, 10_000)));
    learn_version_5(rt, &second, &mut zero);
    learn_version_5(rt, &second, &mut one);
}

/// Sends a message that is refused, one that wants no answer and those that make port 257. A lane that learns nothing sees none.
fn send_past_a_lane<R: Wait + Abort>(rt: &R, control: &mut Control, lane: &mut Lane)
    ensures control { control.new.home ≡ control.old.home }
    ensures lane { home_of lane.new ≡ home_of lane.old }
{
    same!(rt; control.publish(rt).version(), 0);
    same!(rt; first_verdict(lane), Some((0, Some(Reason::NoMapper))));
    let mut extended = message("0001440a010c04010400800103");
    extended[3] = 0x0b;
    same!(rt;
        control.message(&extended),
        Err(ControlFault::Msg(MsgFault::Device(11)))
    );
    tell(rt, control, "0001040a010c04990400800103");
    ask_all(rt, control, &PORT_257);
    same!(rt; first_verdict(lane), Some((0, Some(Reason::NoMapper))));
}

/// What is accepted counts, published or not; a token that is learnt late makes no lane go back.
fn count_versions<R: Wait + Abort>(rt: &R, control: &mut Control, lane: &mut Lane)
    requires { home_of lane.old ≡ control.old.home }
{
    send_past_a_lane(rt, control, lane);
    let older = control.publish(rt);
    same!(rt; older.version(), 5);
    ask(rt, control, PUSH_VLAN_100.0, PUSH_VLAN_100.1);
    let newer = control.publish(rt);
    same!(rt; newer.version(), 6);
    lane.learn(&newer);
    lane.learn(&older);
    same!(rt; enter_and_leave(lane, &[TAG_100]), Some((6, true)));
    same!(rt; lane.confirm(&older), false);
    same!(rt; lane.confirm(&newer), true);
}

/// The version that a lane holds as it enters, and why the untagged frame is dropped, if it is.
fn first_verdict(lane: &mut Lane) -> Option<(u64, Option<Reason>)>
    ensures { home_of lane.new ≡ home_of lane.old }
{
    let held = lane.enter()?;
    let reason = match held.forward(257, &UNTAGGED) {
        Verdict::Drop(reason) => Some(reason),
        Verdict::Forward { gem: _, frame: _ } => None,
    };
    Some((held.version(), reason))
}

/// Of a lane that is dropped while it holds a version, nobody waits any more.
fn drop_what_is_held<R: Wait + Abort>(rt: &R, control: &mut Control, lane: &mut Lane)
    requires { home_of lane.old ≡ control.old.home }
{
    ask_all(rt, control, &PORT_257);
    let told = control.publish(rt);
    lane.learn(&told);
    let left = match lane.enter() {
        Some(held) => held.lane() == 0 && leaves_with(&held, &[]),
        None => false,
    };
    holds!(rt; left);
    same!(rt; control.publish(rt).version(), 4);
    same!(rt; control.publish(rt).version(), 4);
    same!(rt; enter_and_leave(lane, &[]), Some((4, true)));
}

/// The versions that a lane holds one after the other don't fall.
fn hold_twice(lane: &mut Lane) -> Option<(u64, u64)>
    ensures { IfSome result (λ versions. versions.0 ≤ versions.1) }
{
    let held = lane.enter()?;
    let first = held.version();
    held.leave();
    let held = lane.enter()?;
    Some((first, held.version()))
}

/// What becomes of a frame after all that is accepted: the lane learns what is published, and then a version that is the token's
/// is just that.
fn forward_last<'a, R: Wait>(
    rt: &R,
    control: &mut Control,
    lane: &mut Lane,
    bytes: &'a [u8],
) -> Option<Verdict<'a>>
    requires { home_of lane.old ≡ control.old.home }
    ensures { IfSome result (λ verdict. verdict
        ≡ meaning (after control.new.published) 257 bytes.now) }
{
    let told = control.publish(rt);
    lane.learn(&told);
    let held = lane.enter()?;
    if held.version() != told.version() {
        return None;
    }
    Some(held.forward(257, bytes))
}

/// What a caller can rely on.
fn rely<R: Wait + Abort>(rt: &R, control: &mut Control, lane: &mut Lane)
    requires { home_of lane.old ≡ control.old.home }
{
    ask_all(rt, control, &PORT_257);
    same!(rt; control.accepted(), 4);
    let gem = match forward_last(rt, control, lane, &UNTAGGED) {
        Some(Verdict::Forward { gem, frame: _ }) => Some(gem),
        _ => None,
    };
    same!(rt; gem, Some(1024));
    same!(rt; hold_twice(lane), Some((4, 4)));
}

/// What is done with a control and two lanes.
#[derive(Clone, Copy)]
enum Scene {
    KeepAVersion,
    CountVersions,
    DropWhatIsHeld,
    Rely,
}

/// Opens a control with two lanes for a scene, and closes it.
fn play<R: Wait + Threads + Abort + Sync>(
    rt: &R,
    alloc: Global,
    scene: Scene,
) -> Result<(), OpenFault> {
    let (mut control, mut lanes) = open(rt, alloc, 2)?;
    if let (Some(one), Some(mut zero)) = (lanes.pop(), lanes.pop()) {
        match scene {
            Scene::KeepAVersion => keep_a_version(rt, &mut control, zero, one),
            Scene::CountVersions => count_versions(rt, &mut control, &mut zero),
            Scene::DropWhatIsHeld => drop_what_is_held(rt, &mut control, &mut zero),
            Scene::Rely => rely(rt, &mut control, &mut zero),
        }
    }
    control.close(rt);
    Ok(())
}

#[test]
fn a_lane_that_is_in_keeps_its_version(rt: HostRuntime) -> Result<(), Fail> {
    same!(rt; play(&rt, rt.alloc(), Scene::KeepAVersion), Ok(()));
    Ok(())
}

#[test]
fn versions_count_accepted_messages_and_older_tokens_change_nothing(
    rt: HostRuntime,
) -> Result<(), Fail> {
    same!(rt; play(&rt, rt.alloc(), Scene::CountVersions), Ok(()));
    Ok(())
}

#[test]
fn what_is_held_and_dropped_is_left(rt: HostRuntime) -> Result<(), Fail> {
    same!(rt; play(&rt, rt.alloc(), Scene::DropWhatIsHeld), Ok(()));
    Ok(())
}

#[test]
fn a_lane_that_learnt_what_is_published_forwards_by_it(rt: HostRuntime) -> Result<(), Fail> {
    same!(rt; play(&rt, rt.alloc(), Scene::Rely), Ok(()));
    Ok(())
}

/// How many lanes are opened with the numbers from 0.
fn numbered<R: Wait>(rt: &R, alloc: Global, lanes: u16) -> Result<usize, OpenFault> {
    let (control, all) = open(rt, alloc, lanes)?;
    let mut right = 0usize;
    for (k, lane) in all.iter().enumerate() {
        if usize::from(lane.number()) == k {
            right = right.saturating_add(1);
        }
    }
    control.close(rt);
    Ok(right)
}

#[test]
fn there_are_1_to_16_lanes(rt: HostRuntime) -> Result<(), Fail> {
    for lanes in 0..=17u16 {
        let expected = if (1..=16).contains(&lanes) {
            Ok(usize::from(lanes))
        } else {
            Err(OpenFault::Lanes(lanes))
        };
        same!(rt; numbered(&rt, rt.alloc(), lanes), expected, "{lanes} lanes");
    }
    Ok(())
}

#[test]
fn faults_have_their_numbers(rt: HostRuntime) {
    let of_opening = [
        OpenFault::Lanes(17).code(),
        OpenFault::NoMemory.code(),
        OpenFault::Refused.code(),
    ];
    same!(rt; of_opening, [1, 2, 3]);
    let of_messages = (
        ControlFault::Msg(MsgFault::Destination).code(),
        ControlFault::NoMemory.code(),
    );
    same!(rt; of_messages, (1, 2));
    law_of_interleavings();
}
