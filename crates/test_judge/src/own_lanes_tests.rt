//! Histories that this product's own lanes make, each port served by one lane, are explained; and not where a lane falls back.
ghost use Rattle.std.specs.Prelude.{◌≡◌};
ghost use Rattle.plan_publish.specs.Lane.{home_of};
ghost use Rattle.plan_publish.specs.Told.{told_home};

use crate::own_history::{History, end, put, send};
use bench_judge::{JudgeSettings, Judgement, judge};
use forward_plan::Live;
use omci_msg::read;
use plan_publish::{Control, Lane, OpenFault, Told, open};
use std::alloc::Global;
use std::process::Abort;
use std::sync::{Mutex, Wait};
use std::test::Fail;
use std::thread::{Threads, join_mut};
use test_draws::{PORT_257, message};
use test_fixtures::same;

/// A frame without a tag.
const UNTAGGED: [u8; 16] = [2, 0, 0, 0, 0, 1, 2, 0, 0, 0, 0, 2, 8, 0, 0x45, 0];

/// What makes port 258 beside port 257, by the same interworking point.
const PORT_258: [&str; 2] = [
    "0005440a00820602010205010501050105010501050105010501010001",
    "0006440a00ab0702020102",
];

/// Frames that each lane forwards in a round.
const FRAMES: u32 = 150;

/// Messages that the control carries out in a round.
const MESSAGES: u8 = 40;

/// Sends a message to the control; the history says so before, and has the reply behind.
fn ask(rt: &impl Wait, history: &Mutex<History>, control: &mut Control, bytes: &[u8; 48])
    ensures { control.new.home ≡ control.old.home }
{
    put(rt, history, "o", bytes);
    if let Ok(Some(reply)) = control.message(bytes) {
        put(rt, history, "r", &reply);
    }
}

/// The same for messages by their digits.
fn ask_all(rt: &impl Wait, history: &Mutex<History>, control: &mut Control, asked: &[&str])
    ensures { control.new.home ≡ control.old.home }
{
    for digits in asked {
        ask(rt, history, control, &message(digits));
    }
}

/// The message of a round that sets the entry of one of two tables for frames without a tag: they get a tag of another VID each time.
fn entry(round: u8, count: u8) -> [u8; 48] {
    let mut bytes = message("0007480a00ab07010400f8000000f8000000000f000000000324");
    bytes[7] = 1 + count % 2;
    bytes[24] = 3 + round % 4;
    bytes[25] = 4 + count % 30 * 8;
    bytes
}

/// Sets one entry after the other, and publishes now and then.
fn set_often<R: Wait>(rt: &R, history: &Mutex<History>, control: &mut Control, round: u8) -> Told
    ensures told { told_home result ≡ control.old.home }
    ensures control { control.new.home ≡ control.old.home }
{
    for count in 0..MESSAGES {
        ask(rt, history, control, &entry(round, count));
        if count % 3 == 0 {
            let _ = control.publish(rt);
        }
    }
    control.publish(rt)
}

/// Forwards a frame by what the lane holds as it enters.
fn forward_one(rt: &impl Wait, alloc: Global, history: &Mutex<History>, lane: &mut Lane, port: u16)
    ensures { home_of lane.new ≡ home_of lane.old }
{
    let number = send(rt, history, port, &UNTAGGED);
    if let Some(held) = lane.enter() {
        let verdict = held.forward(port, &UNTAGGED);
        held.leave();
        end(rt, alloc, history, number, &verdict);
    }
}

/// Forwards frames of a port, one after the other.
fn forward_often(
    rt: &impl Wait,
    alloc: Global,
    history: &Mutex<History>,
    lane: &mut Lane,
    port: u16,
)
    ensures { home_of lane.new ≡ home_of lane.old }
{
    for _ in 0..FRAMES {
        forward_one(rt, alloc, history, lane, port);
    }
}

/// Two lanes forward, a port each, while the control carries messages out; then both learn what is published, and the history waits for
/// it.
fn play_round<R: Wait + Threads + Sync + Alloc<A = Global>>(
    rt: &R,
    history: &Mutex<History>,
    control: &mut Control,
    zero: &mut Lane,
    one: &mut Lane,
    round: u8,
)
    requires zero { home_of zero.old ≡ control.old.home }
    requires one { home_of one.old ≡ control.old.home }
    ensures control { control.new.home ≡ control.old.home }
    ensures zero { home_of zero.new ≡ control.old.home }
    ensures one { home_of one.new ≡ control.old.home }
{
    let alloc = rt.alloc();
    let (_, told) = join_mut(
        rt,
        &mut || -> ((), ())
            ensures zero { home_of zero.exit.now ≡ home_of zero.entry.now }
            ensures one { home_of one.exit.now ≡ home_of one.entry.now }
        {
            join_mut(
                rt,
                &mut || -> ()
                    ensures { home_of zero.exit.now ≡ home_of zero.entry.now }
                { forward_often(rt, alloc, history, zero, 257) },
                &mut || -> ()
                    ensures { home_of one.exit.now ≡ home_of one.entry.now }
                { forward_often(rt, alloc, history, one, 258) },
            )
        },
        &mut || -> Told
            ensures told { told_home result ≡ control.entry.now.home }
            ensures control { control.exit.now.home ≡ control.entry.now.home }
        { set_often(rt, history, control, round) },
    );
    zero.learn(&told);
    one.learn(&told);
    history.lock(rt).wait();
}

/// Makes both ports, and lets three rounds follow; then a frame is forwarded by what the first lane holds.
fn play_rounds<R: Wait + Threads + Sync + Alloc<A = Global>>(
    rt: &R,
    history: &Mutex<History>,
    control: &mut Control,
    mut zero: Lane,
    mut one: Lane,
)
    requires { (home_of zero ≡ control.old.home) × (home_of one ≡ control.old.home) }
{
    ask_all(rt, history, control, &PORT_257);
    ask_all(rt, history, control, &PORT_258);
    play_round(rt, history, control, &mut zero, &mut one, 0);
    play_round(rt, history, control, &mut zero, &mut one, 1);
    play_round(rt, history, control, &mut zero, &mut one, 2);
    forward_one(rt, rt.alloc(), history, &mut zero, 257);
}

/// Opens a control with two lanes, lets them play, and closes it.
fn play<R: Wait + Threads + Sync + Alloc<A = Global>>(
    rt: &R,
    history: &Mutex<History>,
) -> Result<(), OpenFault> {
    let (mut control, mut lanes) = open(rt, rt.alloc(), 2)?;
    if let (Some(one), Some(zero)) = (lanes.pop(), lanes.pop()) {
        play_rounds(rt, history, &mut control, zero, one);
    }
    control.close(rt);
    Ok(())
}

/// A lane forwards a frame of port 257 by an old version: the port as it was made.
fn fall_back(rt: &(impl Wait + Abort), alloc: Global, history: &Mutex<History>) {
    let mut old = Live::new(alloc).expect(rt, "memory");
    for asked in &PORT_257[..4] {
        old.apply(&read(&message(asked)).expect(rt, "a request"));
    }
    let number = send(rt, history, 257, &UNTAGGED);
    end(rt, alloc, history, number, &old.forward(257, &UNTAGGED));
}

/// How a history is judged: whether it passes, and the counts of messages, replies and ended frames where it is explained,
/// and the line of the deviation where it isn't.
fn found(
    rt: &impl Abort,
    alloc: Global,
    text: &[u8],
) -> Result<(bool, usize, usize, usize), usize> {
    let settings = JudgeSettings {
        modelled: false,
        repeats: false,
        unordered: false,
        strays: false,
        padded: false,
    };
    match judge(alloc, &[], text, &settings).expect(rt, "a history") {
        Judgement::Explained(explained) => {
            let passes = explained.passes(false);
            let counts = explained.counts;
            let ended = counts.forwarded.saturating_add(counts.dropped);
            Ok((passes, counts.messages, counts.replies, ended))
        }
        Judgement::Deviates(deviation) => Err(deviation.line),
    }
}

#[test]
fn what_own_lanes_do_is_explained_and_an_old_version_is_not(rt: HostRuntime) -> Result<(), Fail> {
    let history = Mutex::new(History::new(rt.alloc()));
    same!(rt; play(&rt, &history), Ok(()));
    // It passes where it has ended.
    let unfinished = found(&rt, rt.alloc(), &history.lock(&rt).text);
    same!(rt; unfinished, Ok((false, 127, 127, 901)));
    let text = history.lock(&rt).ended(rt.alloc())?;
    same!(rt; found(&rt, rt.alloc(), &text), Ok((true, 127, 127, 901)));
    fall_back(&rt, rt.alloc(), &history);
    let text = history.lock(&rt).ended(rt.alloc())?;
    same!(rt; found(&rt, rt.alloc(), &text), Err(2 * 127 + 2 * 902 + 3));
    Ok(())
}
