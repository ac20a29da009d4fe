//! What drawn configurations see otherwise: each frame that is shown is seen so, and the classes of each drawn frame that is seen so
//! are listed.
use crate::drawn_frame::DrawnFrame;
use crate::pair::Pair;
use crate::three::Three;
use forward_plan::Live;
use frame_classes::{differences, torn};
use frame_meaning::{PortTable, input_tpid};
use std::alloc::{AllocError, Global};
use std::process::Abort;
use test_draws::{Draws, set};
use test_fixtures::holds;

/// How many pairs of configurations each test looks at: four tests go along one trace, each a quarter of it.
const QUARTER: usize = 500;

/// How many threes, from where the second quarter begins. In the others a change by some calls takes seconds.
const THREES: usize = 250;

/// How many requests lie between two configurations that follow each other, and how many steps a configuration is ahead that has little in
/// common with the first.
const REQUESTS: usize = 3;

const FAR: usize = 500;

/// How many frames are drawn for each, and how many more where nothing is listed.
const FRAMES: usize = 1_000;

const MORE_FRAMES: usize = 10_000;

/// Input TPIDs, of which some are types of packets too.
const INPUTS: [u16; 6] = [0x8100, 0x8100, 0x88a8, 0x9100, 0x0800, 0x86dd];

/// The ports that the drawn entities speak of.
const PORTS: [u16; 2] = [257, 65535];

/// The least lengths that are asked for. Nothing counts behind 24 bytes, and a link carries 60 at least.
const LEASTS: [usize; 6] = [0, 0, 0, 14, 22, 60];

/// A configuration that goes along a drawn trace, the same for each.
#[derive(Drop)]
struct Along {
    live: Live,
    draws: Draws,
}

impl Along {
    /// The configuration so many steps behind the start.
    fn new(alloc: Global, steps: usize) -> Result<Along, AllocError> {
        let mut along = Along {
            live: Live::new(alloc)?,
            draws: Draws::new(),
        };
        for _ in 0..steps {
            along.go_on();
        }
        Ok(along)
    }

    /// Goes a step: carries out drawn requests, and seldom a Set of the input TPID of a port's table.
    fn go_on(&mut self) {
        for _ in 0..REQUESTS {
            self.live.apply(&self.draws.request());
        }
        let seldom = self.draws.under(4);
        let (port, input) = (self.draws.of(&PORTS), self.draws.of(&INPUTS));
        if let (0, Some(table)) = (seldom, self.live.mib().table_of_port(port)) {
            self.live
                .apply(&set(171, table, 0x2000, &input.to_be_bytes()));
        }
    }
}

/// How many steps lie before a quarter of the trace.
fn start_of(quarter: usize) -> usize {
    quarter.saturating_mul(QUARTER)
}

/// Draws that are a quarter's own.
fn draws_of(quarter: usize) -> Draws {
    let mut draws = Draws::new();
    for _ in 0..quarter {
        let _ = draws.under(2);
    }
    draws
}

/// A frame of at least so many bytes that is drawn, half of them near one that is shown.
fn draw_frame(draws: &mut Draws, shown: Option<&[u8]>, least: usize) -> DrawnFrame {
    let mut frame = match (draws.under(2), shown) {
        (0, Some(frame)) => DrawnFrame::near(draws, frame),
        _ => DrawnFrame::new(draws),
    };
    frame.lengthen(least);
    frame
}

/// How many frames are drawn where so much is listed.
fn frames_beside(listed: usize) -> usize {
    match listed {
        0 => FRAMES + MORE_FRAMES,
        _ => FRAMES,
    }
}

/// What was met, so that a test can't pass by meeting little.
#[derive(Debug, Drop)]
struct Met {
    /// Lists with and without members.
    with: usize,
    without: usize,
    /// Lists of configurations of which two read tags by different input TPIDs.
    read_otherwise: usize,
    /// Drawn frames by how they are seen otherwise.
    kinds: [usize; 5],
}

impl Met {
    fn new() -> Met {
        Met {
            with: 0,
            without: 0,
            read_otherwise: 0,
            kinds: [0; 5],
        }
    }

    /// Counts a list with so many members.
    fn count_list(&mut self, listed: usize) {
        match listed {
            0 => self.without = self.without.saturating_add(1),
            _ => self.with = self.with.saturating_add(1),
        }
    }

    /// Counts configurations that read tags by different input TPIDs.
    fn count_inputs(&mut self, one: &Live, other: &Live, port: u16) {
        let input = input_tpid(&PortTable::at(one.mib(), port));
        if input != input_tpid(&PortTable::at(other.mib(), port)) {
            self.read_otherwise = self.read_otherwise.saturating_add(1);
        }
    }

    /// Counts a drawn frame, if it is seen otherwise.
    fn count(&mut self, kind: Option<usize>) {
        let Some(kind) = kind else {
            return;
        };
        if let Some(count) = self.kinds.get_mut(kind) {
            *count = count.saturating_add(1);
        }
    }

    /// The least of its counts.
    fn least(&self) -> usize {
        let mut least = self.with.min(self.without).min(self.read_otherwise);
        for count in &self.kinds {
            least = least.min(*count);
        }
        least
    }
}

/// Draws frames, and checks that their classes are listed where they are seen otherwise.
fn check_frames_of_pair(
    rt: &impl Abort,
    alloc: Global,
    draws: &mut Draws,
    pair: &Pair,
    met: &mut Met,
) -> Result<(), AllocError> {
    for _ in 0..frames_beside(pair.list.len()) {
        let shown = pair.list.get(draws.under(pair.list.len()));
        let shown = shown.map(|shown| shown.frame.as_slice());
        let frame = draw_frame(draws, shown, pair.least);
        met.count(pair.check_frame(rt, alloc, frame.bytes())?);
    }
    Ok(())
}

/// Checks what two configurations see otherwise at a drawn port.
fn check_pair(
    rt: &impl Abort,
    alloc: Global,
    draws: &mut Draws,
    one: &Live,
    other: &Live,
    met: &mut Met,
) -> Result<(), AllocError> {
    let (port, least) = (draws.of(&PORTS), draws.of(&LEASTS));
    let list = differences(alloc, one.mib(), other.mib(), port, least)?;
    let pair = Pair {
        one,
        other,
        port,
        least,
        list: list.as_slice(),
    };
    met.count_list(list.len());
    met.count_inputs(one, other, port);
    pair.check_list(rt, alloc)?;
    check_frames_of_pair(rt, alloc, draws, &pair, met)
}

/// Goes along a trace with two configurations, of which the second is ahead, and with a third that is far ahead: each eighth pair is of
/// two that have little in common.
fn check_pairs(
    rt: &impl Abort,
    alloc: Global,
    draws: &mut Draws,
    one: &mut Along,
    next: &mut Along,
    far: &mut Along,
) -> Result<(), AllocError> {
    let mut met = Met::new();
    for number in 0..QUARTER {
        one.go_on();
        next.go_on();
        far.go_on();
        let other = match number % 8 {
            0 => &far.live,
            _ => &next.live,
        };
        check_pair(rt, alloc, draws, &one.live, other, &mut met)?;
    }
    holds!(rt; 10 <= met.least(), "{met:?}");
    Ok(())
}

/// Checks the pairs along a quarter of the trace.
fn check_quarter_of_pairs(
    rt: &impl Abort,
    alloc: Global,
    quarter: usize,
) -> Result<(), AllocError> {
    let start = start_of(quarter);
    let mut one = Along::new(alloc, start)?;
    let mut next = Along::new(alloc, start.saturating_add(1))?;
    let mut far = Along::new(alloc, start.saturating_add(FAR))?;
    let mut draws = draws_of(quarter);
    check_pairs(rt, alloc, &mut draws, &mut one, &mut next, &mut far)
}

#[test]
fn what_pairs_see_otherwise_is_listed_in_the_first_quarter(
    rt: HostRuntime,
) -> Result<(), AllocError> {
    check_quarter_of_pairs(&rt, rt.alloc(), 0)
}

#[test]
fn what_pairs_see_otherwise_is_listed_in_the_second_quarter(
    rt: HostRuntime,
) -> Result<(), AllocError> {
    check_quarter_of_pairs(&rt, rt.alloc(), 1)
}

#[test]
fn what_pairs_see_otherwise_is_listed_in_the_third_quarter(
    rt: HostRuntime,
) -> Result<(), AllocError> {
    check_quarter_of_pairs(&rt, rt.alloc(), 2)
}

#[test]
fn what_pairs_see_otherwise_is_listed_in_the_last_quarter(
    rt: HostRuntime,
) -> Result<(), AllocError> {
    check_quarter_of_pairs(&rt, rt.alloc(), 3)
}

/// Draws frames, and checks that their classes are listed where they are torn.
fn check_frames_of_three(
    rt: &impl Abort,
    alloc: Global,
    draws: &mut Draws,
    three: &Three,
    met: &mut Met,
) -> Result<(), AllocError> {
    for _ in 0..frames_beside(three.list.len()) {
        let shown = three.list.get(draws.under(three.list.len()));
        let shown = shown.map(|shown| shown.frame.as_slice());
        let frame = draw_frame(draws, shown, three.least);
        met.count(three.check_frame(rt, alloc, frame.bytes())?);
    }
    Ok(())
}

/// Checks what is torn at a drawn port by a configuration between two others.
fn check_three(
    rt: &impl Abort,
    alloc: Global,
    draws: &mut Draws,
    before: &Live,
    here: &Live,
    after: &Live,
    met: &mut Met,
) -> Result<(), AllocError> {
    let (port, least) = (draws.of(&PORTS), draws.of(&LEASTS));
    let list = torn(alloc, before.mib(), here.mib(), after.mib(), port, least)?;
    let three = Three {
        before,
        here,
        after,
        port,
        least,
        list: list.as_slice(),
    };
    met.count_list(list.len());
    met.count_inputs(before, here, port);
    three.check_list(rt, alloc)?;
    check_frames_of_three(rt, alloc, draws, &three, met)
}

/// Goes along a trace with three configurations, each a step ahead of the one before.
fn check_threes(
    rt: &impl Abort,
    alloc: Global,
    draws: &mut Draws,
    before: &mut Along,
    here: &mut Along,
    after: &mut Along,
) -> Result<(), AllocError> {
    let mut met = Met::new();
    for _ in 0..THREES {
        before.go_on();
        here.go_on();
        after.go_on();
        let (first, second, third) = (&before.live, &here.live, &after.live);
        check_three(rt, alloc, draws, first, second, third, &mut met)?;
    }
    holds!(rt; 3 <= met.least(), "{met:?}");
    Ok(())
}

/// Checks the threes along the beginning of a quarter of the trace.
fn check_threes_of_quarter(
    rt: &impl Abort,
    alloc: Global,
    quarter: usize,
) -> Result<(), AllocError> {
    let start = start_of(quarter);
    let mut before = Along::new(alloc, start)?;
    let mut here = Along::new(alloc, start.saturating_add(1))?;
    let mut after = Along::new(alloc, start.saturating_add(2))?;
    let mut draws = draws_of(quarter);
    check_threes(rt, alloc, &mut draws, &mut before, &mut here, &mut after)
}

#[test]
fn what_is_torn_is_listed(rt: HostRuntime) -> Result<(), AllocError> {
    check_threes_of_quarter(&rt, rt.alloc(), 1)
}
