//! The classes of drawn configurations: each listed frame has the class beside it, and the class of each drawn frame is listed.
use crate::drawn_frame::DrawnFrame;
use crate::plainly::{Listed, class_of};
use forward_plan::Live;
use frame_classes::{ClassExample, Ending, FrameClass, Use, classes};
use frame_meaning::{PortTable, input_tpid};
use mib_state::Mib;
use std::alloc::{AllocError, Global};
use std::process::Abort;
use test_draws::{Draws, set};
use test_fixtures::holds;

/// How many configurations are looked at, how many requests come before each, and how many frames are drawn for each.
const CONFIGURATIONS: usize = 2_000;

const REQUESTS: usize = 40;

const FRAMES: usize = 1_000;

/// Input TPIDs, of which some are types of packets too.
const INPUTS: [u16; 9] = [
    0x8100, 0x88a8, 0x9100, 0x0800, 0x0800, 0x86dd, 0x86dd, 0x8863, 0x88b5,
];

/// The ports that the drawn entities speak of, and seldom one of which none speaks.
const PORTS: [u16; 7] = [257, 257, 257, 65535, 65535, 65535, 0];

/// The least lengths that are asked for. Nothing counts behind 24 bytes, and a link carries 60 at least.
const LEASTS: [usize; 12] = [0, 0, 0, 14, 15, 16, 18, 20, 22, 23, 24, 60];

/// An unmarked frame option and a mapping by which a frame that leaves without a tag has priority 1 by each DSCP.
const EACH_DSCP: [u8; 25] = [
    0x00, 0x24, 0x92, 0x49, 0x24, 0x92, 0x49, 0x24, 0x92, 0x49, 0x24, 0x92, 0x49, 0x24, 0x92, 0x49,
    0x24, 0x92, 0x49, 0x24, 0x92, 0x49, 0x24, 0x92, 0x49,
];

/// An entry by which IPv4 packets without a tag are kept.
const IPV4_KEPT: [u8; 16] = [
    0xf8, 0, 0, 0, 0xf8, 0, 0, 0x01, 0, 0x0f, 0, 0, 0, 0x0f, 0, 0,
];

/// What was met, so that the test can't pass by meeting little.
#[derive(Debug, Drop)]
struct Met {
    /// Configurations, before the one that is looked at.
    configurations: usize,
    /// Frames that are dropped for each reason, and in the first place those that leave.
    endings: [usize; 10],
    /// Frames that no entry matches.
    without_entry: usize,
    /// Classes of an entry that are shown by a frame of less than 24 bytes, as no longer one has them.
    short: usize,
    /// Configurations whose table hangs on the mapper, and those whose input TPID is the type of IPv4 or IPv6.
    by_mapper: usize,
    by_type: usize,
}

impl Met {
    /// Counts the table of a port.
    fn count_table(&mut self, mib: &Mib, port: u16) {
        if mib.own_table_of_port(port).is_none() && mib.table_of_port(port).is_some() {
            self.by_mapper = self.by_mapper.saturating_add(1);
        }
        if matches!(input_tpid(&PortTable::at(mib, port)), 0x0800 | 0x86dd) {
            self.by_type = self.by_type.saturating_add(1);
        }
    }

    /// Counts the class of a drawn frame.
    fn count(&mut self, class: FrameClass) {
        let place = match class.ending {
            Ending::Gem(_) => 0,
            Ending::Dropped(reason) => usize::from(reason.code()),
        };
        if let Some(count) = self.endings.get_mut(place) {
            *count = count.saturating_add(1);
        }
        if class.used == Use::NoEntry {
            self.without_entry = self.without_entry.saturating_add(1);
        }
    }

    /// Counts a listed class, where an entry is used and the frame is short.
    fn count_short(&mut self, example: &ClassExample) {
        if matches!(example.class.used, Use::Entry(_)) && example.frame.len() < 24 {
            self.short = self.short.saturating_add(1);
        }
    }

    /// The least of its counts.
    fn least(&self) -> usize {
        let mut least = self
            .without_entry
            .min(self.short)
            .min(self.by_mapper)
            .min(self.by_type);
        for count in &self.endings {
            least = least.min(*count);
        }
        least
    }
}

/// Sets the input TPID of the table of a port, and seldom what tells frames apart that end before their DSCP.
fn change_table(draws: &mut Draws, live: &mut Live, port: u16, table: u16) {
    let input = draws.of(&INPUTS);
    live.apply(&set(171, table, 0x2000, &input.to_be_bytes()));
    if let (0, Some(mapper)) = (draws.under(4), live.mib().mapper_of_port(port)) {
        live.apply(&set(130, mapper, 0x0060, &EACH_DSCP));
        live.apply(&set(171, table, 0x0400, &IPV4_KEPT));
    }
}

/// Carries out requests that are drawn, and Sets of the table of a port.
fn change(draws: &mut Draws, live: &mut Live, port: u16) {
    for _ in 0..REQUESTS {
        live.apply(&draws.request());
    }
    if let Some(table) = live.mib().table_of_port(port) {
        change_table(draws, live, port, table);
    }
}

/// A frame that is drawn, half of them near a listed one.
fn draw_frame(draws: &mut Draws, listed: &Listed) -> DrawnFrame {
    let example = listed.examples.get(draws.under(listed.examples.len()));
    match (draws.under(2), example) {
        (0, Some(example)) => DrawnFrame::near(draws, example.frame.as_slice()),
        _ => DrawnFrame::new(draws),
    }
}

/// Draws frames, and checks that their classes are listed.
fn check_frames(rt: &impl Abort, draws: &mut Draws, listed: &Listed, met: &mut Met) {
    for _ in 0..FRAMES {
        let frame = draw_frame(draws, listed);
        if listed.least <= frame.bytes().len() {
            let class = class_of(listed.live, listed.port, frame.bytes());
            listed.check_class(rt, frame.bytes(), class);
            met.count(class);
        }
    }
}

/// Checks what is listed for a port, and frames that are drawn.
fn check_port(
    rt: &impl Abort,
    alloc: Global,
    draws: &mut Draws,
    live: &Live,
    port: u16,
    met: &mut Met,
) -> Result<(), AllocError> {
    let least = draws.of(&LEASTS);
    let examples = classes(alloc, live.mib(), port, least)?;
    let listed = Listed {
        name: "configuration",
        number: met.configurations,
        live,
        port,
        least,
        examples: examples.as_slice(),
    };
    listed.check(rt);
    met.count_table(live.mib(), port);
    for example in listed.examples {
        met.count_short(example);
    }
    check_frames(rt, draws, &listed, met);
    check_long(rt, alloc, &listed)
}

/// Checks that long frames are shown for the classes that long frames have.
fn check_long(rt: &impl Abort, alloc: Global, listed: &Listed) -> Result<(), AllocError> {
    let examples = classes(alloc, listed.live.mib(), listed.port, 60)?;
    let long = Listed {
        name: "long frames of configuration",
        number: listed.number,
        live: listed.live,
        port: listed.port,
        least: 60,
        examples: examples.as_slice(),
    };
    long.check(rt);
    listed.check_long(rt, &long);
    Ok(())
}

/// Draws one configuration after another.
fn check_drawn(rt: &impl Abort, alloc: Global, live: &mut Live) -> Result<(), AllocError> {
    let mut draws = Draws::new();
    let mut met = Met {
        configurations: 0,
        endings: [0; 10],
        without_entry: 0,
        short: 0,
        by_mapper: 0,
        by_type: 0,
    };
    for number in 0..CONFIGURATIONS {
        met.configurations = number;
        let port = draws.of(&PORTS);
        change(&mut draws, live, port);
        check_port(rt, alloc, &mut draws, live, port, &mut met)?;
    }
    holds!(rt; 30 <= met.least(), "{met:?}");
    Ok(())
}

#[test]
fn the_class_of_each_drawn_frame_is_listed(rt: HostRuntime) -> Result<(), AllocError> {
    let mut live = Live::new(rt.alloc())?;
    check_drawn(&rt, rt.alloc(), &mut live)
}
