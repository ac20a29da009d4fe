//! The class of one frame, found without those of others, and what is asked of each frame that is listed.
use forward_plan::{Live, Verdict, plain_walk};
use frame_classes::{ClassExample, Ending, FrameClass, Use};
use frame_meaning::{PortTable, input_tpid};
use std::fmt;
use std::process::Abort;
use tag_view::view;
use test_fixtures::{holds, same};
use vlan_rule::{Rule, RuleTable};

/// Whether a rule at a place is tried before another one: by the lesser rank, and in a rank by the lesser place.
fn is_before(rule: &Rule, place: usize, other: &Rule, other_place: usize) -> bool {
    let (rank, other_rank) = (rule.rank.number(), other.rank.number());
    rank < other_rank || (rank == other_rank && place < other_place)
}

/// How many entries of a table are tried before the one at a place.
fn tried_before(rules: &RuleTable, chosen: &Rule, place: usize) -> u8 {
    let mut count = 0u8;
    for earlier in 0..rules.len() {
        if let Some(rule) = rules.rule(earlier) {
            if is_before(rule, earlier, chosen, place) {
                count = count.saturating_add(1);
            }
        }
    }
    count
}

/// What a table uses for frames whose entry stands at this place.
fn use_of_place(rules: &RuleTable, place: Option<usize>) -> Use {
    let Some(place) = place else {
        return Use::NoEntry;
    };
    match rules.rule(place) {
        Some(chosen) => Use::Entry(tried_before(rules, chosen, place)),
        None => Use::NoEntry,
    }
}

/// What the table of a port uses for a frame, by the walk through its entries.
fn use_of(live: &Live, port: u16, bytes: &[u8]) -> Use {
    let table = PortTable::at(live.mib(), port);
    let Ok(frame) = view(bytes, input_tpid(&table)) else {
        return Use::Unread;
    };
    match table {
        None => Use::NoTable,
        Some(table) => {
            let place = table.rules.walk(&frame, table.settings.input_tpid);
            use_of_place(table.rules, place)
        }
    }
}

/// How a frame with this verdict ends.
fn ending_of(verdict: &Verdict) -> Ending {
    match verdict {
        Verdict::Forward { gem, .. } => Ending::Gem(*gem),
        Verdict::Drop(reason) => Ending::Dropped(*reason),
    }
}

/// The class of a frame: its entry by the walk, and its ending as it is forwarded.
pub(crate) fn class_of(live: &Live, port: u16, bytes: &[u8]) -> FrameClass {
    FrameClass {
        used: use_of(live, port, bytes),
        ending: ending_of(&live.forward(port, bytes)),
    }
}

/// A number that grows in the order in which classes are listed: by the use, and within a use GEM ports before reasons.
pub(crate) fn place_of(class: FrameClass) -> u32 {
    let used = match class.used {
        Use::Unread => 0,
        Use::NoTable => 1,
        Use::Entry(number) => 2 + u32::from(number),
        Use::NoEntry => 1000,
    };
    let ending = match class.ending {
        Ending::Gem(gem) => u32::from(gem),
        Ending::Dropped(reason) => 0x1_0000 + u32::from(reason.code()),
    };
    used << 17 | ending
}

/// The classes that are listed for the frames of at least `least` bytes that come in at a port.
#[derive(Clone, Copy)]
pub(crate) struct Listed<'l> {
    /// Which configuration it is, by a name and a number.
    pub(crate) name: &'l str,
    pub(crate) number: usize,
    pub(crate) live: &'l Live,
    pub(crate) port: u16,
    pub(crate) least: usize,
    pub(crate) examples: &'l [ClassExample],
}

impl fmt::Display for Listed<'_> {
    fn fmt<W: fmt::Write>(&self, f: &mut fmt::Formatter<W>) -> fmt::Result {
        write!(
            f,
            "{} {}, port {}, at least {} bytes",
            self.name, self.number, self.port, self.least
        )
    }
}

impl Listed<'_> {
    /// Checks each listed frame, the order of the classes, and the numbers behind what counts of a frame.
    pub(crate) fn check(&self, rt: &impl Abort) {
        let mut before = None;
        let mut number_before = None;
        for example in self.examples {
            self.check_example(rt, example);
            let place = Some(place_of(example.class));
            holds!(rt; before < place, "{}: the place of {:?}", self, example.class);
            before = place;
            let number = example.frame.as_slice().get(24..32);
            holds!(rt; number.is_none() || number != number_before, "{}: the number in {:?}", self, example);
            number_before = number;
        }
    }

    /// Checks that a listed frame is long enough and has the class beside it, also by the walk alone.
    fn check_example(&self, rt: &impl Abort, example: &ClassExample) {
        let frame = example.frame.as_slice();
        let walked = plain_walk(self.live.mib(), self.port, frame);
        let found = (
            class_of(self.live, self.port, frame),
            ending_of(&walked),
            self.least <= frame.len(),
        );
        let wanted = (example.class, example.class.ending, true);
        same!(rt; found, wanted, "{}: the class, the ending and whether it is long enough of {:?}", self, frame);
    }

    /// Whether a class is listed.
    fn has(&self, class: FrameClass) -> bool {
        self.examples.iter().any(|example| example.class == class)
    }

    /// Checks that the class of a frame is listed.
    pub(crate) fn check_class(&self, rt: &impl Abort, frame: &[u8], class: FrameClass) {
        holds!(rt; self.has(class), "{}: that {:?} of {:?} is listed", self, class, frame);
    }

    /// Checks that a frame of 60 bytes or more is shown for exactly the classes that are listed where shorter ones don't count.
    pub(crate) fn check_long(&self, rt: &impl Abort, long: &Listed) {
        for example in self.examples {
            let is_long = 60 <= example.frame.len();
            same!(rt; is_long, long.has(example.class), "{}: that a long frame is shown: {:?}", self, example);
        }
    }
}
