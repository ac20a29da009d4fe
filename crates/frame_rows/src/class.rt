//! The class of a frame.
ghost use Rattle.std.specs.Prelude.{◌≡◌};

use frame_meaning::Reason;

/// What the table of a port uses for a frame (ITU-T G.988, clause 9.3.13).
#[derive(Clone, Copy, Debug, PartialEq, Eq)]
pub enum Use {
    /// Nothing: the frame can't be read.
    Unread,
    /// Nothing: the port has no table in force.
    NoTable,
    /// The entry of this number in the order in which entries are tried, from 0 on.
    Entry(u8),
    /// Nothing: no entry matches the frame.
    NoEntry,
}

/// How a frame ends.
#[derive(Clone, Copy, Debug, PartialEq, Eq)]
pub enum Ending {
    /// It leaves through the GEM port of this port-ID.
    Gem(u16),
    /// It is dropped, for the first reason that is found.
    Dropped(Reason),
}

/// The class of a frame: what the table of its port uses for it, and how it ends.
#[derive(Clone, Copy, Debug, PartialEq, Eq)]
pub struct FrameClass {
    /// What the table uses for it.
    pub used: Use,
    /// How it ends.
    pub ending: Ending,
}

impl Use {
    ghost use Rattle.std.specs.Prelude.{◌≡◌, ◌≤◌, IsTrue};
    ghost use Rattle.frame_rows.specs.Class.{use_fits, use_number};

    /// A number that grows in the order of uses.
    fn number(self) -> u32
        ensures value { result ≡ use_number self }
        ensures bound { result ≤ 258 }
        ensures fits { IsTrue (use_fits self) }
    {
        match self {
            Use::Unread => 0,
            Use::NoTable => 1,
            Use::Entry(number) => 2 + u32::from(number),
            Use::NoEntry => 258,
        }
    }
}

impl Ending {
    ghost use Rattle.std.specs.Prelude.{◌≡◌, ◌<◌, ◌^◌, IsTrue};
    ghost use Rattle.frame_rows.specs.Class.{ending_fits, ending_number};

    /// A number that grows in the order of endings.
    fn number(self) -> u32
        ensures value { result ≡ ending_number self }
        ensures bound { result < 2 ^ 17 }
        ensures fits { IsTrue (ending_fits self) }
    {
        match self {
            Ending::Gem(gem) => u32::from(gem),
            Ending::Dropped(reason) => 0x1_0000 + u32::from(reason.code()),
        }
    }
}

impl FrameClass {
    ghost use Rattle.std.specs.Prelude.{◌≡◌, IsTrue};
    ghost use Rattle.frame_rows.specs.Class.{class_fits, class_number};

    /// A number that grows in the order of classes: by the use, and within a use first GEM ports and then reasons.
    pub fn number(&self) -> u32
        ensures value { result ≡ class_number self.now }
        ensures fits { IsTrue (class_fits self.now) }
    {
        self.used.number() * 0x2_0000 + self.ending.number()
    }
}
