//! Why a frame is dropped.
use tag_view::FrameFault;
use thiserror::Error;

/// Why a frame is dropped, in the order in which the reasons are found.
#[derive(Clone, Copy, Debug, PartialEq, Eq, Error)]
pub enum Reason {
    /// The frame has under 14 bytes, so it ends within its addresses or type.
    #[error("the frame ends within its addresses or type")]
    Runt,
    /// A tag that is to be read isn't followed by a whole type.
    #[error("the frame ends within a tag or before the type behind it")]
    CutTag,
    /// The port's table has no rule for the frame.
    #[error("no rule of the port's table matches the frame")]
    NoRule,
    /// The rule of the port's table for the frame discards it.
    #[error("a rule of the port's table discards the frame")]
    RuleDiscard,
    /// The port has no 802.1p mapper service profile.
    #[error("the port has no mapper")]
    NoMapper,
    /// The mapper has no GEM interworking termination point for the frame's priority.
    #[error("the mapper's pointer for the priority is null")]
    NullPointer,
    /// The GEM interworking termination point that the mapper points to isn't there.
    #[error("the mapper's pointer leads to no interworking termination point")]
    NoInterwork,
    /// The GEM port network CTP that the GEM interworking termination point points to isn't there.
    #[error("the interworking termination point's pointer leads to no GEM port")]
    NoGem,
    /// The GEM port doesn't carry frames upstream.
    #[error("the GEM port doesn't carry frames upstream")]
    Direction,
}

impl Reason {
    ghost use Rattle.std.specs.Prelude.{◌≡◌, MatchOption};
    ghost use Rattle.frame_meaning.specs.Reason.{number_of_reason};
    ghost use Rattle.frame_meaning.specs.declared.reason.Reason.{Reason};

    /// How many reasons there are.
    pub const COUNT: usize = 9;

    /// All reasons, by ascending number from 1.
    pub const ALL: [Reason; Self::COUNT] = [
        Reason::Runt,
        Reason::CutTag,
        Reason::NoRule,
        Reason::RuleDiscard,
        Reason::NoMapper,
        Reason::NullPointer,
        Reason::NoInterwork,
        Reason::NoGem,
        Reason::Direction,
    ];

    /// The reason of a number, or None where no reason has it.
    pub fn of(number: u8) -> Option<Reason>
        ensures { MatchOption result
            ((reason : Reason) → ¬ (number ≡ number_of_reason reason))
            (λ reason. number ≡ number_of_reason reason) }
    {
        let place = usize::from(number).checked_sub(1)?;
        let reason = Self::ALL.get(place)?;
        Some(*reason)
    }

    /// The step of forwarding that finds the reason, in a word (ITU-T G.988, clause 9).
    pub fn step(self) -> &'static str {
        match self {
            Reason::Runt | Reason::CutTag => "frame",
            Reason::NoRule => "entry",
            Reason::RuleDiscard => "treatment",
            Reason::NoMapper => "mapper",
            Reason::NullPointer => "pointer",
            Reason::NoInterwork => "interworking point",
            Reason::NoGem => "GEM port",
            Reason::Direction => "direction",
        }
    }

    /// The number under which the reason is reported.
    pub fn code(self) -> u8
        ensures { result ≡ number_of_reason self }
    {
        match self {
            Reason::Runt => 1,
            Reason::CutTag => 2,
            Reason::NoRule => 3,
            Reason::RuleDiscard => 4,
            Reason::NoMapper => 5,
            Reason::NullPointer => 6,
            Reason::NoInterwork => 7,
            Reason::NoGem => 8,
            Reason::Direction => 9,
        }
    }
}

impl From<FrameFault> for Reason {
    ghost use Rattle.std.specs.Prelude.{◌≡◌};
    ghost use Rattle.frame_meaning.specs.Reason.{reason_of_fault};

    ghost from_gives = { λ fault reason. reason ≡ reason_of_fault fault };

    fn from(fault: FrameFault) -> Reason {
        match fault {
            FrameFault::Runt => Reason::Runt,
            FrameFault::CutTag => Reason::CutTag,
        }
    }
}
