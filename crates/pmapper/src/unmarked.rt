//! Frames without a tag.

/// What gives a frame without a tag its priority (ITU-T G.988, clause 9.3.10, unmarked frame option).
#[derive(Clone, Copy)]
pub(crate) enum UnmarkedFrameOption {
    /// The DSCP of the frame.
    ByDscp,
    /// The default P-bit assumption.
    ByDefault,
}

impl UnmarkedFrameOption {
    ghost use Rattle.std.specs.Prelude.{◌≡◌};
    ghost use Rattle.pmapper.specs.Mapper.{option_of};

    /// The option of its number. Each but 0 is the default one (of those over 1 a choice of this project).
    pub(crate) fn of(number: u8) -> Self
        ensures { result ≡ option_of number }
    {
        match number {
            0 => UnmarkedFrameOption::ByDscp,
            _ => UnmarkedFrameOption::ByDefault,
        }
    }
}
