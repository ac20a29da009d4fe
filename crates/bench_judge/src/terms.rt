//! What a history is judged upon.

use crate::settings::JudgeSettings;
use bench_answers::Basis;
use omci_msg::Request;

/// What a history is judged upon.
#[derive(Clone, Copy)]
pub(crate) struct Terms<'s> {
    pub(crate) settings: JudgeSettings,
    /// The requests that the unit carried out before the first line.
    pub(crate) start: &'s [Request],
}

impl<'s> Terms<'s> {
    ghost use Rattle.std.specs.Prelude.{◌≡◌};
    ghost use Rattle.bench_answers.specs.Ground.{ground_of};
    ghost use Rattle.bench_judge.specs.Terms.{ground_in, terms_of};

    /// The same of messages and replies alone.
    pub(crate) fn basis(&self) -> Basis<'s>
        ensures { ground_of result ≡ ground_in (terms_of self.now) }
    {
        Basis {
            modelled: self.settings.modelled,
            repeats: self.settings.repeats,
            start: self.start,
        }
    }
}
