//! What is expected of the frames that come in at a port.
ghost use Rattle.std.specs.Prelude.{◌≡◌, ℕ};
ghost use Rattle.frame_meaning.specs.declared.verdict.Verdict.TheVariants.{Forward as leaves};
ghost use Rattle.frame_meaning.specs.Meaning.{input_tpid_of, meaning, table_at};
ghost use Rattle.tag_view.specs.Frame.{reading_of};
ghost use Rattle.frame_expectation.specs.Expectation.{admits, meets};
ghost use Rattle.frame_expectation.specs.Wanted.{bytes_wanted, leaves_with, settings_by};

use crate::filter::FrameFilter;
use crate::meeting::{are_alike, settings_of};
use crate::wanted::{WantedEnding, WantedTreatment};
use frame_meaning::{OutFrame, PortTable, Verdict, input_tpid, plain_walk};
use mib_state::Mib;
use tag_view::view;

/// What is expected of the frames that come in at a port.
#[derive(Clone, Copy, Debug, PartialEq, Eq)]
pub struct Expectation {
    /// The number of the port.
    pub port: u16,
    /// Of which frames it speaks.
    pub filter: FrameFilter,
    /// How they are to end.
    pub ending: WantedEnding,
    /// With which bytes they are to leave.
    pub treatment: WantedTreatment,
}

impl Expectation {
    /// Whether it speaks of a frame: by the state of these managed entities, the port can read the frame, and it is as the filter asks.
    #[tactic(auto, unfolding(crate::specs::Expectation::admits))]
    pub fn admits(&self, mib: &Mib, bytes: &[u8]) -> bool
        ensures { result ≡ admits mib.now.entities self.now bytes.now }
    {
        let table = PortTable::at(mib, self.port);
        match view(bytes, input_tpid(&table)) {
            Ok(frame) => self.filter.admits(&frame),
            Err(_) => false,
        }
    }

    /// Whether what becomes of a frame, by the state of these managed entities, is as is wanted. It speaks of admitted frames alone: of
    /// others it asks the same.
    #[tactic(auto, unfolding(crate::specs::Expectation::meets))]
    pub fn is_met(&self, mib: &Mib, bytes: &[u8]) -> bool
        ensures { result ≡ meets mib.now.entities self.now bytes.now }
    {
        match plain_walk(mib, self.port, bytes) {
            Verdict::Forward { gem, frame } => {
                self.ending.is_leaving(gem) && self.leaves_so(mib, bytes, &frame)
            }
            Verdict::Drop(reason) => self.ending.is_dropping(reason) && self.treatment.is_any(),
        }
    }

    /// Whether a frame that leaves has the bytes that are wanted.
    fn leaves_so(&self, mib: &Mib, bytes: &[u8], out: &OutFrame<'_>) -> bool
        requires { (gem : ℕ) × (meaning mib.now.entities self.now.port bytes.now ≡ leaves gem out.now) }
        ensures { (gem : ℕ) → result ≡ leaves_with
            (bytes_wanted self.now.treatment (settings_by (table_at mib.now.entities self.now.port)) bytes.now
            (reading_of (input_tpid_of (table_at mib.now.entities self.now.port)) bytes.now))
            (leaves gem out.now) }
    {
        let table = PortTable::at(mib, self.port);
        let Ok(frame) = view(bytes, input_tpid(&table)) else {
            unreachable!()
        };
        match &self.treatment {
            WantedTreatment::Any => true,
            WantedTreatment::Unchanged => are_alike(out.tags(), frame.tags()),
            WantedTreatment::Retag(wanted) => {
                let tags = wanted.tags(&settings_of(&table), &frame);
                are_alike(out.tags(), &tags)
            }
        }
    }
}
