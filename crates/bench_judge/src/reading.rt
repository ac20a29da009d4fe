//! The events of a history, and how far their reading is.
ghost use Rattle.std.specs.Prelude.{◌≡◌, ℕ, IfErr, IfOk, List, Ok};
ghost use Rattle.bench_history.specs.History.{IsWhyUnread, history_of};
ghost use Rattle.bench_judge.specs.Judged.{IsWhyUnjudged};

use crate::fault::JudgeFault;
use crate::watch::{Stage, Watch};
use bench_history::{Event, HistoryFault, Pieces, ReadWatch, read_history_watched};
use std::alloc::Global;

/// Tells of the reading as of a stage.
#[derive(Drop)]
struct Reading<'w, W> {
    watch: &'w mut W,
}

impl<W: Watch> ReadWatch for Reading<'_, W> {
    fn has_read(&mut self, bytes: usize, of: usize) {
        self.watch.reached(Stage::Reading { bytes, of });
    }
}

/// Why a history isn't judged that isn't read.
fn why(fault: HistoryFault) -> JudgeFault
    ensures { (text : List ℕ) → IsWhyUnread text fault → IsWhyUnjudged text result }
{
    match fault {
        HistoryFault::BadLine(number) => JudgeFault::BadLine(number),
        HistoryFault::NoMemory => JudgeFault::NoMemory,
    }
}

/// The events of a history, or why it isn't judged.
pub(crate) fn events_of<'a, W: Watch>(
    alloc: Global,
    history: &'a [u8],
    watch: &mut W,
) -> Result<Vec<Event<'a>>, JudgeFault>
    ensures events { IfOk result (λ events. history_of history.now ≡ Ok events.items) }
    ensures fault { IfErr result (IsWhyUnjudged history.now) }
{
    match read_history_watched(alloc, history, &mut Reading { watch }) {
        Ok(events) => Ok(events),
        Err(fault) => Err(why(fault)),
    }
}

/// The same of a history in pieces.
pub(crate) fn events_in<'a, W: Watch>(
    alloc: Global,
    history: &'a Pieces,
    watch: &mut W,
) -> Result<Vec<Event<'a>>, JudgeFault>
    ensures events { IfOk result (λ events. history_of history.now ≡ Ok events.items) }
    ensures fault { IfErr result (IsWhyUnjudged history.now) }
{
    match history.read_watched(alloc, &mut Reading { watch }) {
        Ok(events) => Ok(events),
        Err(fault) => Err(why(fault)),
    }
}
