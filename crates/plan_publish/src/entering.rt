//! A reader that enters the copy that is published.
ghost use Rattle.std.specs.Prelude.{◌≡◌, IfOk, Some, MatchResult};
ghost use Rattle.left_right.specs.Sides.{view};
ghost use Rattle.plan_publish.specs.History.{key_of};
ghost use Rattle.plan_publish.specs.Edition.{shows};
ghost use Rattle.plan_publish.specs.Holding.{Holds};

use crate::edition::Edition;
use crate::history::Prefix;
use crate::rule::{Entering, Published, Tests, View};
use left_right::reader::{Reader, Reading};

pub(crate) type PlanReader = Reader<Edition, View, Published>;

pub(crate) type PlanReading = Reading<Edition, View, Published>;

/// Enters, and leaves again where the copy doesn't show what was learnt. It always does: what was learnt was published before,
/// and so before the copy that is entered. But no contract of `left_right` says so.
pub(crate) fn enter_with<J: Tests>(
    reader: PlanReader,
    learnt: &Prefix,
) -> Result<PlanReading, PlanReader>
    requires home { (view reader.place).home ≡ Some (key_of learnt.now.seen.book) }
    requires test { J.passes ≡ (λ e. shows e learnt.now) }
    ensures home { MatchResult result
        (λ r. (view r.place).home ≡ (view reader.place).home)
        (λ r. view r.place ≡ view reader.place) }
    ensures holds { IfOk result (λ r.
        Holds (view reader.place).held learnt.now.seen.log r.part.value.live r.part.value.version
        (view r.place).held) }
{
    let reading = match reader.enter_as::<Entering<J>>() {
        Ok(reading) => reading,
        Err(reader) => return Err(reader),
    };
    if !reading.get().shows(learnt) {
        return Err(reading.leave());
    }
    Ok(reading)
}
