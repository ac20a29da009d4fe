//! Where frames end and leave alike by rows of two sides, whatever their values are.
ghost use Rattle.std.specs.Prelude.{◌≡◌, ◌<◌, ℕ, IfSome, slice_index_or, true};
ghost use Rattle.frame_meaning.specs.declared.reason.Reason.TheVariants.{NoMapper};
ghost use Rattle.frame_rows.specs.declared.class.Ending.TheVariants as Ending;
ghost use Rattle.frame_rows.specs.declared.field.Values.{Values};
ghost use Rattle.frame_rows.specs.Row.{ending_of};
ghost use Rattle.frame_classes.specs.Silent.{AreSeenAlike};
ghost use Rattle.frame_classes.specs.Told.{side_by};

use crate::settled::are_retagged_alike;
use frame_rows::{Ending, Ends, Row, Rows, Source};

/// Whether frames end and leave alike by a row of one side and by one of another, whatever the table uses.
pub(crate) fn are_seen_alike(side: &Rows, row: &Row, next: &Rows, beside: &Row) -> bool
    ensures { result ≡ true → AreSeenAlike (side_by side.now) (side_by next.now) row.now beside.now }
{
    (row.tags == beside.tags && are_retagged_alike(&row.retag, &beside.retag))
        && (side.settings == next.settings
            && are_ended_alike(&side.endings, &row.ends, &next.endings, &beside.ends))
}

/// Whether frames end alike by both.
fn are_ended_alike(endings: &[Ending; 8], ends: &Ends, others: &[Ending; 8], beside: &Ends) -> bool
    ensures { result ≡ true → (values : Values) → ending_of endings.now ends.now values ≡ ending_of others.now beside.now values }
{
    match (only_ending(endings, ends), only_ending(others, beside)) {
        (Some(ending), Some(other)) => ending == other,
        _ => ends == beside && endings == others,
    }
}

/// How all frames of a row end, where their priority doesn't count.
fn only_ending(endings: &[Ending; 8], ends: &Ends) -> Option<Ending>
    ensures { IfSome result (λ ending. (values : Values) → ending_of endings.now ends.now values ≡ ending) }
{
    match ends {
        Ends::Dropped(reason) => Some(Ending::Dropped(*reason)),
        Ends::ByPriority(Source::Fixed(priority)) => endings.get(usize::from(*priority)).copied(),
        Ends::ByPriority(Source::FirstTag) => ending_of_all(endings),
        Ends::ByPriority(Source::SecondTag) => ending_of_all(endings),
        Ends::ByPriority(Source::Dscp(source)) => match source.without < 8 {
            true => ending_of_all(endings),
            false => None,
        },
    }
}

/// How frames of each priority end, if all end alike.
fn ending_of_all(endings: &[Ending; 8]) -> Option<Ending>
    ensures { IfSome result (λ ending. (priority : ℕ) → priority < 8
        → slice_index_or endings.now priority (Ending.Dropped NoMapper) ≡ ending) }
{
    let first = endings[0];
    match endings.iter().all(|ending| *ending == first) {
        true => Some(first),
        false => None,
    }
}
