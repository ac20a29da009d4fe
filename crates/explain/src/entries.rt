//! The entries of a table that are tried for a frame.
ghost use Rattle.std.specs.Prelude.{◌≡◌, ◌++◌, OnOk};
ghost use Rattle.explain.specs.Steps.{tries_of};

use crate::mismatch::first_mismatch;
use crate::order::tried_order;
use crate::step::Step;
use frame_meaning::PortTable;
use std::alloc::AllocError;
use tag_view::FrameView;

/// Appends which entries are tried in vain and by which field each fails, and then the one that is used, if there is one.
pub(crate) fn append_tries<'a>(
    steps: &mut Vec<Step<'a>>,
    table: &PortTable,
    frame: &FrameView,
) -> Result<(), AllocError>
    ensures { OnOk result (steps.new.items ≡ steps.old.items ++ tries_of table.now frame.now) }
{
    for place in &tried_order(table.rules) {
        let place = *place;
        let Some(rule) = table.rules.rule(place) else {
            continue;
        };
        let mismatch = first_mismatch(
            rule,
            frame.tags(),
            frame.ethertype(),
            table.settings.input_tpid,
        );
        match mismatch {
            Some(field) => steps.push(Step::Failed { place, field })?,
            None => {
                steps.push(Step::Used { place })?;
                return Ok(());
            }
        }
    }
    Ok(())
}
