//! Whether a configuration between two others tears no frame.
ghost use Rattle.std.specs.Prelude.{IfOk};
ghost use Rattle.migration_check.specs.Migration.{IsHitlessAt};
ghost use Rattle.migration_check.specs.Telling.{Tells};

use frame_classes::torn;
use mib_state::Mib;
use std::alloc::{AllocError, Global};

/// Whether it tears none that comes in at a port: each leaves as it does by the one before or the one after, or is dropped as it is by one of
/// them. For what reason it is dropped doesn't count. Every list of bytes counts as a frame.
pub(crate) fn is_hitless_at(
    alloc: Global,
    before: &Mib,
    here: &Mib,
    after: &Mib,
    port: u16,
) -> Result<bool, AllocError>
    ensures { IfOk result (λ is. Tells is
        (IsHitlessAt before.now.entities here.now.entities after.now.entities port)) }
{
    let tears = torn(alloc, before, here, after, port, 0)?;
    let found = tears.as_slice();
    Ok(found.is_empty())
}
