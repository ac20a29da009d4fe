//! The frames of a capture, counted, where nothing of what comes of them is written.
ghost use Rattle.std.specs.Prelude.{◌≡◌, ◌<◌, ◌+◌, ◌^◌, [], List, ℕ, IfSome, OnOk};
ghost use Rattle.bench_forward.specs.Counted.{behind_frame, nothing_written, state_of};
ghost use Rattle.bench_forward.specs.OneFrame.{Leaves};
ghost use Rattle.bench_forward.specs.Outcome.{Ends};
ghost use Rattle.bench_forward.specs.Totals.{AreTotals};

use crate::fault::ForwardFault;
use crate::forwarding::Setting;
use crate::totals::Totals;
use bench_capture::{FrameReader, RecordedFrame};
use std::io::Read;

/// Forwards a frame and counts it. Whatever GEM ports have an interface, nothing is written.
#[inline(always)]
fn count_frame(
    setting: &Setting<'_, '_>,
    totals: &mut Totals,
    frame: &RecordedFrame<'_>,
) -> Result<(), ForwardFault>
    ensures leaves { (gems : List ℕ) → Leaves setting.now.mib.now.entities setting.now.port frame.now
        result (state_of gems totals.old) (state_of
        (behind_frame setting.now.mib.now.entities setting.now.port gems (totals.old.frames + 1)
        frame.now) totals.new)
        nothing_written }
    ensures counted { OnOk result (totals.new.frames ≡ totals.old.frames + 1) }
    ensures few { OnOk result (totals.old.frames + 1 < 2 ^ 64) }
{
    if totals.frames() == u64::MAX {
        return Err(ForwardFault::CountFull);
    }
    match setting.plan.outcome(frame.bytes()) {
        Ok((gem, bytes)) => {
            let bytes = bytes as u64;
            if totals.bytes() > u64::MAX - bytes {
                return Err(ForwardFault::CountFull);
            }
            totals.count_leaving(gem, bytes, frame.is_cut());
            Ok(())
        }
        Err(reason) => {
            totals.count_dropped(reason, frame.is_cut());
            Ok(())
        }
    }
}

/// Forwards and counts all frames that a reader has left, from nothing on. The tags that a frame leaves with aren't made.
pub(crate) fn count_all<R: Read>(
    setting: &Setting<'_, '_>,
    totals: &mut Totals,
    frames: &mut FrameReader<R>,
) -> Result<(), ForwardFault>
    requires { AreTotals [] 0 totals.old }
    ensures { IfSome frames.old.left (λ all. Ends setting.now.mib.now.entities setting.now.port all
        result nothing_written totals.new) }
{
    loop {
        match frames.advance() {
            Ok(true) => {}
            Ok(false) => return Ok(()),
            Err(fault) => return Err(ForwardFault::Read(fault)),
        }
        let frame = frames.frame().unwrap();
        if let Err(fault) = count_frame(setting, totals, &frame) {
            return Err(fault);
        }
    }
}
