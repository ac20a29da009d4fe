//! Where the least versions of a port's frames grow.
ghost use Rattle.std.specs.Prelude.{◌≡◌, ◌-◌, [], true, false, IfOk, length, slice_index};
ghost use Rattle.bench_judge.specs.Bounds.{AreSent, AreStepsUnder};

use crate::bounds::version_at;
use crate::frame::Frame;
use crate::judgement::Step;
use forward_plan::PORTS;
use std::alloc::{AllocError, Global};

/// The frames whose versions are greater than those of all ended frames before them at their ports, and than those of so many requests
/// before the first line, in order; none where each frame is judged by itself. Those requests aren't counted.
pub(crate) fn steps(
    alloc: Global,
    frames: &[Frame],
    versions: &[usize],
    unordered: bool,
    base: usize,
) -> Result<Vec<Step>, AllocError>
    requires sent { AreSent frames.now }
    ensures none { unordered ≡ true → IfOk result (λ steps. steps.items ≡ []) }
    ensures steps { unordered ≡ false → IfOk result (λ steps.
        AreStepsUnder frames.now (λ n. slice_index versions.now n - base) (length frames.now) steps.items) }
{
    if unordered {
        return Ok(Vec::new(alloc));
    }
    rises(alloc, frames, versions, base)
}

/// The frames whose versions are greater than those of all ended frames before them at their ports, and than those of so many requests
/// before the first line, in order. Those requests aren't counted.
fn rises(
    alloc: Global,
    frames: &[Frame],
    versions: &[usize],
    base: usize,
) -> Result<Vec<Step>, AllocError>
    requires { AreSent frames.now }
    ensures { IfOk result (λ steps.
        AreStepsUnder frames.now (λ n. slice_index versions.now n - base) (length frames.now) steps.items) }
{
    let mut greatest = vec![in alloc; 0_usize; PORTS]?;
    let mut steps = Vec::new(alloc);
    for number in 0..frames.len() {
        let frame = &frames[number];
        let version = version_at(versions, number).saturating_sub(base);
        let port = usize::from(frame.port);
        if frame.ended.is_some() && version > greatest[port] {
            greatest[port] = version;
            steps.push(Step {
                port: frame.port,
                version,
                frame: number,
                line: frame.sent + 1,
            })?;
        }
    }
    Ok(steps)
}
