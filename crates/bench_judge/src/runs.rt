//! What versions mean for a frame.
ghost use Rattle.std.specs.Prelude.{◌≡◌, ◌≤◌, ◌+◌, ℕ, IfOk, Decides, length, take};
ghost use Rattle.frame_meaning.specs.Meaning.{meaning};
ghost use Rattle.frame_meaning.specs.declared.verdict.Verdict.{Verdict};
ghost use Rattle.mib_state.specs.After.{after};
ghost use Rattle.bench_judge.specs.Judged.{AreRuns, AreRunsUpTo, AreSameAnswers, IsAnswer, left_bytes};

use crate::judgement::{Answer, Leaving, Run};
use arrayvec::ArrayVec;
use forward_plan::{Live, Verdict};
use omci_msg::Request;
use std::alloc::{AllocError, Global};
use tag_view::Tag;

/// At most four tags.
fn tags_of(tags: &[Tag]) -> ArrayVec<Tag, 4>
    requires { length tags.now ≤ 4 }
    ensures { result.items ≡ tags.now }
{
    let mut kept = ArrayVec::new();
    for tag in tags {
        kept.push(*tag);
    }
    kept
}

/// What becomes of a frame that comes in at a port, without its bytes.
fn answer(live: &Live, port: u16, sent: &[u8]) -> Answer
    ensures { IsAnswer (meaning live.now port sent.now) sent.now result }
{
    match live.forward(port, sent) {
        Verdict::Forward { gem, frame } => Answer::Left(Leaving {
            gem,
            tags: tags_of(frame.tags()),
            rest: frame.rest().len(),
        }),
        Verdict::Drop(reason) => Answer::Dropped(reason),
    }
}

/// A frame as it leaves, of the bytes that were sent.
fn left_bytes(alloc: Global, sent: &[u8], leaving: &Leaving) -> Result<Vec<u8>, AllocError>
    ensures { IfOk result (λ bytes. bytes.items ≡ left_bytes sent.now leaving.now) }
{
    let mut bytes = Vec::new(alloc);
    bytes.extend_from_slice(&sent[..sent.len().min(12)])?;
    for tag in leaving.tags.as_slice() {
        bytes.extend_from_slice(&tag.bytes())?;
    }
    bytes.extend_from_slice(&sent[sent.len() - leaving.rest.min(sent.len())..])?;
    Ok(bytes)
}

/// Whether two answers are the same: the same GEM port and bytes, or the same reason.
fn are_same(alloc: Global, sent: &[u8], one: &Answer, other: &Answer) -> Result<bool, AllocError>
    ensures { IfOk result (λ same. Decides same (AreSameAnswers sent.now one.now other.now)) }
{
    match (one, other) {
        (Answer::Left(one), Answer::Left(other)) => {
            if one.gem != other.gem {
                return Ok(false);
            }
            let one = left_bytes(alloc, sent, one)?;
            let other = left_bytes(alloc, sent, other)?;
            Ok(one.as_slice() == other.as_slice())
        }
        (Answer::Dropped(one), Answer::Dropped(other)) => Ok(one == other),
        _ => Ok(false),
    }
}

/// Adds the answer of a version to those of the versions before: to the last run where it is the same, else as a run of its own.
fn add(
    alloc: Global,
    sent: &[u8],
    runs: &mut Vec<Run>,
    version: usize,
    answer: Answer,
) -> Result<(), AllocError>
    ensures { (verdicts : ℕ → Verdict) (from : ℕ) → from ≤ version
        → AreRunsUpTo verdicts sent.now from version runs.old.items
        → IsAnswer (verdicts version) sent.now answer
        → IfOk result (λ _. AreRunsUpTo verdicts sent.now from (version + 1) runs.new.items) }
{
    let count = runs.len();
    if count > 0 && are_same(alloc, sent, &runs[count - 1].answer, &answer)? {
        runs[count - 1].to = version;
        return Ok(());
    }
    runs.push(Run {
        from: version,
        to: version,
        answer,
    })?;
    Ok(())
}

/// The entities after requests, with their plan.
fn live_after(alloc: Global, requests: &[Request]) -> Result<Live, AllocError>
    ensures { IfOk result (λ live. live ≡ after requests.now) }
{
    let mut live = Live::new(alloc)?;
    for request in requests {
        live.apply(request);
    }
    Ok(live)
}

/// What the versions from one to another mean for a frame that comes in at a port, those that follow each other with the same answer in
/// one run. There is none where the first version is over the second. The first requests, so many, aren't counted.
pub(crate) fn runs(
    alloc: Global,
    requests: &[Request],
    base: usize,
    port: u16,
    sent: &[u8],
    from: usize,
    to: usize,
) -> Result<Vec<Run>, AllocError>
    requires { base + to ≤ length requests.now }
    ensures { IfOk result (λ runs. AreRuns
        (λ v. meaning (after (take (base + v) requests.now)) port sent.now)
        sent.now from to runs.items) }
{
    let mut runs = Vec::new(alloc);
    if from > to {
        return Ok(runs);
    }
    let mut live = live_after(alloc, &requests[..base + from])?;
    add(alloc, sent, &mut runs, from, answer(&live, port, sent))?;
    for version in from..to {
        let next = base + version;
        live.apply(&requests[next]);
        add(
            alloc,
            sent,
            &mut runs,
            version + 1,
            answer(&live, port, sent),
        )?;
    }
    Ok(runs)
}
