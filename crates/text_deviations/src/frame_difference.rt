//! What tells the end of a frame that was seen from the model's.
use crate::bytes_difference::BytesDifference;
use crate::shown_frame::{ADDRESSES, ShownFrame};
use crate::tag_difference::{TagsDifference, tags_difference};
use bench_history::{Digits, Extent, SeenGem};
use bench_judge::{Answer, End, Leaving, Run};
use forward_plan::Reason;
use script_lines::MOST_SPELLED;
use std::fmt;

/// How many bytes of a frame are known, and whether there were more.
#[derive(Clone, Copy)]
pub(crate) struct Length {
    known: usize,
    extent: Extent,
}

impl fmt::Display for Length {
    fn fmt<W: fmt::Write>(&self, f: &mut fmt::Formatter<W>) -> fmt::Result {
        let known = self.known;
        match self.extent {
            Extent::Whole => write!(f, "{known}"),
            Extent::Front => write!(f, "over {known}"),
        }
    }
}

/// What tells the end of a frame that was seen from what becomes of it by the model.
#[derive(Clone, Copy)]
pub(crate) enum FrameDifference {
    /// The GEM port.
    Gem { seen: u16, model: u16 },
    Tags(TagsDifference),
    Addresses,
    /// Bytes behind the addresses and the tags.
    Bytes(BytesDifference),
    Length { seen: Length, model: Length },
    /// The model lets it leave by this GEM port.
    Leaves { gem: u16 },
    /// The model drops it.
    Dropped(Reason),
}

impl fmt::Display for FrameDifference {
    fn fmt<W: fmt::Write>(&self, f: &mut fmt::Formatter<W>) -> fmt::Result {
        match self {
            FrameDifference::Gem { seen, model } => {
                let (seen, model) = (*seen, *model);
                write!(f, "GEM port {seen} for {model}")
            }
            FrameDifference::Tags(tags) => tags.fmt(f),
            FrameDifference::Addresses => f.write_str("addresses"),
            FrameDifference::Bytes(bytes) => bytes.fmt(f),
            FrameDifference::Length { seen, model } => write!(f, "length {seen} for {model}"),
            FrameDifference::Leaves { gem } => {
                let gem = *gem;
                write!(f, "it leaves by GEM port {gem}")
            }
            FrameDifference::Dropped(reason) => {
                let number = reason.code();
                write!(f, "dropped for reason {number} ({reason})")
            }
        }
    }
}

/// A frame that was judged: as it was sent, and what its versions mean for it.
#[derive(Clone, Copy)]
pub(crate) struct JudgedFrame<'j, 'a> {
    pub(crate) port: u16,
    pub(crate) sent: &'j Digits<'a>,
    pub(crate) extent: Extent,
    pub(crate) runs: &'j [Run],
}

/// What tells a frame that ended from what becomes of it by a version.
#[derive(Clone, Copy)]
pub(crate) struct Telling {
    pub(crate) version: usize,
    pub(crate) difference: FrameDifference,
}

/// What tells a frame that ended from what becomes of it by the last of its versions by which it leaves; where it leaves by none, from that
/// by the last. None where no version is left to it.
pub(crate) fn frame_difference(judged: &JudgedFrame<'_, '_>, seen: &End<'_>) -> Option<Telling> {
    let run = telling_run(judged.runs)?;
    let difference = match (seen, &run.answer) {
        (End::Left { gem, extent, frame }, Answer::Left(leaving)) => {
            left_difference(judged, *gem, *extent, frame, leaving)?
        }
        (End::Left { .. }, Answer::Dropped(reason)) => FrameDifference::Dropped(*reason),
        (_, Answer::Left(leaving)) => FrameDifference::Leaves { gem: leaving.gem },
        (_, Answer::Dropped(_)) => return None,
    };
    let version = run.to;
    Some(Telling {
        version,
        difference,
    })
}

/// What tells a frame that was seen to leave from the model's.
fn left_difference(
    judged: &JudgedFrame<'_, '_>,
    gem: SeenGem,
    extent: Extent,
    frame: &Digits<'_>,
    leaving: &Leaving,
) -> Option<FrameDifference> {
    let (mut seen, mut sent) = ([0; MOST_SPELLED], [0; MOST_SPELLED]);
    let seen = ShownFrame::seen(frame.read(&mut seen), extent);
    let sent = judged.sent.read(&mut sent);
    let model = ShownFrame::of_model(sent, judged.extent, leaving);
    gem_difference(gem, leaving).or(bytes_difference(&seen, &model))
}

/// The last of the runs by which a frame leaves, else the last.
fn telling_run(runs: &[Run]) -> Option<&Run> {
    let mut found = runs.last();
    for run in runs {
        if matches!(run.answer, Answer::Left(_)) {
            found = Some(run);
        }
    }
    found
}

/// Whether a frame left by another GEM port, where that was seen.
fn gem_difference(gem: SeenGem, leaving: &Leaving) -> Option<FrameDifference> {
    match gem {
        SeenGem::Port(seen) if seen != leaving.gem => Some(FrameDifference::Gem {
            seen,
            model: leaving.gem,
        }),
        _ => None,
    }
}

/// What tells a frame that left from the model's, as far as both are known: tags, addresses, what stands behind them, or the length.
fn bytes_difference(seen: &ShownFrame<'_>, model: &ShownFrame<'_>) -> Option<FrameDifference> {
    if let Some(tags) = tags_difference(seen, model) {
        return Some(FrameDifference::Tags(tags));
    }
    if seen.difference(model, 0, ADDRESSES).is_some() {
        return Some(FrameDifference::Addresses);
    }
    if let Some(bytes) = seen.difference(model, ADDRESSES, model.len()) {
        return Some(FrameDifference::Bytes(bytes));
    }
    if seen.may_be_as_long_as(model) {
        return None;
    }
    Some(FrameDifference::Length {
        seen: length_of(seen),
        model: length_of(model),
    })
}

/// How long a frame is.
fn length_of(frame: &ShownFrame<'_>) -> Length {
    Length {
        known: frame.len(),
        extent: frame.extent,
    }
}
