//! The events of a history.
ghost use Rattle.std.specs.Prelude.{◌≡◌, IfErr, IfOk, Ok};
ghost use Rattle.bench_history.specs.History.{IsWhyUnread, history_of};

use crate::event::Event;
use crate::fault::HistoryFault;
use crate::reading::Reading;
use crate::watch::{Ahead, Nobody, ReadWatch};
use std::alloc::Global;

/// The events of a history, one for each line, in order: that of line L, which are numbered from 1, is at L - 1.
///
/// Lines end as those of a script do: in LF, with one CR before it dropped; the last line needs none. A line is one of these:
///
/// - `o HEX`: a message was sent to the unit;
/// - `r HEX`: a reply was seen;
/// - `f PORT SEEN`: a frame was sent into a port;
/// - `g N GEM SEEN`: frame N left by a GEM port;
/// - `a GEM SEEN N N ..`: a frame left, and is one of these frames, in ascending order: which of them can't be seen, and from here on they
///   are doubtful;
/// - `s GEM SEEN`: a frame left that no open frame can be;
/// - `d N`: frame N is known to have been dropped;
/// - `l N`: frame N was not seen to leave while it was waited for;
/// - `w` or `w N`: the replies seen so far, or the first N of them, are waited for;
/// - `e`: the observation ended;
/// - an empty line, or one that begins with `#`: nothing.
///
/// HEX is an even number of hexadecimal digits of either case, or none. SEEN is HEX, or of a frame that had more bytes HEX with `..`
/// right behind it. PORT is one to five decimal digits, at most 65535; GEM is such a number, or `any` where the GEM port wasn't seen; N
/// is one to ten digits, at most 4,294,967,295. One space separates, and nothing follows. Every other line is bad, and so is one of over
/// 20,000 bytes, the CR among them; an end of a frame (`g`, `d`, `l`) that no line above sent, or that has ended or is doubtful; an `a`
/// line of a frame that no line above sent, or that has ended or is used up, or of one frame alone that isn't doubtful; a wait for more
/// replies than stand above; and behind an `e` each line that says something, a second `e` among them. The frames of an `a` line are
/// used up once as many `a` lines name only frames among them as they are.
///
/// It takes time in proportion to the text, and memory in proportion to the number of its lines and of the frames that `a` lines name.
/// An `a` line takes time for each `a` line above it from the first on that names a frame as late as its own first one: in proportion to
/// how many frames the two name. Lines that name recent frames alone, as those of a recording do, are few.
pub fn read_history<'a>(alloc: Global, text: &'a [u8]) -> Result<Vec<Event<'a>>, HistoryFault>
    ensures events { IfOk result (λ events. history_of text.now ≡ Ok events.items) }
    ensures fault { IfErr result (IsWhyUnread text.now) }
{
    read_history_watched(alloc, text, &mut Nobody)
}

/// Does as [`read_history`] does, and tells meanwhile how far it is.
pub fn read_history_watched<'a, W: ReadWatch>(
    alloc: Global,
    text: &'a [u8],
    watch: &mut W,
) -> Result<Vec<Event<'a>>, HistoryFault>
    ensures events { IfOk result (λ events. history_of text.now ≡ Ok events.items) }
    ensures fault { IfErr result (IsWhyUnread text.now) }
{
    let ahead = Ahead {
        behind: 0,
        of: text.len(),
    };
    let mut reading = Reading::new(alloc);
    reading.read(text, ahead, watch)?;
    let Reading { events, seen: _ } = reading;
    Ok(events)
}
