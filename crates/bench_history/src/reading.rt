//! Events, read from lines.
ghost use Rattle.std.specs.Prelude.{◌≡◌, [], IfErr, IfOk, IfSome, List, Ok, true};
ghost use Rattle.script_lines.specs.Text.{lines_of};
ghost use Rattle.bench_history.specs.History.{IsWhyStopped, events_from, may_follow, next_of};
ghost use Rattle.bench_history.specs.Seen.{IsSeen};
ghost use Rattle.bench_history.specs.declared.event.Event.{Event};

use crate::event::Event;
use crate::fault::HistoryFault;
use crate::line::read_event;
use crate::seen::Seen;
use crate::watch::{Ahead, ReadWatch, tell};
use script_lines::first_line;
use std::alloc::Global;

/// The events that were read so far.
#[derive(Drop)]
pub(crate) struct Reading<'a> {
    pub(crate) events: Vec<Event<'a>>,
    pub(crate) seen: Seen,
}

/// The event of a line that may stand behind those seen, or None where it has none.
fn next_event<'a>(line: &'a [u8], seen: &Seen) -> Option<Event<'a>>
    ensures next { (before : List Event) → IsSeen before seen.now
        → result ≡ next_of before line.now }
    ensures may { IfSome result (λ event. (before : List Event) → IsSeen before seen.now
        → may_follow before event ≡ true) }
{
    let event = read_event(line)?;
    if !seen.admits(&event) {
        return None;
    }
    Some(event)
}

impl<'a> Reading<'a> {
    /// No event yet.
    pub(crate) fn new(alloc: Global) -> Self
        ensures events { result.events.items ≡ [] }
        ensures seen { IsSeen [] result.seen }
    {
        Reading {
            events: Vec::new(alloc),
            seen: Seen::new(alloc),
        }
    }

    /// Reads the lines of a text that stands behind these events.
    pub(crate) fn read<W: ReadWatch>(
        &mut self,
        text: &'a [u8],
        ahead: Ahead,
        watch: &mut W,
    ) -> Result<(), HistoryFault>
        requires { IsSeen self.old.events.items self.old.seen }
        ensures events { IfOk result (λ _.
            events_from self.old.events.items (lines_of text.now) ≡ Ok self.new.events.items) }
        ensures seen { IfOk result (λ _. IsSeen self.new.events.items self.new.seen) }
        ensures fault { IfErr result
            (IsWhyStopped self.old.events.items (lines_of text.now)) }
    {
        let mut rest = text;
        while !rest.is_empty() {
            tell(watch, self.events.len(), rest.len(), ahead);
            let number = self.events.len() as u64 + 1;
            let (line, behind) = first_line(rest);
            let Some(event) = next_event(line, &self.seen) else {
                return Err(HistoryFault::BadLine(number));
            };
            if self.seen.add(&event).is_err() || self.events.push(event).is_err() {
                return Err(HistoryFault::NoMemory);
            }
            rest = behind;
        }
        Ok(())
    }
}
