//! What a unit was asked.
ghost use Rattle.std.specs.Prelude.{◌≡◌, ◌≤◌, length};
ghost use Rattle.std.specs.Str.{bytes_eq};
ghost use Rattle.bench_answers.specs.Kept.{IsRepeatCounted};

use bench_history::Digits;
use bench_reply::{Expected, message_bytes, read_asked};
use mib_upload::Desk;
use omci_msg::{Reply, Request};
use std::alloc::{AllocError, Global};

/// What is kept of a request that wants an answer, beside the reply that it is to get.
#[derive(Clone, Copy)]
pub(crate) struct Due {
    /// The place of the event that sent it.
    pub(crate) sent: usize,
    /// How many requests were accepted up to and with it.
    pub(crate) accepted: usize,
    /// How many repeats of it were sent.
    pub(crate) repeats: usize,
}

/// What is kept of the messages that were sent.
#[derive(Drop)]
pub(crate) struct Asking<'a> {
    /// Whether only what a model determines is compared of replies.
    pub(crate) modelled: bool,
    /// Whether repeats are looked for.
    pub(crate) repeats: bool,
    /// The model that the messages were sent to.
    pub(crate) desk: Desk,
    /// The accepted requests.
    pub(crate) requests: Vec<Request>,
    /// The last message.
    pub(crate) last: Option<Digits<'a>>,
    /// The replies to the requests that want an answer.
    pub(crate) expected: Vec<Expected>,
    /// What else is kept of these requests, by the same numbers.
    pub(crate) due: Vec<Due>,
}

/// Whether two messages have the same bytes.
fn is_same_message(one: &Digits<'_>, other: &Digits<'_>) -> bool
    ensures { length one.now ≤ 48 → result ≡ bytes_eq one.now other.now }
{
    let mut one_buffer = [0; 48];
    let mut other_buffer = [0; 48];
    let Some(one_bytes) = message_bytes(one, &mut one_buffer) else {
        return false;
    };
    let Some(other_bytes) = message_bytes(other, &mut other_buffer) else {
        return false;
    };
    one_bytes == other_bytes
}

/// Counts a repeat of the last request, if it wants an answer. The count stops at its greatest value, which no history has lines for.
fn count_repeat(due: &mut Vec<Due>, request: &Request)
    ensures { IsRepeatCounted request.now.wants_answer due.old.items due.new.items }
{
    if !request.wants_answer || due.is_empty() {
        return;
    }
    let last = due.len() - 1;
    if let Some(last) = due.get_mut(last) {
        last.repeats = last.repeats.saturating_add(1);
    }
}

impl<'a> Asking<'a> {
    ghost use Rattle.std.specs.Prelude.{◌≡◌, ◌≤◌, ◌+◌, ◌&&◌, ◌++◌, ◌∷◌, [], IfOk, List, None, Some, if◌then◌else◌, length, slice_get};
    ghost use Rattle.mib_state.specs.After.{is_accepted};
    ghost use Rattle.mib_upload.specs.Upload.{answered, start};
    ghost use Rattle.bench_history.specs.declared.event.Event.{Event};
    ghost use Rattle.bench_history.specs.declared.event.Event.TheVariants.{Sent};
    ghost use Rattle.bench_answers.specs.Asked.{is_again};
    ghost use Rattle.bench_answers.specs.Ground.{Ground};
    ghost use Rattle.bench_answers.specs.Kept.{IsAsking, IsCarriedOut};

    /// What no message leaves.
    pub(crate) fn new(alloc: Global, modelled: bool, repeats: bool) -> Result<Self, AllocError>
        ensures modelled { IfOk result (λ asking. asking.modelled ≡ modelled) }
        ensures repeats { IfOk result (λ asking. asking.repeats ≡ repeats) }
        ensures desk { IfOk result (λ asking. asking.desk ≡ start) }
        ensures requests { IfOk result (λ asking. asking.requests.items ≡ []) }
        ensures last { IfOk result (λ asking. asking.last ≡ None) }
        ensures expected { IfOk result (λ asking. asking.expected.items ≡ []) }
        ensures due { IfOk result (λ asking. asking.due.items ≡ []) }
    {
        Ok(Asking {
            modelled,
            repeats,
            desk: Desk::new(alloc)?,
            requests: Vec::new(alloc),
            last: None,
            expected: Vec::new(alloc),
            due: Vec::new(alloc),
        })
    }

    /// What the model replies to a request, which is kept if it is accepted.
    pub(crate) fn answer(&mut self, request: &Request) -> Result<Reply, AllocError>
        ensures reply { IfOk result (λ reply. reply ≡ (answered self.old.desk request.now).0) }
        ensures asking { IfOk result (λ _. self.new ≡ record self.old {
          desk = (answered self.old.desk request.now).1;
          requests = self.new.requests;
        }) }
        ensures requests { IfOk result (λ _. self.new.requests.items
            ≡ (if is_accepted self.old.desk.mib.entities request.now
            then self.old.requests.items ++ request.now ∷ [] else self.old.requests.items)) }
    {
        let carried = self.desk.carry_out(request);
        if carried.accepted {
            self.requests.push(*request)?;
        }
        Ok(carried.reply)
    }

    /// Whether a message is a repeat.
    fn is_repeat(&self, message: &Digits<'_>) -> bool
        ensures { length message.now ≤ 48
            → result ≡ (self.now.repeats && is_again self.now.last message.now) }
    {
        if !self.repeats {
            return false;
        }
        match &self.last {
            Some(last) => is_same_message(message, last),
            None => false,
        }
    }

    /// Carries out the request that the event at a place sent.
    fn ask(&mut self, place: usize, request: &Request) -> Result<(), AllocError>
        ensures { IfOk result (λ _. IsCarriedOut place request.now self.old self.new) }
    {
        let reply = self.answer(request)?;
        if !request.wants_answer {
            return Ok(());
        }
        self.expected
            .push(Expected::of(self.modelled, request, reply))?;
        self.due.push(Due {
            sent: place,
            accepted: self.requests.len(),
            repeats: 0,
        })?;
        Ok(())
    }

    /// Takes the message that the event at a place sent.
    pub(crate) fn send(&mut self, place: usize, message: &Digits<'a>) -> Result<(), AllocError>
        ensures { (grounds : Ground) (events : List Event)
            → slice_get events place ≡ Some (Sent message.now)
            → IsAsking grounds events place self.old
            → IfOk result (λ _. IsAsking grounds events (place + 1) self.new) }
    {
        let is_repeat = self.is_repeat(message);
        self.last = Some(message.copied());
        let Some(request) = read_asked(message) else {
            return Ok(());
        };
        if is_repeat {
            count_repeat(&mut self.due, &request);
            return Ok(());
        }
        self.ask(place, &request)
    }
}
