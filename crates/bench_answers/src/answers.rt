//! The messages and replies of a history, from event to event.
ghost use Rattle.std.specs.Prelude.{IfOk};
ghost use Rattle.bench_answers.specs.Kept.{IsBegun};

use crate::asking::Asking;
use crate::awaited::{Awaited, Later};
use crate::basis::Basis;
use crate::replies::Replies;
use crate::search::{first_right, first_with_head, has_identifier, has_one_head};
use crate::standing::Standing;
use bench_history::Digits;
use bench_reply::{Expected, is_reply_to};
use omci_msg::Request;
use std::alloc::{AllocError, Global};

/// What is kept of the messages and replies of a history, so that each is looked at once.
#[derive(Drop)]
pub struct Answers<'a> {
    /// The messages.
    pub(crate) asking: Asking<'a>,
    /// The replies to the requests before the first event that want an answer.
    pub(crate) start: Vec<Expected>,
    /// How many requests were accepted before the first event.
    pub(crate) base: usize,
    /// The replies.
    pub(crate) replies: Replies,
    /// The most requests that an event waits for.
    pub(crate) waited: usize,
}

/// Carries out the requests before the first event, and gives the replies that they are to get.
fn carry_out(
    alloc: Global,
    asking: &mut Asking<'_>,
    requests: &[Request],
) -> Result<Vec<Expected>, AllocError>
    ensures { IfOk result (λ expected. IsBegun requests.now asking.old asking.new expected.items) }
{
    let mut expected = Vec::new(alloc);
    for request in requests {
        let reply = asking.answer(request)?;
        if request.wants_answer {
            expected.push(Expected::of(asking.modelled, request, reply))?;
        }
    }
    Ok(expected)
}

impl<'a> Answers<'a> {
    ghost use Rattle.std.specs.Prelude.{◌≡◌, ◌+◌, ℕ, Decides, IfOk, List, Some, slice_get, take};
    ghost use Rattle.bench_history.specs.declared.event.Event.{Event};
    ghost use Rattle.bench_history.specs.declared.event.Event.TheVariants.{Excused, Replied, Sent, Waited};
    ghost use Rattle.bench_answers.specs.Asked.{requests_of};
    ghost use Rattle.bench_answers.specs.Ground.{Ground, ground_of};
    ghost use Rattle.bench_answers.specs.Kept.{IsAnswersOf};
    ghost use Rattle.bench_answers.specs.Right.{IsMeant, IsNext, IsRight};
    ghost use Rattle.bench_answers.specs.Standing.{answers_start, compared, excused_of, is_absent, repeated_number, standing_of, standings};
    ghost use Rattle.bench_answers.specs.Windows.{least_behind, most_behind};

    /// What no event leaves. It takes time in proportion to the requests before the first event.
    pub fn new(alloc: Global, basis: &Basis<'_>) -> Result<Self, AllocError>
        ensures { IfOk result (λ answers. (events : List Event)
            → IsAnswersOf (ground_of basis.now) events 0 answers) }
    {
        let mut asking = Asking::new(alloc, basis.modelled, basis.repeats)?;
        let start = carry_out(alloc, &mut asking, basis.start)?;
        Ok(Answers {
            base: asking.requests.len(),
            asking,
            start,
            replies: Replies::new(alloc),
            waited: 0,
        })
    }

    /// Takes the message that the event at a place sent.
    pub fn send(&mut self, place: usize, message: &Digits<'a>) -> Result<(), AllocError>
        ensures { (grounds : Ground) (events : List Event)
            → slice_get events place ≡ Some (Sent message.now)
            → IsAnswersOf grounds events place self.old
            → IfOk result (λ _. IsAnswersOf grounds events (place + 1) self.new) }
    {
        self.asking.send(place, message)
    }

    /// The request that was answered last, by its number, if a reply answers a repeat of it.
    fn repeated_by(&self, reply: &Digits<'_>) -> Option<usize>
        ensures { (grounds : Ground) (events : List Event) (place : ℕ)
            → IsAnswersOf grounds events place self.now
            → result ≡ repeated_number grounds (take place events)
            (standings grounds (take place events)) reply.now }
    {
        if self.replies.counts.next == 0 {
            return None;
        }
        let last = self.replies.counts.next - 1;
        let Some(due) = self.asking.due.get(last) else {
            return None;
        };
        if self.replies.counts.repeated >= due.repeats {
            return None;
        }
        let Some(expected) = self.asking.expected.get(last) else {
            return None;
        };
        if !is_reply_to(expected, reply) {
            return None;
        }
        if has_identifier(
            &self.asking.expected,
            self.replies.counts.next,
            expected.reply.tci,
        ) {
            return None;
        }
        Some(last)
    }

    /// The first request before all events that a reply answers, by its number, behind that of the reply before.
    fn of_start(&self, reply: &Digits<'_>) -> Option<usize>
        ensures { (grounds : Ground) (events : List Event) (place : ℕ)
            → IsAnswersOf grounds events place self.now
            → result ≡ answers_start grounds (take place events)
            (standings grounds (take place events)) reply.now }
    {
        if self.asking.last.is_some() {
            return None;
        }
        first_right(&self.start, self.replies.counts.start_next, reply)
    }

    /// What a reply stands for.
    pub fn standing(&self, reply: &Digits<'_>) -> Standing
        ensures { (grounds : Ground) (events : List Event) (place : ℕ)
            → IsAnswersOf grounds events place self.now
            → result ≡ standing_of grounds (take place events)
            (standings grounds (take place events)) reply.now }
    {
        if let Some(number) = self.repeated_by(reply) {
            return Standing::Repeats(number);
        }
        if let Some(number) = self.of_start(reply) {
            return Standing::OfStart(number);
        }
        Standing::Answers(self.replies.counts.next)
    }

    /// Whether a reply is right: it answers the next request, a repeat of the one before, or a request before the first event.
    pub fn is_right(&self, reply: &Digits<'_>) -> bool
        ensures { (grounds : Ground) (events : List Event) (place : ℕ)
            → IsAnswersOf grounds events place self.now
            → Decides result (IsRight grounds (take place events) reply.now) }
    {
        let Standing::Answers(number) = self.standing(reply) else {
            return true;
        };
        match self.asking.expected.get(number) {
            Some(expected) => is_reply_to(expected, reply),
            None => false,
        }
    }

    /// Takes a right reply.
    pub fn take(&mut self, reply: &Digits<'_>) -> Result<(), AllocError>
        ensures { (grounds : Ground) (events : List Event) (place : ℕ)
            → slice_get events place ≡ Some (Replied reply.now)
            → IsRight grounds (take place events) reply.now
            → IsAnswersOf grounds events place self.old
            → IfOk result (λ _. IsAnswersOf grounds events (place + 1) self.new) }
    {
        let standing = self.standing(reply);
        self.replies.add(standing)
    }

    /// Whether a reply that no waiting request has the head of isn't there: a request that was answered or left out has it, or none waits.
    fn is_absent(&self, reply: &Digits<'_>) -> bool
        ensures { (grounds : Ground) (events : List Event) (place : ℕ)
            → IsAnswersOf grounds events place self.now
            → result ≡ is_absent grounds (take place events)
            (standings grounds (take place events)) reply.now }
    {
        if has_one_head(&self.start, self.start.len(), reply) {
            return true;
        }
        let next = self.replies.counts.next;
        if has_one_head(&self.asking.expected, next, reply) {
            return true;
        }
        next >= self.asking.expected.len()
    }

    /// What a reply stands for that is excused.
    pub fn excused(&self, reply: &Digits<'_>) -> Standing
        ensures { (grounds : Ground) (events : List Event) (place : ℕ)
            → IsAnswersOf grounds events place self.now
            → result ≡ excused_of grounds (take place events)
            (standings grounds (take place events)) reply.now }
    {
        let next = self.replies.counts.next;
        if let Some(number) = first_with_head(&self.asking.expected, next, reply) {
            return Standing::Answers(number);
        }
        if self.is_absent(reply) {
            return Standing::Absent;
        }
        Standing::Answers(next)
    }

    /// Takes a reply that is excused.
    pub fn excuse(&mut self, reply: &Digits<'_>) -> Result<(), AllocError>
        ensures { (grounds : Ground) (events : List Event) (place : ℕ)
            → slice_get events place ≡ Some (Excused reply.now)
            → IsAnswersOf grounds events place self.old
            → IfOk result (λ _. IsAnswersOf grounds events (place + 1) self.new) }
    {
        let standing = self.excused(reply);
        self.replies.add(standing)
    }

    /// Waits for so many replies, or for those seen so far.
    pub fn wait(&mut self, replies: Option<u32>)
        ensures { (grounds : Ground) (events : List Event) (place : ℕ)
            → slice_get events place ≡ Some (Waited replies)
            → IsAnswersOf grounds events place self.old
            → IsAnswersOf grounds events (place + 1) self.new }
    {
        let reached = self.replies.reached_by(replies);
        if self.waited < reached {
            self.waited = reached;
        }
    }

    /// The least version of a frame that is sent now: the requests accepted up to and with the last one that is waited for.
    pub fn least(&self) -> usize
        ensures { (grounds : Ground) (events : List Event) (place : ℕ)
            → IsAnswersOf grounds events place self.now
            → result ≡ least_behind grounds (take place events) }
    {
        if self.waited == 0 {
            return self.base;
        }
        match self.asking.due.get(self.waited - 1) {
            Some(due) => due.accepted,
            None => self.base,
        }
    }

    /// The greatest version of a frame that is seen to end now: the requests accepted so far.
    pub fn most(&self) -> usize
        ensures { (grounds : Ground) (events : List Event) (place : ℕ)
            → IsAnswersOf grounds events place self.now
            → result ≡ most_behind grounds (take place events) }
    {
        self.asking.requests.len()
    }

    /// The next request, if one waits for its reply.
    pub fn awaited(&self) -> Option<Awaited>
        ensures { (grounds : Ground) (events : List Event) (place : ℕ)
            → IsAnswersOf grounds events place self.now
            → IsNext grounds (take place events) result }
    {
        let expected = self.asking.expected.get(self.replies.counts.next)?;
        let due = self.asking.due.get(self.replies.counts.next)?;
        Some(Awaited {
            sent: due.sent,
            reply: expected.reply,
        })
    }

    /// The first request that waits, behind the next one, and has the identifier, action, class and instance of a reply. None where the
    /// next one has them.
    pub fn later(&self, reply: &Digits<'_>) -> Option<Later>
        ensures { (grounds : Ground) (events : List Event) (place : ℕ)
            → IsAnswersOf grounds events place self.now
            → IsMeant grounds (take place events) reply.now result }
    {
        let next = self.replies.counts.next;
        let Some(number) = first_with_head(&self.asking.expected, next, reply) else {
            return None;
        };
        if number <= next {
            return None;
        }
        let Some(due) = self.asking.due.get(number) else {
            return None;
        };
        Some(Later {
            sent: due.sent,
            skipped: number - next,
        })
    }

    /// How many replies were compared: all but those to requests before the first event.
    pub fn compared(&self) -> usize
        ensures { (grounds : Ground) (events : List Event) (place : ℕ)
            → IsAnswersOf grounds events place self.now
            → result ≡ compared grounds (take place events) }
    {
        self.replies.counts.compared
    }

    /// The accepted requests: first those before the first event.
    pub fn requests(&self) -> &[Request]
        ensures { (grounds : Ground) (events : List Event) (place : ℕ)
            → IsAnswersOf grounds events place self.now
            → result.now ≡ requests_of grounds (take place events) }
    {
        &self.asking.requests
    }

    /// The same, for good.
    pub fn into_requests(self) -> Vec<Request>
        ensures { (grounds : Ground) (events : List Event) (place : ℕ)
            → IsAnswersOf grounds events place self.entry
            → result.items ≡ requests_of grounds (take place events) }
    {
        self.asking.requests
    }
}
