//! The writer of the two copies, and the history of all accepted requests.
ghost use Rattle.std.specs.Prelude.{◌≡◌, [], ◌∷◌, ◌++◌, drop, Some, false, OnOk, OnErr};
ghost use Rattle.left_right.specs.Sides.{view};
ghost use Rattle.plan_publish.specs.Requests.{StartsWith, version_of};
ghost use Rattle.plan_publish.specs.History.{head_of, key_of};
ghost use Rattle.plan_publish.specs.Edition.{requests_of};
ghost use Rattle.plan_publish.specs.Publisher.{all_of, Stands, WriterStands};

use crate::edition::{Accepted, Edition};
use crate::history::{Head, Prefix};
use crate::rule::{Pending, Published, Publishing, View};
use core::mem::replace_with;
use left_right::writer::Writer;
use omci_msg::Request;
use std::alloc::AllocError;
use std::marker::{Brand, Model};
use std::sync::Wait;

pub(crate) type PlanWriter = Writer<Edition, Accepted, View, Published>;

/// The writer of the two copies, and the history of all accepted requests.
pub(crate) struct Publisher {
    writer: PlanWriter,
    head: Head,
    /// The whole history.
    history: Prefix,
    /// How many requests are accepted.
    accepted: u64,
}

impl Model for Publisher {
    ghost use Rattle.std.specs.Prelude.{◌≡◌, ◌++◌, drop, Some};
    ghost use Rattle.left_right.specs.Sides.{view as knows};
    ghost use Rattle.plan_publish.specs.Requests.{StartsWith, version_of};
    ghost use Rattle.plan_publish.specs.History.{head_of, key_of};
    ghost use Rattle.plan_publish.specs.Edition.{requests_of};
    ghost use Rattle.plan_publish.specs.Publisher.{Lists, WriterStands};

    ghost Value = { Lists };

    ghost view = { λ c.
        record {
          published = (knows c.writer.desk.place).published;
          pending = requests_of (drop c.writer.behind c.writer.log.items);
          home = c.history.seen.book;
        } };

    ghost invariant = { λ c.
        WriterStands c.writer
        × (c.writer.desk.shown.value.base.seen.book ≡ c.history.seen.book)
        × ((knows c.writer.desk.place).home ≡ Some (key_of c.history.seen.book))
        × StartsWith ((knows c.writer.desk.place).published
        ++ requests_of (drop c.writer.behind c.writer.log.items)) c.history.seen.log
        × (c.accepted ≡ version_of ((knows c.writer.desk.place).published
        ++ requests_of (drop c.writer.behind c.writer.log.items)))
        × (c.head ≡ head_of c.history.seen.book) };
}

/// Publishes the requests that the type names, which are all pending ones.
fn publish_pending<J: Pending, R: Wait>(rt: &R, writer: PlanWriter) -> PlanWriter
    requires stands { WriterStands writer }
    requires pending { requests_of (drop writer.behind writer.log.items) ≡ J.pending }
    ensures published { (view result.desk.place).published
        ≡ (view writer.desk.place).published ++ J.pending }
    ensures stands { Stands result.desk.shown.value (view result.desk.place) [] }
    ensures pending { drop result.behind result.log.items ≡ [] }
    ensures book { result.desk.shown.value.base.seen.book ≡ writer.desk.shown.value.base.seen.book }
    ensures home { (view result.desk.place).home
        ≡ Some (key_of result.desk.shown.value.base.seen.book) }
{
    let (writer, done) = writer.publish_as::<Publishing<J>, R>(rt);
    match done {
        Ok(()) => writer,
        Err(_) => unreachable!(),
    }
}

/// Publishes all pending requests.
pub(crate) fn publish_now<R: Wait>(writer: PlanWriter, rt: &R) -> (PlanWriter, ())
    requires { WriterStands writer }
    ensures published { (view result.0.desk.place).published
        ≡ (view writer.desk.place).published ++ requests_of (drop writer.behind writer.log.items) }
    ensures stands { Stands result.0.desk.shown.value (view result.0.desk.place) [] }
    ensures pending { drop result.0.behind result.0.log.items ≡ [] }
    ensures book { result.0.desk.shown.value.base.seen.book
        ≡ writer.desk.shown.value.base.seen.book }
    ensures home { (view result.0.desk.place).home
        ≡ Some (key_of result.0.desk.shown.value.base.seen.book) }
{
    (publish_pending::<Brand, R>(rt, writer), ())
}

/// Waits for ever where something is that cannot be.
fn rule_out<R: Wait>(rt: &R, wrong: bool)
    ensures { wrong ≡ false }
{
    if wrong {
        for _ in rt.forever() {}
        unreachable!()
    }
}

/// The history goes on where all accepted requests are known to be of it.
fn follow(history: &mut Prefix, head: &Head, accepted: u64, request: &Request)
    requires { head.now ≡ head_of history.old.seen.book }
    ensures book { history.new.seen.book ≡ history.old.seen.book }
    ensures log { (all : _) → StartsWith all history.old.seen.log → accepted ≡ version_of all
        → StartsWith (all ++ request.now ∷ []) history.new.seen.log }
{
    if history.len() == accepted {
        history.add(head, request);
    }
}

impl Publisher {
    pub(crate) fn new(writer: PlanWriter, head: Head, history: Prefix) -> Publisher
        requires stands { Stands writer.desk.shown.value (view writer.desk.place) [] }
        requires nothing { ((view writer.desk.place).published ≡ [])
            × (drop writer.behind writer.log.items ≡ []) × (history.seen.log ≡ []) }
        requires home { ((view writer.desk.place).home ≡ Some (key_of history.seen.book))
            × (head ≡ head_of history.seen.book)
            × (writer.desk.shown.value.base.seen.book ≡ history.seen.book) }
        ensures { (result.published ≡ []) × (result.pending ≡ [])
            × (result.home ≡ history.seen.book) }
    {
        Publisher {
            writer,
            head,
            history,
            accepted: 0,
        }
    }

    /// How many requests are accepted.
    pub(crate) fn accepted(&self) -> u64
        ensures { result ≡ version_of (all_of self.now) }
    {
        self.accepted
    }

    /// A request is accepted.
    pub(crate) fn accept(&mut self, request: &Request) -> Result<(), AllocError>
        ensures accepted { OnOk result (self.new
            ≡ record self.old { pending = self.old.pending ++ request.now ∷ [] }) }
        ensures err { OnErr result (self.new ≡ self.old) }
    {
        let operation = Accepted {
            request: *request,
            before: self.history.again(),
        };
        let Ok(()) = self.writer.append(operation) else {
            return Err(AllocError);
        };
        follow(&mut self.history, &self.head, self.accepted, request);
        self.accepted = self.accepted.saturating_add(1);
        Ok(())
    }

    /// Publishes all pending requests, and gives all that are published. It waits for lanes that hold the copy from before the
    /// last call.
    pub(crate) fn publish<R: Wait>(&mut self, rt: &R) -> Prefix
        ensures published { self.new
            ≡ record self.old { published = all_of self.old; pending = [] } }
        ensures told { (result.seen.log ≡ all_of self.old) × (result.seen.book ≡ self.old.home) }
    {
        rule_out(rt, self.history.len() != self.accepted);
        replace_with(&mut self.writer, rt, publish_now);
        self.history.again()
    }

    /// Ends it. It waits for lanes that are in.
    pub(crate) fn close<R: Wait>(self, rt: &R) {
        let Self {
            writer,
            head: _,
            history: _,
            accepted: _,
        } = self;
        writer.take(rt);
    }
}
