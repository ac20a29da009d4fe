//! The control: it answers messages, and publishes what they changed.
ghost use Rattle.std.specs.Prelude.{◌≡◌, [], ◌++◌, true, Ok, Err, IfOk, IfErr, IsErrOf, OnOk, OnErr, length};
ghost use Rattle.omci_msg.specs.Message.{request_of};
ghost use Rattle.omci_msg.specs.declared.Request.{Request};
ghost use Rattle.omci_msg.specs.declared.fault.MsgFault.{MsgFault};
ghost use Rattle.mib_state.specs.After.{after, is_accepted};
ghost use Rattle.mib_state.specs.Touch.{touched};
ghost use Rattle.mib_upload.specs.Upload.{answered, start};
ghost use Rattle.plan_publish.specs.Control.{accepted_of, answer_to, carried_out, takes};
ghost use Rattle.plan_publish.specs.Requests.{version_of};
ghost use Rattle.plan_publish.specs.Told.{told_home, told_list};
ghost use Rattle.plan_publish.specs.World.{World, answer, happens, Gave, Message, Publish, Replied};
ghost use Rattle.plan_publish.specs.Shown.{Shows};

use crate::fault::ControlFault;
use crate::publisher::Publisher;
use crate::told::Told;
use mib_state::{Carried, Mib};
use mib_upload::Desk;
use omci_msg::{Request, read, write};
use std::alloc::AllocError;
use std::marker::Model;
use std::sync::Wait;

/// It answers messages by its desk, and has the writer of the two copies. Its entities are always those after the accepted
/// requests, by its type. It is not `Drop`: end it by [`close`](Control::close).
pub struct Control {
    desk: Desk,
    publisher: Publisher,
}

impl Model for Control {
    ghost use Rattle.std.specs.Prelude.{◌≡◌};
    ghost use Rattle.mib_state.specs.After.{after};
    ghost use Rattle.plan_publish.specs.Publisher.{all_of};
    ghost use Rattle.plan_publish.specs.Control.{Progress};

    ghost Value = { Progress };

    ghost view = { λ c.
        record {
          desk = c.desk;
          published = c.publisher.published;
          pending = c.publisher.pending;
          home = c.publisher.home;
        } };

    ghost invariant = { λ c. c.desk.mib.entities ≡ after (all_of c.publisher) };
}

impl Control {
    pub(crate) fn new(desk: Desk, publisher: Publisher) -> Control
        requires { (desk ≡ start) × (publisher.published ≡ []) × (publisher.pending ≡ []) }
        ensures { result
            ≡ record { desk = start; published = []; pending = []; home = publisher.home } }
    {
        Control { desk, publisher }
    }

    /// Carries out what a message of 48 bytes, or 44, asks, and gives the 48 bytes of its answer, or none where none was wanted
    /// (ITU-T G.988, 11.2 and annex A). An accepted request will be in the next version that is published.
    ///
    /// After a fault nothing has changed. `NoMemory` comes only for a request that is accepted: no other makes anything grow.
    pub fn message(&mut self, bytes: &[u8]) -> Result<Option<[u8; 48]>, ControlFault>
        ensures no_request { IfErr (request_of bytes.now) (λ fault.
            result ≡ Err (ControlFault.Msg fault)) }
        ensures msg { (fault : MsgFault) → IsErrOf result (ControlFault.Msg fault)
            → request_of bytes.now ≡ Err fault }
        ensures answer { IfOk result (λ answer.
            IfOk (request_of bytes.now) (λ q. answer ≡ answer_to q (answered self.old.desk q).0)) }
        ensures after { OnOk result (IfOk (request_of bytes.now) (λ q.
            self.new ≡ carried_out self.old q)) }
        ensures entities { OnOk result (self.new.desk.mib.entities ≡ after (accepted_of self.new)) }
        ensures err { OnErr result (self.new ≡ self.old) }
        ensures no_memory { IsErrOf result ControlFault.NoMemory
            → (q : Request) × (request_of bytes.now ≡ Ok q) × (takes self.old q ≡ true) }
        ensures event { OnOk result (IfOk (request_of bytes.now) (λ q. (w : World)
            → Shows self.old w → Shows self.new (happens w (Message q)))) }
    {
        let request = match read(bytes) {
            Ok(request) => request,
            Err(fault) => return Err(ControlFault::Msg(fault)),
        };
        let Ok(carried) = self.carry_out(&request) else {
            return Err(ControlFault::NoMemory);
        };
        match request.wanted_reply(carried.reply) {
            Some(reply) => Ok(Some(write(&reply))),
            None => Ok(None),
        }
    }

    /// Carries a request out: its reply, what it touched, and whether it is accepted. An accepted one will be in the next version
    /// that is published; it is kept for the copies first, and where there is no memory for that, nothing has changed.
    pub fn carry_out(&mut self, request: &Request) -> Result<Carried, AllocError>
        ensures reply { IfOk result (λ carried.
            carried.reply ≡ (answered self.old.desk request.now).0) }
        ensures touch { IfOk result (λ carried.
            carried.touch ≡ touched self.old.desk.mib request.now) }
        ensures accepted { IfOk result (λ carried. carried.accepted ≡ takes self.old request.now) }
        ensures after { OnOk result (self.new ≡ carried_out self.old request.now) }
        ensures entities { OnOk result (self.new.desk.mib.entities ≡ after (accepted_of self.new)) }
        ensures err { OnErr result (self.new ≡ self.old) }
        ensures no_memory { OnErr result (takes self.old request.now ≡ true) }
        ensures event { OnOk result ((w : World) → Shows self.old w
            → Shows self.new (happens w (Message request.now))) }
        ensures answer { IfOk result (λ carried. (w : World) → Shows self.old w
            → answer w (Message request.now) ≡ Replied carried.reply) }
    {
        if is_accepted(self.desk.mib(), request) {
            let Ok(()) = self.publisher.accept(request) else {
                return Err(AllocError);
            };
        }
        Ok(self.desk.carry_out(request))
    }

    /// How many requests are accepted, published or not, or 2^64 - 1 where there are more. It tells whether a message was accepted.
    pub fn accepted(&self) -> u64
        ensures { result ≡ version_of (accepted_of self.now) }
    {
        self.publisher.accepted()
    }

    /// Publishes the accepted requests, all at once: each lane that enters from now on holds them. It tells what is published.
    ///
    /// It waits for each lane that holds the copy from before the last publish, until it leaves, and for no other: the first
    /// publish beside a lane that is in returns at once, the next one waits for that lane. It spins, and then yields its
    /// processor again and again; it doesn't sleep. Lanes don't wait for it. (After 2^62 accepted messages it would wait for
    /// ever.)
    pub fn publish<R: Wait>(&mut self, rt: &R) -> Told
        ensures published { self.new
            ≡ record self.old { published = accepted_of self.old; pending = [] } }
        ensures entities { self.new.desk.mib.entities ≡ after self.new.published }
        ensures told { told_list result ≡ accepted_of self.old }
        ensures home { told_home result ≡ self.old.home }
        ensures event { (w : World) → Shows self.old w → Shows self.new (happens w Publish) }
        ensures answer { (w : World) → Shows self.old w
            → answer w Publish ≡ Gave (length (told_list result)) }
    {
        Told::new(self.publisher.publish(rt))
    }

    /// Ends the control. It waits for all lanes that are in. Lanes can't enter any more.
    pub fn close<R: Wait>(self, rt: &R) {
        let Self { desk: _, publisher } = self;
        publisher.close(rt);
    }
}

/// Whether a request is accepted.
fn is_accepted(mib: &Mib, request: &Request) -> bool
    ensures { result ≡ is_accepted mib.now.entities request.now }
{
    mib.accepts(request)
}
