//! One step of the management information base.
ghost use Rattle.std.specs.Prelude.{◌≡◌, is_ok, true, false};
ghost use Rattle.managed_entity.specs.Answer.{left_by};
ghost use Rattle.mib_state.specs.After.{is_accepted, may_change};
ghost use Rattle.mib_state.specs.Entities.{nothing};
ghost use Rattle.mib_state.specs.Step.{answered, create, delete, latched, set, state_left, step};
ghost use Rattle.mib_state.specs.Touch.{touched, touched_by, IsTouch};

use crate::carried::Carried;
use crate::check::told;
use crate::latch::TABLE_PLACE;
use crate::mib::Mib;
use crate::store::of_store;
use crate::touch::Touch;
use managed_entity::{Class, mask_of, names};
use omci_msg::{Action, Reply, Request};

impl Mib {
    #[tactic(auto, using(crate::proofs::Counted::counts), unfolding(crate::specs::Step::create))]
    fn create(&mut self, request: &Request)
        requires { is_ok (create self.old.entities request.now) ≡ true }
        ensures { self.new
            ≡ record self.old {
              entities = left_by self.old.entities
                  (create self.old.entities request.now);
            } }
    {
        self.onu_data.count();
        if let Some(class) = Class::of(request.class) {
            of_store!(self, class, create(request));
        }
    }

    #[tactic(auto, using(crate::proofs::Counted::counts), unfolding(crate::specs::Step::delete))]
    fn delete(&mut self, request: &Request)
        requires { is_ok (delete self.old.entities request.now) ≡ true }
        ensures { self.new
            ≡ record self.old {
              entities = left_by self.old.entities
                  (delete self.old.entities request.now);
            } }
    {
        self.onu_data.count();
        if let Some(class) = Class::of(request.class) {
            of_store!(self, class, delete(request));
        }
    }

    /// A Set of ONU data isn't counted.
    #[tactic(auto, using(crate::proofs::Counted::counts), unfolding(crate::specs::Step::set))]
    fn set(&mut self, request: &Request)
        requires { is_ok (set self.old.entities request.now) ≡ true }
        ensures { self.new
            ≡ record self.old {
              entities = left_by self.old.entities
                  (set self.old.entities request.now);
            } }
    {
        if request.class == Class::OnuData.number() {
            return self.onu_data.set(request);
        }
        self.onu_data.count();
        if let Some(class) = Class::of(request.class) {
            of_store!(self, class, set(request));
        }
    }

    /// No instance, and sync 0. The latched table stands.
    fn reset(&mut self)
        ensures { self.new ≡ record self.old { entities = nothing } }
    {
        self.onu_data.sync = 0;
        self.mappers.clear();
        self.vlans.clear();
        self.interworks.clear();
        self.gem_ports.clear();
    }

    /// Latches the table that a Get names.
    fn latch(&mut self, request: &Request)
        ensures { self.new ≡ record self.old { latch = latched self.old request.now } }
    {
        if request.class != Class::Vlan.number()
            || !names(mask_of(&request.contents), TABLE_PLACE)
        {
            return;
        }
        if let Some(vlan) = self.vlans.get(request.instance) {
            self.latch.take(request.instance, &vlan.table);
        }
    }

    /// Makes the change of a request that isn't refused.
    #[tactic(auto, using(crate::proofs::Answered::answers))]
    fn change(&mut self, request: &Request)
        requires { is_ok (answered request.now.action self.old request.now) ≡ true }
        ensures { self.new ≡ state_left request.now.action self.old request.now }
    {
        match request.action {
            Action::Create => self.create(request),
            Action::Delete => self.delete(request),
            Action::Set => self.set(request),
            Action::Get => self.latch(request),
            Action::MibReset => self.reset(),
            _ => {}
        }
    }

    /// One step: carries a request out, and answers it. It takes no memory; a refusal changes nothing. The definition
    /// `step` gives the refusals of each action in their order, and what each answer holds (ITU-T G.988, annex A).
    pub fn step(&mut self, request: &Request) -> Reply
        ensures reply { result ≡ (step self.old request.now).0 }
        ensures after { self.new ≡ (step self.old request.now).1 }
    {
        self.carry_out(request).reply
    }

    /// Whether a request would be accepted: its action may change the entities, and it isn't refused.
    pub fn accepts(&self, request: &Request) -> bool
        ensures { result ≡ is_accepted self.now.entities request.now }
    {
        match self.decide(request) {
            Ok(_) => may_change(request.action),
            Err(_) => false,
        }
    }

    /// The same step, and beside its reply what it touched of the classes 130, 171, 266 and 268: one instance where a Create, a
    /// Delete or a Set of another class than ONU data is accepted, all of them at MIB reset, and nothing otherwise. The definition
    /// `IsTouch` says what each leaves as it was.
    pub fn step_touching(&mut self, request: &Request) -> (Reply, Touch)
        ensures reply { result.0 ≡ (step self.old request.now).0 }
        ensures after { self.new ≡ (step self.old request.now).1 }
        ensures touch { result.1 ≡ touched self.old request.now }
        ensures changes { IsTouch self.old.entities self.new.entities result.1 }
    {
        let carried = self.carry_out(request);
        (carried.reply, carried.touch)
    }

    /// The same step, and beside its reply and what it touched whether the request was accepted: its action may change the
    /// entities, and it isn't refused.
    #[tactic(auto, using(crate::proofs::Answered::left_refused))]
    pub fn carry_out(&mut self, request: &Request) -> Carried
        ensures reply { result.reply ≡ (step self.old request.now).0 }
        ensures after { self.new ≡ (step self.old request.now).1 }
        ensures touch { result.touch ≡ touched self.old request.now }
        ensures changes { IsTouch self.old.entities self.new.entities result.touch }
        ensures accepted { result.accepted ≡ is_accepted self.old.entities request.now }
        ensures refused { result.accepted ≡ false → self.new.entities ≡ self.old.entities }
    {
        let outcome = self.decide(request);
        let mut touch = Touch::Nothing;
        let mut accepted = false;
        if outcome.is_ok() {
            self.change(request);
            touch = touched_by(request);
            accepted = may_change(request.action);
        }
        let reply = request.reply_with(told(outcome));
        Carried {
            reply,
            touch,
            accepted,
        }
    }
}

/// What a request touches that isn't refused.
fn touched_by(request: &Request) -> Touch
    ensures { result ≡ touched_by request.now.action request.now }
{
    match request.action {
        Action::Set if request.class == Class::OnuData.number() => Touch::Nothing,
        Action::Create | Action::Delete | Action::Set => Touch::One {
            class: request.class,
            instance: request.instance,
        },
        Action::MibReset => Touch::All,
        _ => Touch::Nothing,
    }
}

/// Whether an action may change the entities.
pub fn may_change(action: Action) -> bool
    ensures { result ≡ may_change action }
{
    match action {
        Action::Create | Action::Delete | Action::Set | Action::MibReset => true,
        _ => false,
    }
}
