//! Whether a request is refused, and what it is answered.
ghost use Rattle.std.specs.Prelude.{◌≡◌, IfErr, IfOk, is_ok};
ghost use Rattle.managed_entity.specs.declared.refusal.Refusal.TheVariants.{UnknownEntity};
ghost use Rattle.managed_entity.specs.Answer.{outcome_of, told};
ghost use Rattle.managed_entity.specs.Class.{class_number, is_known};
ghost use Rattle.mib_state.specs.Step.{answered, create, delete, done, get, get_next, held, result_of, set, step};

use crate::latch::{TABLE_MASK, sequence_of};
use crate::mib::Mib;
use crate::store::of_store;
use managed_entity::{Class, Refusal, mask_of};
use omci_msg::{Action, Request};

impl Mib {
    #[tactic(auto, using(crate::proofs::Counted::outcome_of_counted), unfolding(crate::specs::Step::create))]
    fn check_create(&self, request: &Request) -> Result<(), Refusal>
        ensures { result ≡ outcome_of (create self.now.entities request.now) }
    {
        of_store!(self, known(request.class)?, check_create(request))
    }

    #[tactic(auto, using(crate::proofs::Counted::outcome_of_counted), unfolding(crate::specs::Step::delete))]
    fn check_delete(&self, request: &Request) -> Result<(), Refusal>
        ensures { result ≡ outcome_of (delete self.now.entities request.now) }
    {
        of_store!(self, known(request.class)?, check_delete(request))
    }

    #[tactic(auto, using(crate::proofs::Counted::outcome_of_counted), unfolding(crate::specs::Step::set))]
    fn check_set(&self, request: &Request) -> Result<(), Refusal>
        ensures { result ≡ outcome_of (set self.now.entities request.now) }
    {
        of_store!(self, known(request.class)?, check_set(request))
    }

    #[tactic(auto, unfolding(crate::specs::Step::get))]
    fn get(&self, request: &Request) -> Result<[u8; 32], Refusal>
        ensures { result ≡ get self.now.entities request.now }
    {
        of_store!(self, known(request.class)?, read(request))
    }

    /// Whether there is an instance of a class, or why there is none.
    fn check_held(&self, class: u16, instance: u16) -> Result<(), Refusal>
        ensures { result ≡ held self.now.entities class instance }
    {
        known(class)?;
        match self.place_of(class, instance) {
            Some(_) => Ok(()),
            None => Err(Refusal::UnknownInstance),
        }
    }

    /// The contents of the answer to a Get next, or why it is refused.
    #[tactic(auto, unfolding(crate::specs::Step::get_next))]
    fn get_next(&self, request: &Request) -> Result<[u8; 32], Refusal>
        ensures { result ≡ get_next self.now request.now }
    {
        self.check_held(request.class, request.instance)?;
        if request.class != Class::Vlan.number() || mask_of(&request.contents) != TABLE_MASK {
            return Err(Refusal::ParameterError);
        }
        self.latch
            .part(request.instance, sequence_of(&request.contents))
    }

    /// The contents of the answer to a request, or why it is refused.
    #[tactic(auto, using(crate::proofs::Answered::answers))]
    pub(crate) fn decide(&self, request: &Request) -> Result<[u8; 32], Refusal>
        ensures { result ≡ answered request.now.action self.now request.now }
    {
        match request.action {
            Action::Create => done(self.check_create(request)),
            Action::Delete => done(self.check_delete(request)),
            Action::Set => done(self.check_set(request)),
            Action::Get => self.get(request),
            Action::GetNext => self.get_next(request),
            Action::MibReset => Ok([0; 32]),
            _ => Err(Refusal::NotSupported),
        }
    }

    /// The result that `step` would give: the first byte of its reply's contents (ITU-T G.988, annex A).
    pub fn result_of(&self, request: &Request) -> u8
        ensures { result ≡ result_of (step self.now request.now).0 }
    {
        told(self.decide(request))[0]
    }
}

/// The class of a number, or the refusal of one that isn't known.
fn known(class: u16) -> Result<Class, Refusal>
    ensures number { IfOk result (λ known. class ≡ class_number known) }
    ensures known { is_ok result ≡ is_known class }
    ensures refusal { IfErr result (λ refusal. refusal ≡ UnknownEntity) }
{
    Class::of(class).ok_or(Refusal::UnknownEntity)
}

/// The answer to a change, or why it is refused.
fn done(outcome: Result<(), Refusal>) -> Result<[u8; 32], Refusal>
    ensures { result ≡ done outcome }
{
    outcome?;
    Ok([0; 32])
}

/// The contents of an answer.
pub(crate) fn told(outcome: Result<[u8; 32], Refusal>) -> [u8; 32]
    ensures { result ≡ told outcome }
{
    match outcome {
        Ok(contents) => contents,
        Err(refusal) => refusal.contents(),
    }
}
