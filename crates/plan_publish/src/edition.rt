//! What lies in each of the two copies.
ghost use Rattle.std.specs.Prelude.{◌≡◌, [], IfOk};
ghost use Rattle.std.specs.Bool.{OnTrue};
ghost use Rattle.std.specs.Option.{option_eq};
ghost use Rattle.plan_publish.specs.Requests.{StartsWith, is_same};
ghost use Rattle.plan_publish.specs.Edition.{IsAfter, HasTrail, taken_in, shows};

use crate::history::Prefix;
use forward_plan::Live;
use left_right::Absorb;
use omci_msg::Request;
use std::alloc::{AllocError, Global};

/// An accepted request, and the history before it.
#[derive(Drop)]
pub struct Accepted {
    pub request: Request,
    pub before: Prefix,
}

/// The entities with their plan, how many requests they have absorbed, the last of these, and the history before that.
#[derive(Drop)]
pub struct Edition {
    pub live: Live,
    pub version: u64,
    pub base: Prefix,
    pub last: Option<Request>,
}

impl Edition {
    /// No instance.
    pub(crate) fn new(alloc: Global, base: Prefix) -> Result<Edition, AllocError>
        requires { base.seen.log ≡ [] }
        ensures { IfOk result (λ e. IsAfter e [] × HasTrail e [] × (e.base ≡ base)) }
    {
        Ok(Edition {
            live: Live::new(alloc)?,
            version: 0,
            base,
            last: None,
        })
    }

    /// Whether it shows that what begins its history was absorbed.
    pub(crate) fn shows(&self, learnt: &Prefix) -> bool
        requires { self.now.base.seen.book ≡ learnt.now.seen.book }
        ensures value { result ≡ shows self.now learnt.now }
        ensures lists { OnTrue result ((now : _) → IsAfter self.now now → HasTrail self.now now
            → StartsWith now learnt.now.seen.log) }
    {
        if learnt.begins(&self.base) {
            return true;
        }
        if learnt.len() != self.base.len() + 1 {
            return false;
        }
        if self.version != learnt.len() {
            return false;
        }
        if are_same(&self.last, &learnt.newest()) {
            return true;
        }
        false
    }
}

/// Whether two requests are the same.
fn is_same(a: &Request, b: &Request) -> bool
    ensures { result ≡ is_same a.now b.now }
{
    a.tci == b.tci
        && a.action.code() == b.action.code()
        && a.wants_answer == b.wants_answer
        && a.class == b.class
        && a.instance == b.instance
        && a.contents.as_slice() == b.contents.as_slice()
}

/// Whether both are the same request, or none.
fn are_same(a: &Option<Request>, b: &Option<Request>) -> bool
    ensures value { result ≡ option_eq is_same a.now b.now }
    ensures same { OnTrue result (a.now ≡ b.now) }
{
    match (a, b) {
        (Some(a), Some(b)) => is_same(a, b),
        (None, None) => true,
        _ => false,
    }
}

impl Absorb<Accepted> for Edition {
    type State = Edition;

    ghost state = { λ e. e };

    ghost applied = { taken_in };

    ghost never_fails = { Unit {0} };

    fn absorb_first(&mut self, operation: &Accepted, _other: &Edition) -> Result<(), AllocError> {
        self.live.apply(&operation.request);
        self.version = self.version.saturating_add(1);
        self.base = operation.before.again();
        self.last = Some(operation.request);
        Ok(())
    }
}
