//! The unit.
ghost use Rattle.std.specs.Prelude.{◌≡◌, IfOk, false};
ghost use Rattle.forward_plan.specs.Compiled.{IsBehind, IsCompiled};
ghost use Rattle.frame_meaning.specs.Meaning.{meaning};
ghost use Rattle.frame_meaning.specs.Size.{LeavesLittleMore};
ghost use Rattle.mib_upload.specs.Upload.{answered, start};
ghost use Rattle.onu_unit.specs.Ends.{KeepsEnds};
ghost use Rattle.onu_unit.specs.Unit.{message_answered};

use forward_plan::{Plan, Verdict};
use mib_state::{Mib, Touch};
use mib_upload::Desk;
use omci_msg::{MsgFault, Reply, Request, read};
use std::alloc::{AllocError, Global};
use std::marker::Model;

/// An optical network unit. A desk answers its messages; frames leave by the plan that is compiled of the desk's entities. The unit
/// is seen as the state of the desk.
#[derive(Drop)]
pub struct Unit {
    desk: Desk,
    plan: Plan,
    // Whether the plan lags behind the entities.
    is_behind: bool,
}

impl Model for Unit {
    ghost use Rattle.std.specs.Prelude.{◌≡◌, false};
    ghost use Rattle.forward_plan.specs.Compiled.{IsBehind, IsCompiled};
    ghost use Rattle.mib_upload.specs.Upload.{DeskState};

    ghost Value = { DeskState };

    ghost view = { λ unit. unit.desk };

    ghost invariant = { λ unit.
        IsBehind unit.desk.mib.entities unit.plan
        × (unit.is_behind ≡ false → IsCompiled unit.desk.mib.entities unit.plan) };
}

impl Unit {
    /// A unit without any instance, with all the memory that it will need.
    pub fn new(alloc: Global) -> Result<Self, AllocError>
        ensures { IfOk result (λ unit. unit ≡ start) }
    {
        Ok(Unit {
            desk: Desk::new(alloc)?,
            plan: Plan::new(alloc)?,
            is_behind: false,
        })
    }

    /// The managed entities.
    pub fn mib(&self) -> &Mib
        ensures { result.now ≡ self.now.mib }
    {
        self.desk.mib()
    }

    /// Carries a request out, and answers it.
    pub fn answer(&mut self, request: &Request) -> Reply
        ensures reply { result ≡ (answered self.old request.now).0 }
        ensures after { self.new ≡ (answered self.old request.now).1 }
    {
        let carried = self.desk.carry_out(request);
        match carried.touch {
            Touch::Nothing => {}
            touch => {
                self.plan.invalidate(touch);
                self.is_behind = true;
            }
        }
        carried.reply
    }

    /// Carries out the request that a message asks, and gives the reply, where one is wanted. A message with a fault changes
    /// nothing.
    pub fn message(&mut self, bytes: &[u8]) -> Result<Option<Reply>, MsgFault>
        ensures answer { result ≡ (message_answered self.old bytes.now).0 }
        ensures after { self.new ≡ (message_answered self.old bytes.now).1 }
    {
        let request = read(bytes)?;
        let reply = self.answer(&request);
        Ok(request.wanted_reply(reply))
    }

    /// What becomes of a frame that comes in at a port. The verdict borrows the frame alone. A frame that leaves has the addresses of
    /// the one that came in, and its last bytes as its rest.
    #[tactic(auto, using(crate::proofs::Ends::meaning_keeps))]
    #[inline(always)]
    pub fn forward<'a>(&mut self, port: u16, bytes: &'a [u8]) -> Verdict<'a>
        ensures verdict { result ≡ meaning self.old.mib.entities port bytes.now }
        ensures size { LeavesLittleMore bytes.now result }
        ensures ends { KeepsEnds bytes.now result }
        ensures same { self.new ≡ self.old }
    {
        catch_up(&mut self.plan, self.is_behind, self.desk.mib());
        self.is_behind = false;
        self.plan.port(port).forward(bytes)
    }
}

/// Has a plan catch up with entities that it may lag behind.
fn catch_up(plan: &mut Plan, is_behind: bool, mib: &Mib)
    requires behind { IsBehind mib.now.entities plan.old }
    requires current { is_behind ≡ false → IsCompiled mib.now.entities plan.old }
    ensures { IsCompiled mib.now.entities plan.new }
{
    if is_behind {
        let _ = plan.refresh(mib);
    }
}
