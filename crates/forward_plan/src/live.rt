//! The managed entities with what is compiled of them.
ghost use Rattle.std.specs.Prelude.{◌≡◌, IfOk};
ghost use Rattle.mib_state.specs.Entities.{nothing};
ghost use Rattle.mib_state.specs.Step.{left};

use crate::compiled::Compiled;
use crate::plan::Plan;
use frame_meaning::Verdict;
use mib_state::{Mib, Touch};
use omci_msg::{Action, Request};
use port_plan::PortPlan;
use std::alloc::{AllocError, Global};
use std::marker::Model;

/// The managed entities with what is compiled of them: for each table its index and treatments, for each mapper its routes, and
/// for each port what is attached to it. What is compiled is always that of the entities, by the type.
#[derive(Drop)]
pub struct Live {
    mib: Mib,
    plan: Plan,
    // How many tables and mappers were compiled last.
    rebuilt: Compiled,
}

impl Model for Live {
    ghost use Rattle.mib_state.specs.Entities.{Entities};
    ghost use Rattle.forward_plan.specs.Compiled.{IsCompiled};

    ghost Value = { Entities };

    ghost view = { λ live. live.mib.entities };

    ghost invariant = { λ live. IsCompiled live.mib.entities live.plan };
}

impl Live {
    ghost use Rattle.port_plan.specs.Leaving.{IsPlanOf};
    ghost use Rattle.frame_meaning.specs.Meaning.{meaning};
    ghost use Rattle.frame_meaning.specs.Size.{LeavesLittleMore};
    ghost use Rattle.forward_plan.specs.Compiled.{IsCompiled};

    /// No instance, and sync 0, with room for all that there may be.
    pub fn new(alloc: Global) -> Result<Self, AllocError>
        ensures { IfOk result (λ live. live ≡ nothing) }
    {
        Ok(Live {
            mib: Mib::new(alloc)?,
            plan: Plan::new(alloc)?,
            rebuilt: Compiled::NOTHING,
        })
    }

    /// Carries a request out, as a step of the entities does. It compiles again only what read the instance that changed: its
    /// table, or the routes that lead by it. After a Set it looks up only the ports that the changed instance points to, or
    /// pointed to. Where a table or a mapper came or went, others take other places, so it looks up each port that any of them
    /// points to, or pointed to. A request that isn't accepted changes no entity. It takes no memory.
    pub fn apply(&mut self, request: &Request)
        ensures { self.new ≡ left request.now.action self.old request.now }
    {
        let touch = self.mib.carry_out(request).touch;
        self.rebuilt = match touch {
            Touch::Nothing => Compiled::NOTHING,
            Touch::One { class, instance } if matches!(request.action, Action::Set) => {
                self.plan.set(&self.mib, class, instance)
            }
            Touch::One { class, instance } => self.plan.follow_one(&self.mib, class, instance),
            Touch::All => self.plan.compile(&self.mib),
        };
    }

    /// Compiles all ports, tables and mappers anew, each table with its index, markings and treatments, whatever was compiled before.
    /// The entities stay, and so does what is compiled of them: [`plan`](Live::plan) says that it is theirs, and
    /// [`law_of_compiled`](crate::law_of_compiled) that they determine it. So no verdict changes. It takes no memory.
    pub fn recompile(&mut self)
        ensures { self.new ≡ self.old }
    {
        self.rebuilt = self.plan.compile(&self.mib);
    }

    /// How many tables and how many mappers the last [`apply`](Live::apply) or [`recompile`](Live::recompile) compiled. No
    /// contract speaks of it: it shows what was spared.
    pub fn rebuilt(&self) -> Compiled {
        self.rebuilt
    }

    /// The managed entities.
    pub fn mib(&self) -> &Mib
        ensures { result.now.entities ≡ self.now }
    {
        &self.mib
    }

    /// What is compiled of the entities, after any requests and after [`recompile`](Live::recompile): each table and each mapper,
    /// also those that no port reaches, and what is attached to each port.
    pub fn plan(&self) -> &Plan
        ensures { IsCompiled self.now result.now }
    {
        &self.plan
    }

    /// The plan of a port. Who has many frames of a port asks for it once.
    #[inline(always)]
    pub fn port(&self, port: u16) -> PortPlan<'_>
        ensures { IsPlanOf self.now port result }
    {
        self.plan.port(port)
    }

    /// What becomes of a frame that comes in at a port. It takes no memory, and the verdict borrows the frame alone.
    #[inline(always)]
    pub fn forward<'a>(&self, port: u16, bytes: &'a [u8]) -> Verdict<'a>
        ensures verdict { result ≡ meaning self.now port bytes.now }
        ensures size { LeavesLittleMore bytes.now result }
    {
        self.port(port).forward(bytes)
    }
}
