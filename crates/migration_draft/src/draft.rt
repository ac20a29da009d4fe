//! Requests that are tried one after the other.
use crate::sides::Sides;
use crate::temporary::Temporary;
use crate::ties::has_tie;
use crate::watching::{Watched, watch};
use managed_entity::Class;
use mib_state::Mib;
use migration_check::entities_after;
use omci_msg::Request;
use std::alloc::{AllocError, Global};

/// More instances than a unit holds of a class.
pub const MOST_INSTANCES: usize = 256;

/// How much may be looked at in vain before a draft is given up, where another way may find more; and where the ways aside are left out.
const MOST_TEARS: u32 = 200;

const MOST_TEARS_WITHOUT_TIES: u32 = 4000;

/// What a look in vain counts: where an entry comes or goes, all frames of a port are looked at, and else those of the entry alone.
const ALL_FRAMES: u32 = 8;

const SOME_FRAMES: u32 = 1;

/// How many entries the table of a request has, if it names one.
fn count_entries(mib: &Mib, request: &Request) -> usize {
    if request.class != Class::Vlan.number() {
        return 0;
    }
    mib.vlan(request.instance)
        .map_or(0, |vlan| vlan.table.len())
}

/// Requests that were taken, one after the other, and what they lead to. None of the configurations on the way is torn.
#[derive(Drop)]
pub struct Draft<'a> {
    pub alloc: Global,
    pub sides: Sides<'a>,
    /// The requests that were taken.
    pub plan: Vec<Request>,
    /// The configuration that they lead to.
    pub here: Mib,
    /// What is made for the time of the way alone, and isn't done away with yet.
    pub temporaries: Vec<Temporary>,
    /// What ports did with frames behind the plan, or behind a part of it.
    watched: Vec<Watched>,
    /// How much was looked at in vain.
    tears: u32,
}

impl<'a> Draft<'a> {
    /// No request yet. Err where memory is refused.
    pub fn new(alloc: Global, sides: Sides<'a>) -> Result<Draft<'a>, AllocError> {
        Ok(Draft {
            alloc,
            sides,
            plan: Vec::new(alloc),
            here: entities_after(alloc, sides.earlier)?,
            temporaries: Vec::new(alloc),
            watched: Vec::new(alloc),
            tears: 0,
        })
    }

    /// The requests of a plan that was tried before, of which each was taken. Err where memory is refused.
    pub fn behind(
        alloc: Global,
        sides: Sides<'a>,
        plan: &[Request],
    ) -> Result<Draft<'a>, AllocError> {
        let mut draft = Draft::new(alloc, sides)?;
        for each in plan {
            draft.force(each)?;
        }
        Ok(draft)
    }

    /// Goes back to what the requests of the plan lead to.
    fn restore(&mut self) -> Result<(), AllocError> {
        let mut here = entities_after(self.alloc, self.sides.earlier)?;
        for each in &self.plan {
            let _ = here.carry_out(each);
        }
        self.here = here;
        Ok(())
    }

    /// Whether so much was looked at in vain that nothing more is tried.
    fn is_given_up(&self) -> bool {
        let most = if self.sides.ties {
            MOST_TEARS
        } else {
            MOST_TEARS_WITHOUT_TIES
        };
        self.tears > most
    }

    /// Whether what is here may stand on the way. Where it is torn, the look counts so much.
    fn may_stand(&mut self, count: u32) -> Result<bool, AllocError> {
        let (before, goal) = (self.sides.before, self.sides.goal);
        if !self.sides.ties && has_tie(before, &self.here, goal) {
            return Ok(false);
        }
        match watch(self.alloc, &self.sides, &self.here, &self.watched)? {
            Some(watched) => {
                self.watched = watched;
                Ok(true)
            }
            None => {
                self.tears = self.tears.saturating_add(count);
                Ok(false)
            }
        }
    }

    /// Takes a request into the plan, if it is accepted and what it leads to isn't torn. Err where memory is refused.
    pub fn take(&mut self, request: &Request) -> Result<bool, AllocError> {
        if self.is_given_up() || !self.here.accepts(request) {
            return Ok(false);
        }
        let held = count_entries(&self.here, request);
        let _ = self.here.carry_out(request);
        let count = if count_entries(&self.here, request) == held {
            SOME_FRAMES
        } else {
            ALL_FRAMES
        };
        if self.may_stand(count)? {
            self.plan.push(*request)?;
            return Ok(true);
        }
        self.restore()?;
        Ok(false)
    }

    /// Takes a request into the plan, if it is accepted, whatever is torn behind it. Err where memory is refused.
    pub fn force(&mut self, request: &Request) -> Result<bool, AllocError> {
        if !self.here.carry_out(request).accepted {
            return Ok(false);
        }
        self.plan.push(*request)?;
        Ok(true)
    }

    /// Gives requests up that were taken last, down to so many, and what was made for the time of the way last, down to so many. Err where memory is refused.
    pub fn cut(&mut self, count: usize, temporaries: usize) -> Result<(), AllocError> {
        self.plan.truncate(count);
        self.temporaries.truncate(temporaries);
        self.watched = Vec::new(self.alloc);
        self.restore()
    }
}

/// The numbers of the instances of a class in a configuration, in order. Err where memory is refused.
pub fn numbers_of(alloc: Global, mib: &Mib, class: Class) -> Result<Vec<u16>, AllocError> {
    let mut numbers = Vec::new(alloc);
    for place in 0..MOST_INSTANCES {
        let Some(held) = mib.instance_at(class.number(), place) else {
            break;
        };
        numbers.push(held.number())?;
    }
    Ok(numbers)
}

/// Whether a configuration has an instance.
pub fn has(mib: &Mib, class: Class, number: u16) -> bool {
    mib.place_of(class.number(), number).is_some()
}
