//! The management information base (MIB) of an optical network unit: the managed entities that OMCI messages create,
//! read and change (ITU-T G.988, clause 9), and one step of them.
//!
//! **What it is.** A [`Mib`] holds the instances of each class of managed entities and the MIB data sync. `step` carries
//! a request out and gives its reply. Contracts see a `Mib` as one value, `State`: its `Entities`, which are the sync and for
//! each class the list of its instances by ascending number, each with the bytes of its attributes; and the latched table.
//! The definition `step` over that value says what every request is answered and leaves.
//!
//! **A check, then a change.** `Mib::decide` says what a request is answered, and whether it is refused; nothing changes.
//! `result_of` asks it alone; `carry_out` asks it and then makes the change, which can't be refused. It says beside the reply
//! which instance it touched and whether the request was accepted ([`Carried`]); `step` gives its reply alone.
//!
//! **The latched table.** A Get that names the table of an instance also latches it: the bytes of its entries are copied
//! aside, and Get next reads them part by part, whatever happens to the instance. The latch is no entity.
//!
//! **Memory.** `Mib::new` makes every instance that there is room for, and the room of the latched table. Create takes one of
//! these instances and resets it, so a step takes no memory.
#![tactic(auto)]

ghost use Rattle.mib_state.specs.After.{AcceptedSuffice, ClassesAscend, LatchIsNoEntity, NextIsLeast};

mod attachment;
mod carried;
mod check;
mod held;
mod instances;
mod latch;
mod mib;
mod onu_data;
mod step;
mod store;
mod touch;

pub use attachment::{ASSOCIATION_MAPPER, ASSOCIATION_UNI, TP_TYPE_UNI};
pub use carried::Carried;
pub use held::HeldInstance;
pub use managed_entity::VlanConfig;
pub use mib::Mib;
pub use step::may_change;
pub use touch::Touch;

/// The entities after a list of requests are those after its accepted requests alone, and neither they nor what is accepted
/// depend on the latched table.
pub fn law_of_accepted()
    ensures suffice { AcceptedSuffice }
    ensures latch { LatchIsNoEntity }
{}

/// After every list of requests the instances of each class stand by ascending number. So the first number that isn't under
/// another, which [`Mib::next_instance`] gives, is the least such.
pub fn law_of_order()
    ensures ascending { ClassesAscend }
    ensures least { NextIsLeast }
{}
