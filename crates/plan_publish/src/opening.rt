//! A control and its lanes.
ghost use Rattle.std.specs.Prelude.{◌≡◌, [], drop, ◌<◌, ◌≤◌, ◌↔◌, ℕ, Some, IfOk, IsErrOf, IfSome, vec_len, vec_capacity, slice_get};
ghost use Rattle.left_right.specs.Sides.{view};
ghost use Rattle.mib_upload.specs.Upload.{start};
ghost use Rattle.plan_publish.specs.History.{key_of};
ghost use Rattle.plan_publish.specs.Lane.{IsNew, most_lanes};
ghost use Rattle.plan_publish.specs.Publisher.{Stands, WriterStands};
ghost use Rattle.plan_publish.specs.World.{opening};
ghost use Rattle.plan_publish.specs.Shown.{Shows};

use crate::control::Control;
use crate::edition::Edition;
use crate::fault::OpenFault;
use crate::history::{Prefix, new_history};
use crate::lane::Lane;
use crate::publisher::{PlanWriter, Publisher, publish_now};
use crate::rule::Notes;
use left_right::writer::Writer;
use mib_upload::Desk;
use std::alloc::{AllocError, Global};
use std::sync::Wait;

/// The most lanes that there can be.
const MOST_LANES: u16 = 16;

/// A lane that knows which history it is of.
fn make_lane(writer: &mut PlanWriter, number: u16, history: &Prefix) -> Result<Lane, AllocError>
    requires { ((view writer.old.desk.place).home ≡ Some (key_of history.now.seen.book))
        × (history.now.seen.log ≡ []) }
    ensures lane { IfOk result (λ l. IsNew l number history.now.seen.book) }
    ensures writer { (writer.new.desk.shown ≡ writer.old.desk.shown)
        × (view writer.new.desk.place ≡ view writer.old.desk.place)
        × (writer.new.log ≡ writer.old.log) × (writer.new.behind ≡ writer.old.behind) }
{
    let mut reader = writer.factory().reader()?;
    reader.learn::<Notes>(writer.tell::<Notes>());
    Ok(Lane::new(reader, number, history.again()))
}

/// So many lanes, with the numbers from 0.
fn make_lanes(
    writer: &mut PlanWriter,
    mut all: Vec<Lane>,
    lanes: u16,
    history: &Prefix,
) -> Result<Vec<Lane>, AllocError>
    requires room { (vec_len all ≡ 0) × (lanes ≤ vec_capacity all) }
    requires home { ((view writer.old.desk.place).home ≡ Some (key_of history.now.seen.book))
        × (history.now.seen.log ≡ []) }
    ensures lanes { IfOk result (λ all. (vec_len all ≡ lanes)
        × ((k : ℕ) → k < lanes
        → IfSome (slice_get all.items k) (λ l. IsNew l k history.now.seen.book))) }
    ensures writer { (writer.new.desk.shown ≡ writer.old.desk.shown)
        × (view writer.new.desk.place ≡ view writer.old.desk.place)
        × (writer.new.log ≡ writer.old.log) × (writer.new.behind ≡ writer.old.behind) }
{
    for number in 0..lanes {
        all.push_reserved(make_lane(writer, number, history)?);
    }
    Ok(all)
}

/// A writer of two copies without an instance.
fn new_writer(alloc: Global, history: &Prefix, lanes: u16) -> Result<PlanWriter, AllocError>
    requires lanes { (0 < lanes) × (lanes ≤ most_lanes) }
    requires history { history.now.seen.log ≡ [] }
    ensures stands { IfOk result (λ w. WriterStands w) }
    ensures nothing { IfOk result (λ w. ((view w.desk.place).published ≡ [])
        × (drop w.behind w.log.items ≡ [])) }
    ensures book { IfOk result (λ w. w.desk.shown.value.base.seen.book ≡ history.now.seen.book) }
{
    let first = Edition::new(alloc, history.again())?;
    let second = Edition::new(alloc, history.again())?;
    Writer::new(alloc, first, second, usize::from(lanes))
}

/// The writer and the lanes. It publishes once, so that the writer, and by it each lane, knows which history it is of.
fn with_lanes<R: Wait>(
    rt: &R,
    writer: PlanWriter,
    all: Vec<Lane>,
    lanes: u16,
    history: &Prefix,
) -> Result<(PlanWriter, Vec<Lane>), AllocError>
    requires stands { WriterStands writer }
    requires nothing { ((view writer.desk.place).published ≡ [])
        × (drop writer.behind writer.log.items ≡ []) × (history.now.seen.log ≡ []) }
    requires book { writer.desk.shown.value.base.seen.book ≡ history.now.seen.book }
    requires room { (vec_len all ≡ 0) × (lanes ≤ vec_capacity all) }
    ensures stands { IfOk result (λ t. Stands t.0.desk.shown.value (view t.0.desk.place) []) }
    ensures nothing { IfOk result (λ t. ((view t.0.desk.place).published ≡ [])
        × (drop t.0.behind t.0.log.items ≡ [])) }
    ensures home { IfOk result (λ t. ((view t.0.desk.place).home
        ≡ Some (key_of history.now.seen.book))
        × (t.0.desk.shown.value.base.seen.book ≡ history.now.seen.book)) }
    ensures lanes { IfOk result (λ t. (vec_len t.1 ≡ lanes)
        × ((k : ℕ) → k < lanes
        → IfSome (slice_get t.1.items k) (λ l. IsNew l k history.now.seen.book))) }
{
    let (mut writer, ()) = publish_now(writer, rt);
    match make_lanes(&mut writer, all, lanes, history) {
        Ok(all) => Ok((writer, all)),
        Err(error) => {
            writer.take(rt);
            Err(error)
        }
    }
}

/// Room for so many lanes.
fn room_for(alloc: Global, lanes: u16) -> Result<Vec<Lane>, AllocError>
    ensures { IfOk result (λ all. (vec_len all ≡ 0) × (lanes ≤ vec_capacity all)) }
{
    let mut all = Vec::new(alloc);
    all.reserve(usize::from(lanes))?;
    Ok(all)
}

/// Opens a control with 1 to 16 lanes, with the numbers from 0. No instance is held, no request is accepted and none learnt, and
/// the version is 0. Any other number of lanes is refused before memory is asked for.
pub fn open<R: Wait>(rt: &R, alloc: Global, lanes: u16) -> Result<(Control, Vec<Lane>), OpenFault>
    ensures lanes_fault { (n : ℕ) → IsErrOf result (OpenFault.Lanes n)
        ↔ (n ≡ lanes) × ¬ ((0 < lanes) × (lanes ≤ most_lanes)) }
    ensures control { IfOk result (λ t.
        t.0 ≡ record { desk = start; published = []; pending = []; home = t.0.home }) }
    ensures lanes { IfOk result (λ t. (vec_len t.1 ≡ lanes)
        × ((k : ℕ) → k < lanes → IfSome (slice_get t.1.items k) (λ l. IsNew l k t.0.home))) }
    ensures world { IfOk result (λ t. Shows t.0 opening) }
{
    if lanes < 1 || lanes > MOST_LANES {
        return Err(OpenFault::Lanes(lanes));
    }
    let (head, history) = new_history();
    let Ok(all) = room_for(alloc, lanes) else {
        return Err(OpenFault::NoMemory);
    };
    let Ok(desk) = Desk::new(alloc) else {
        return Err(OpenFault::NoMemory);
    };
    let Ok(writer) = new_writer(alloc, &history, lanes) else {
        return Err(OpenFault::NoMemory);
    };
    let Ok((writer, all)) = with_lanes(rt, writer, all, lanes, &history) else {
        return Err(OpenFault::Refused);
    };
    Ok((
        Control::new(desk, Publisher::new(writer, head, history)),
        all,
    ))
}
