//! The ways, one after the other.
ghost use Rattle.std.specs.Prelude.{IfOk};
ghost use Rattle.mib_state.specs.After.{after};
ghost use Rattle.migration_search.specs.Found.{IsFound};

use crate::found::{Found, Way};
use migration_asides::{make_chain_aside, make_mapper_aside, make_table_aside};
use migration_check::{Aim, Wanted, is_migration};
use migration_draft::{Draft, Sides};
use migration_steps::{Came, Splitting, find_understudy, finish, force, least_of};
use omci_msg::Request;
use std::alloc::{AllocError, Global};

/// How often understudies help where nothing may be next: there are no more entries that move.
const MOST_UNDERSTUDIES: u32 = 300;

/// How often another way helps.
const MOST_ASIDES: u32 = 2;

impl Way {
    /// All ways, in the order in which they are tried: first with whole Sets, and then with steps attribute by attribute.
    const TRIES: [(Way, Splitting); 12] = [
        (Way::InPlace, Splitting::Whole),
        (Way::Understudy, Splitting::Whole),
        (Way::ChainAside, Splitting::Whole),
        (Way::MapperAside, Splitting::Whole),
        (Way::TableAside, Splitting::Whole),
        (Way::BothAside, Splitting::Whole),
        (Way::InPlace, Splitting::ByAttributes),
        (Way::Understudy, Splitting::ByAttributes),
        (Way::ChainAside, Splitting::ByAttributes),
        (Way::MapperAside, Splitting::ByAttributes),
        (Way::TableAside, Splitting::ByAttributes),
        (Way::BothAside, Splitting::ByAttributes),
    ];

    /// How often it helps where nothing may be next.
    fn most_helps(self) -> u32 {
        match self {
            Way::InPlace => 0,
            Way::Understudy => MOST_UNDERSTUDIES,
            _ => MOST_ASIDES,
        }
    }

    /// Whether it lets two mappers, or two tables, name one port.
    fn ties(self) -> bool {
        matches!(self, Way::MapperAside | Way::TableAside | Way::BothAside)
    }

    /// Helps a draft on where nothing may be next, and gives whether it did.
    fn help(self, draft: &mut Draft<'_>) -> Result<bool, AllocError> {
        match self {
            Way::InPlace => Ok(false),
            Way::Understudy => find_understudy(draft),
            Way::ChainAside => make_chain_aside(draft),
            Way::MapperAside => make_mapper_aside(draft, false),
            Way::TableAside => make_table_aside(draft),
            Way::BothAside => make_mapper_aside(draft, true),
        }
    }
}

/// Whether a draft leads to the goal as far as it came: where frames alone count, it may although something is left to do.
fn is_enough(draft: &Draft<'_>) -> Result<bool, AllocError> {
    let sides = draft.sides;
    if sides.aim == Aim::Instances {
        return Ok(false);
    }
    is_migration(draft.alloc, sides.earlier, &draft.plan, &sides.wanted())
}

/// The requests of a draft whose last steps are split, if it comes through.
fn split(mut draft: Draft<'_>) -> Result<Option<Vec<Request>>, AllocError> {
    let came = finish(&mut draft, Splitting::ByAttributes)?;
    if came == Came::Through || is_enough(&draft)? {
        return Ok(Some(least_of(draft)?));
    }
    Ok(None)
}

/// Requests that lead to the goal by a way, if it finds some. The first are those that may be taken in place, behind which it helps.
fn by_way(
    alloc: Global,
    sides: Sides<'_>,
    first: &[Request],
    way: Way,
    splitting: Splitting,
) -> Result<Option<Vec<Request>>, AllocError> {
    let mut draft = Draft::behind(alloc, sides, first)?;
    let mut has_helped = way == Way::InPlace;
    for _ in 0..way.most_helps() {
        if !way.help(&mut draft)? {
            break;
        }
        has_helped = true;
        if finish(&mut draft, Splitting::Whole)? == Came::Through {
            return Ok(Some(least_of(draft)?));
        }
    }
    if has_helped && splitting == Splitting::ByAttributes {
        return split(draft);
    }
    Ok(None)
}

/// The requests, numbered one after the other.
fn numbered(alloc: Global, requests: &[Request], first: u16) -> Result<Vec<Request>, AllocError> {
    let mut list = Vec::with_capacity(alloc, requests.len())?;
    let mut identifier = first;
    for request in requests {
        let mut each = *request;
        each.tci = identifier;
        identifier = identifier.wrapping_add(1);
        list.push(each)?;
    }
    Ok(list)
}

/// What is done in place, whatever is torn on the way.
fn forced(alloc: Global, sides: Sides<'_>, first: &[Request]) -> Result<Vec<Request>, AllocError> {
    let mut draft = Draft::behind(alloc, sides, first)?;
    force(&mut draft)?;
    numbered(alloc, &draft.plan, sides.identifier)
}

/// What may be taken in place, and whether it leads to the goal.
fn in_place(alloc: Global, sides: Sides<'_>) -> Result<(Vec<Request>, Came), AllocError> {
    let mut draft = Draft::new(alloc, sides)?;
    let came = finish(&mut draft, Splitting::Whole)?;
    let first = if came == Came::Through {
        least_of(draft)?
    } else {
        Vec::from_slice(alloc, &draft.plan)?
    };
    Ok((first, came))
}

/// Requests that lead to the goal by a way, if it finds some; in place the first ones, if they do.
fn candidate(
    alloc: Global,
    sides: Sides<'_>,
    first: &[Request],
    came: Came,
    (way, splitting): (Way, Splitting),
) -> Result<Option<Vec<Request>>, AllocError> {
    if way == Way::InPlace && came == Came::Through {
        return Ok(Some(Vec::from_slice(alloc, first)?));
    }
    by_way(alloc, sides, first, way, splitting)
}

/// Looks for a way from one configuration to another on which no frame is torn. What is found is a migration (migration_check): each request is accepted in
/// its turn, they lead to the goal, and no configuration between is torn for any frame at any port. Where none is found there may be one all the same.
/// Err only where memory is refused.
pub fn migrate(alloc: Global, sides: &Sides<'_>) -> Result<Found, AllocError>
    ensures { IfOk result (IsFound sides.now.aim (after sides.now.earlier.now)
        sides.now.goal.now.entities) }
{
    let (first, came) = in_place(alloc, *sides)?;
    for (way, splitting) in Way::TRIES {
        if way.ties() && !sides.ties {
            continue;
        }
        let Some(requests) = candidate(alloc, *sides, &first, came, (way, splitting))? else {
            continue;
        };
        let requests = numbered(alloc, &requests, sides.identifier)?;
        let wanted = Wanted {
            goal: sides.goal,
            aim: sides.aim,
        };
        let is_way = is_migration(alloc, sides.earlier, &requests, &wanted)?;
        if is_way {
            return Ok(Found::Migration(requests, way));
        }
    }
    let nearest = forced(alloc, *sides, &first)?;
    Ok(Found::NoWay(nearest))
}
