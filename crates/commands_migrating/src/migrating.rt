//! A way between two configurations, looked for and written.
use crate::best::{requests_of, write_best};
use command_words::{DiffWords, MigrateWords};
use commands_comparing::{BothSides, sides_of};
use commands_files::{report_text, without_memory};
use migration_check::{Aim, entities_after};
use migration_draft::{Sides, has_tie};
use migration_search::{Found, migrate as look_for};
use omci_msg::Request;
use script_trace::Applied;
use std::alloc::{AllocError, Global};
use std::io::{BufWriter, Write};
use std::rt::Files;
use text_migrations::{Migration, write_migration};
use text_writing::{Status, TextFault};

/// The words of `diff` for the same two configurations.
fn diff_words<'a>(words: &MigrateWords<'a>) -> DiffWords<'a> {
    DiffWords {
        trace: words.trace,
        from: words.from,
        to: words.to,
        port: None,
        least: None,
        json: words.json,
    }
}

/// The identifier of the first message: the one that the words name, or the one behind the last of a trace.
fn first_identifier(words: &MigrateWords<'_>, before: &Applied) -> u16 {
    if let Some(identifier) = words.identifier {
        return identifier;
    }
    let accepted = before
        .accepted
        .last()
        .map(|each| (each.line, each.request.tci));
    let refused = before
        .refused
        .last()
        .map(|each| (each.line, each.request.tci));
    let last = match (accepted, refused) {
        (Some(one), Some(other)) => Some(if one.0 > other.0 { one.1 } else { other.1 }),
        (Some(one), None) => Some(one.1),
        (None, other) => other.map(|other| other.1),
    };
    last.unwrap_or(0).wrapping_add(1)
}

/// Of each of some requests whether two mappers, or two tables, name one port behind it.
fn ties_of(
    alloc: Global,
    sides: &Sides<'_>,
    requests: &[Request],
) -> Result<Vec<bool>, AllocError> {
    let mut here = entities_after(alloc, sides.earlier)?;
    let mut ties = Vec::with_capacity(alloc, requests.len())?;
    for request in requests {
        let _ = here.carry_out(request);
        ties.push(has_tie(sides.before, &here, sides.goal))?;
    }
    Ok(ties)
}

/// Writes the messages of a way.
fn write_way<W: Write>(
    alloc: Global,
    sides: &Sides<'_>,
    requests: &[Request],
    is_json: bool,
    writer: &mut W,
) -> Result<(), TextFault> {
    let ties = ties_of(alloc, sides, requests)?;
    let migration = Migration {
        requests,
        ties: &ties,
    };
    let Ok(mut gathered) = BufWriter::new(alloc, writer) else {
        return Err(TextFault::NoMemory);
    };
    write_migration(alloc, &migration, is_json, &mut gathered)?;
    gathered.flush().map_err(|_| TextFault::Write)?;
    Ok(())
}

/// Looks for a way and writes it, or says that none is found, and gives whether one is.
fn find_way<O: Write, E: Write>(
    alloc: Global,
    words: &MigrateWords<'_>,
    both: &BothSides,
    out: &mut O,
    err: &mut E,
) -> Result<bool, TextFault> {
    let earlier = requests_of(alloc, &both.before.accepted)?;
    let sides = Sides {
        earlier: &earlier,
        before: &both.before.mib,
        goal: &both.after.mib,
        aim: if words.leave {
            Aim::Frames
        } else {
            Aim::Instances
        },
        ties: !words.no_ties,
        identifier: first_identifier(words, &both.before),
    };
    match look_for(alloc, &sides)? {
        Found::Migration(requests, _) => {
            write_way(alloc, &sides, &requests, words.json, out)?;
            Ok(true)
        }
        Found::NoWay(best) => {
            write_best(alloc, &both.before, &best, err)?;
            Ok(false)
        }
    }
}

/// Writes messages that change one configuration into another, so that no frame is treated otherwise than by one of the two, to `out`; and why there
/// are none to `err`. It gives the status: that something is found where no way is.
pub fn migrate<R: Files + Alloc<A = Global>, O: Write, E: Write>(
    rt: &R,
    words: &MigrateWords<'_>,
    out: &mut O,
    err: &mut E,
) -> Status {
    let both = match sides_of(rt, &diff_words(words), err) {
        Ok(both) => both,
        Err(status) => return status,
    };
    match find_way(rt.alloc(), words, &both, out, err) {
        Ok(true) => Status::Done,
        Ok(false) => Status::Found,
        Err(TextFault::NoMemory) => without_memory(err),
        Err(fault) => report_text(Err(fault), err),
    }
}
