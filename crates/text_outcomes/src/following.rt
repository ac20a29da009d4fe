//! Expectations that are checked by each version from a line of a trace on.
ghost use Rattle.std.specs.Prelude.{◌≤◌, length};

use crate::asked::Asked;
use crate::list::OutcomeList;
use crate::said::{Moment, Said, Version};
use expectation_check::{Outcome, check};
use frame_rows::Rows;
use mib_state::Mib;
use script_trace::Accepted;
use std::alloc::{AllocError, Global};
use text_expectations::ExpectedLine;

/// A port of which expectations speak, and what it means for frames by the version that was looked at last.
#[derive(Drop)]
struct Watched {
    port: u16,
    rows: Rows,
    /// Whether it means something else than by the version before.
    is_changed: bool,
}

/// An expectation, and what is said of it where a version is found by which it doesn't hold.
#[derive(Drop)]
pub(crate) struct Followed {
    pub(crate) expected: ExpectedLine,
    pub(crate) said: Option<Said>,
}

/// Whether a port means the same for every frame.
fn are_same(one: &Rows, other: &Rows) -> bool {
    one.rows == other.rows && one.settings == other.settings && one.endings == other.endings
}

impl Watched {
    /// Goes on to a version.
    fn follow(&mut self, alloc: Global, mib: &Mib) -> Result<(), AllocError> {
        let rows = Rows::of(alloc, mib, self.port)?;
        self.is_changed = !are_same(&rows, &self.rows);
        self.rows = rows;
        Ok(())
    }
}

/// The ports of which expectations speak, each once, before the first version is looked at.
fn watched_of(
    alloc: Global,
    mib: &Mib,
    lines: &[ExpectedLine],
) -> Result<Vec<Watched>, AllocError> {
    let mut watched: Vec<Watched> = Vec::new(alloc);
    for line in lines {
        let port = line.expectation.port;
        if watched.iter().any(|each| each.port == port) {
            continue;
        }
        watched.push(Watched {
            port,
            rows: Rows::of(alloc, mib, port)?,
            is_changed: true,
        })?;
    }
    Ok(watched)
}

/// Expectations, each of which holds so far.
fn followed_of(alloc: Global, lines: &[ExpectedLine]) -> Result<Vec<Followed>, AllocError> {
    let mut followed = Vec::with_capacity(alloc, lines.len())?;
    for line in lines {
        followed.push(Followed {
            expected: *line,
            said: None,
        })?;
    }
    Ok(followed)
}

impl Followed {
    /// Checks it by a version, unless it didn't hold by one before, or its port means what it did.
    fn look(
        &mut self,
        alloc: Global,
        moment: &Moment<'_>,
        watched: &[Watched],
        least: usize,
        list: &OutcomeList,
    ) -> Result<(), AllocError> {
        let expectation = &self.expected.expectation;
        let is_changed = |each: &Watched| each.is_changed && each.port == expectation.port;
        if self.said.is_some() || !watched.iter().any(is_changed) {
            return Ok(());
        }
        let outcome = check(alloc, moment.mib, expectation, least)?;
        if !matches!(outcome, Outcome::Holds) {
            self.said = Some(list.said(&self.expected, &outcome, moment)?);
        }
        Ok(())
    }
}

/// Expectations that are followed, and the ports of which they speak.
#[derive(Drop)]
struct Following {
    watched: Vec<Watched>,
    followed: Vec<Followed>,
    /// How many bytes a frame has at least.
    least: usize,
}

impl Following {
    /// Before the first version is looked at.
    fn at(alloc: Global, mib: &Mib, asked: &Asked<'_>) -> Result<Following, AllocError> {
        Ok(Following {
            watched: watched_of(alloc, mib, asked.lines)?,
            followed: followed_of(alloc, asked.lines)?,
            least: usize::from(asked.least),
        })
    }

    /// Goes on to a version with each port.
    fn go_on(&mut self, alloc: Global, mib: &Mib) -> Result<(), AllocError> {
        for each in self.watched.iter_mut() {
            each.follow(alloc, mib)?;
        }
        Ok(())
    }

    /// Checks the expectations by a version.
    fn look(
        &mut self,
        alloc: Global,
        mib: &Mib,
        version: Version,
        list: &OutcomeList,
    ) -> Result<(), AllocError> {
        let moment = Moment {
            mib,
            version: Some(version),
        };
        for each in self.followed.iter_mut() {
            each.look(alloc, &moment, &self.watched, self.least, list)?;
        }
        Ok(())
    }
}

/// How many requests stand up to a line, of those that were accepted in this order.
fn count_until(accepted: &[Accepted], line: u64) -> usize
    ensures { result ≤ length accepted.now }
{
    let behind = accepted.iter().position(|each| each.line > line);
    behind.unwrap_or(accepted.len()).min(accepted.len())
}

/// The version that requests lead to, which were accepted in this order.
fn version_of(accepted: &[Accepted]) -> Version {
    Version {
        number: accepted.len() as u64,
        line: accepted.last().map_or(0, |each| each.line),
    }
}

/// The managed entities that requests lead to, which were accepted in this order.
fn entities_of(alloc: Global, accepted: &[Accepted]) -> Result<Mib, AllocError> {
    let mut mib = Mib::new(alloc)?;
    for each in accepted {
        let _ = mib.carry_out(&each.request);
    }
    Ok(mib)
}

/// Expectations, each with what is said of it by the first version from a line on by which it doesn't hold.
pub(crate) fn follow(
    alloc: Global,
    accepted: &[Accepted],
    from: u64,
    asked: &Asked<'_>,
    list: &OutcomeList,
) -> Result<Vec<Followed>, AllocError> {
    let (earlier, later) = accepted.split_at(count_until(accepted, from));
    let mut mib = entities_of(alloc, earlier)?;
    let mut version = version_of(earlier);
    let mut following = Following::at(alloc, &mib, asked)?;
    following.look(alloc, &mib, version, list)?;
    for each in later {
        let _ = mib.carry_out(&each.request);
        version = Version {
            number: version.number.saturating_add(1),
            line: each.line,
        };
        following.go_on(alloc, &mib)?;
        following.look(alloc, &mib, version, list)?;
    }
    Ok(following.followed)
}
