//! A port that is watched over a change: what it does with frames at each moment as neither the beginning nor the end does.
use crate::links::Links;
use frame_classes::{Tear, Use, torn, torn_by};
use frame_rows::{Row, Rows};
use mib_state::{Mib, Touch};
use std::alloc::{AllocError, Global};
use std::mem::replace;
use text_differences::{Moment, ShownTear};

/// A port, and what it does with frames: as the change begins, at the moment that was looked at last, and as it ends. Frames are looked for
/// only where it means something else than it did.
#[derive(Drop)]
pub(crate) struct Watched {
    pub(crate) port: u16,
    /// On which managed entities it hangs what it does with frames at the moment that was looked at last.
    links: Links,
    before: Rows,
    here: Rows,
    after: Rows,
    /// The frames for which the moment is torn that was looked at last.
    pub(crate) tears: Vec<ShownTear>,
}

/// Whether a port means the same for every frame.
fn are_same(one: &Rows, other: &Rows) -> bool {
    one.rows == other.rows && one.settings == other.settings && one.endings == other.endings
}

/// Whether a port means the same but for what becomes of frames by its rows: each frame has the row at one place in both.
fn are_asked_alike(one: &Rows, other: &Rows) -> bool {
    one.rows.len() == other.rows.len()
        && one.settings == other.settings
        && one.endings == other.endings
        && one.rows.iter().zip(other.rows.iter()).all(|(row, beside)| row.used == beside.used
            && row.asks == beside.asks)
}

/// What the table uses where the rows at one place differ.
fn uses_apart(alloc: Global, rows: &[Row], others: &[Row]) -> Result<Vec<Use>, AllocError> {
    let mut uses = Vec::new(alloc);
    for (row, beside) in rows.iter().zip(others.iter()) {
        if row != beside && !uses.contains(&row.used) {
            uses.push(row.used)?;
        }
    }
    Ok(uses)
}

/// The place of a tear among others.
fn order(shown: &ShownTear) -> (u32, u32, u32) {
    let tear = &shown.tear;
    (
        tear.before.number(),
        tear.here.number(),
        tear.after.number(),
    )
}

/// Puts tears behind others, as they are shown.
fn show(
    alloc: Global,
    moment: &Moment<'_>,
    port: u16,
    tears: Vec<Tear>,
    shown: &mut Vec<ShownTear>,
) -> Result<(), AllocError> {
    for tear in tears {
        shown.push(ShownTear::of(alloc, moment, port, tear)?)?;
    }
    Ok(())
}

impl Watched {
    /// A port at the beginning of a change between two configurations.
    pub(crate) fn at(
        alloc: Global,
        before: &Mib,
        after: &Mib,
        port: u16,
    ) -> Result<Watched, AllocError> {
        Ok(Watched {
            port,
            links: Links::of(before, port),
            before: Rows::of(alloc, before, port)?,
            here: Rows::of(alloc, before, port)?,
            after: Rows::of(alloc, after, port)?,
            tears: Vec::new(alloc),
        })
    }

    /// Whether the step to a moment may have changed what the port does with frames: it touched an instance on which that hung before, or hangs
    /// now.
    fn is_touched(&mut self, here: &Mib, touch: Touch) -> bool {
        let Touch::One { class, instance } = touch else {
            return !matches!(touch, Touch::Nothing);
        };
        let last = replace(&mut self.links, Links::of(here, self.port));
        last.has(class, instance) || self.links.has(class, instance)
    }

    /// Looks at a moment of the change, which a step led to that touched this, for frames of so many bytes at least. A port that it didn't touch stays as
    /// it was decided.
    pub(crate) fn follow(
        &mut self,
        alloc: Global,
        moment: &Moment<'_>,
        touch: Touch,
        least: usize,
    ) -> Result<(), AllocError> {
        if self.is_touched(moment.here, touch) {
            return self.look(alloc, moment, least);
        }
        Ok(())
    }

    /// Whether the moment that is looked at is as the beginning or as the end, so that it is torn for no frame.
    fn is_as_either(&self) -> bool {
        are_same(&self.here, &self.before) || are_same(&self.here, &self.after)
    }

    /// Looks at a moment of the change, for frames of so many bytes at least.
    fn look(&mut self, alloc: Global, moment: &Moment<'_>, least: usize) -> Result<(), AllocError> {
        let rows = Rows::of(alloc, moment.here, self.port)?;
        if are_same(&rows, &self.here) {
            return Ok(());
        }
        let last = replace(&mut self.here, rows);
        if self.is_as_either() {
            self.tears = Vec::new(alloc);
            return Ok(());
        }
        if are_asked_alike(&self.here, &last) {
            let uses = uses_apart(alloc, &self.here.rows, &last.rows)?;
            return self.look_again(alloc, moment, least, &uses);
        }
        let (before, after) = (moment.before, moment.after);
        let found = torn(alloc, before, moment.here, after, self.port, least)?;
        self.tears = Vec::new(alloc);
        show(alloc, moment, self.port, found, &mut self.tears)
    }

    /// Looks again at the frames that the table uses so. Of the others nothing has changed since the moment before.
    fn look_again(
        &mut self,
        alloc: Global,
        moment: &Moment<'_>,
        least: usize,
        uses: &[Use],
    ) -> Result<(), AllocError> {
        self.tears
            .retain(|shown| !uses.contains(&shown.tear.here.used));
        let (before, after) = (moment.before, moment.after);
        for used in uses {
            let found = torn_by(alloc, before, moment.here, after, self.port, least, *used)?;
            show(alloc, moment, self.port, found, &mut self.tears)?;
        }
        self.tears.sort_by_key(order)
    }
}
