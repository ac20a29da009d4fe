//! The plain walk: from the managed entities to what becomes of one frame, entity by entity.
ghost use Rattle.std.specs.Prelude.{◌≡◌, IfOk};
ghost use Rattle.frame_meaning.specs.Meaning.{forwarded_by, meaning};
ghost use Rattle.frame_meaning.specs.Size.{GrowsLittle, LeavesLittleMore};

use crate::gem_port::gem_port_at;
use crate::out_frame::OutFrame;
use crate::reason::Reason;
use crate::table::{PortTable, input_tpid, tags_at};
use crate::verdict::Verdict;
use mib_state::Mib;
use tag_view::view;

/// The GEM port by which a frame that comes in at a port leaves, and the frame that leaves, or the first reason to drop it.
#[tactic(auto, unfolding(crate::specs::Meaning::forwarded_by), using(crate::proofs::Spellings::grows_little))]
fn forwarded_by<'a>(mib: &Mib, port: u16, bytes: &'a [u8]) -> Result<(u16, OutFrame<'a>), Reason>
    ensures found { result ≡ forwarded_by mib.now.entities port bytes.now }
    ensures size { IfOk result (λ found. GrowsLittle bytes.now found.1) }
{
    let table = PortTable::at(mib, port);
    let frame = view(bytes, input_tpid(&table))?;
    let tags = tags_at(&table, &frame)?;
    let gem = gem_port_at(mib, port, &tags, frame.dscp())?;
    Ok((gem, OutFrame::new(&frame, tags)))
}

/// What becomes of a frame that comes in at a port, found in the managed entities one after the other. It takes no memory,
/// and the verdict borrows the frame alone.
#[tactic(auto, unfolding(crate::specs::Meaning::meaning))]
pub fn plain_walk<'a>(mib: &Mib, port: u16, bytes: &'a [u8]) -> Verdict<'a>
    ensures verdict { result ≡ meaning mib.now.entities port bytes.now }
    ensures size { LeavesLittleMore bytes.now result }
{
    match forwarded_by(mib, port, bytes) {
        Ok((gem, frame)) => Verdict::Forward { gem, frame },
        Err(reason) => Verdict::Drop(reason),
    }
}
