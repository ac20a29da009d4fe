//! Where the priority of a frame comes from (ITU-T G.988, clause 9.3.10).
ghost use Rattle.std.specs.Prelude.{◌≡◌};
ghost use Rattle.pmapper.specs.Mapper.{unmarked_of};
ghost use Rattle.explain.specs.Priority.{priority_origin};

use pmapper::Mapper;
use tag_view::Tag;

/// Where the priority of a frame, as it leaves, comes from.
#[derive(Clone, Copy)]
pub enum PriorityOrigin {
    /// It is that of the outermost tag.
    OutermostTag,
    /// The frame has no tag; it is that of this DSCP, by the mapper's DSCP to P-bit mapping: the unmarked frame option is 0.
    Dscp(u8),
    /// The frame has no tag; it is the default P-bit assumption: the unmarked frame option isn't 0, or the frame has no DSCP.
    Default,
}

/// Where the priority of a frame that leaves with these tags comes from, with its DSCP if it has one.
pub(crate) fn priority_origin(mapper: &Mapper, tags: &[Tag], dscp: Option<u8>) -> PriorityOrigin
    ensures { result ≡ priority_origin (unmarked_of mapper.now) tags.now dscp }
{
    match (tags.first(), mapper.unmarked_frame_option, dscp) {
        (Some(_), _, _) => PriorityOrigin::OutermostTag,
        (None, 0, Some(dscp)) => PriorityOrigin::Dscp(dscp),
        _ => PriorityOrigin::Default,
    }
}
