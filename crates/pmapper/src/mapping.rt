//! From the tags of a frame to its priority, and from there to a GEM interworking termination point (ITU-T G.988, clause
//! 9.3.10).
ghost use Rattle.std.specs.Prelude.{◌≡◌, ◌<◌, IfSome};
ghost use Rattle.pmapper.specs.Mapper.{pointer_of, priority_of, unmarked_of, unmarked_priority_of};

use crate::mapper::Mapper;
use crate::unmarked::UnmarkedFrameOption;
use tag_view::Tag;

/// The priority of a frame without a tag, by its DSCP if it has one.
fn unmarked_priority(mapper: &Mapper, dscp: Option<u8>) -> u8
    requires { IfSome dscp (λ dscp. dscp < 64) }
    ensures value { result ≡ unmarked_priority_of (unmarked_of mapper.now) dscp }
    ensures bound { result < 8 }
{
    match (UnmarkedFrameOption::of(mapper.unmarked_frame_option), dscp) {
        (UnmarkedFrameOption::ByDscp, Some(dscp)) => mapper.dscp_map.get(dscp),
        (UnmarkedFrameOption::ByDscp, None) | (UnmarkedFrameOption::ByDefault, _) => {
            mapper.default_p_bit_assumption % 8
        }
    }
}

/// The priority of a frame that leaves with these tags, outermost first: that of the outermost tag, whatever its TPID. A
/// frame without a tag has the one that the unmarked frame option gives it: under 0 that of its DSCP, which is under 64,
/// by the DSCP to P-bit mapping; under every other option, and without a DSCP, the low three bits of the default P-bit
/// assumption.
#[tactic(auto, unfolding(crate::specs::Mapper::priority_of))]
pub fn priority(mapper: &Mapper, tags: &[Tag], dscp: Option<u8>) -> u8
    requires { IfSome dscp (λ dscp. dscp < 64) }
    ensures value { result ≡ priority_of (unmarked_of mapper.now) tags.now dscp }
    ensures bound { result < 8 }
{
    match tags.first() {
        Some(outermost) => outermost.pcp(),
        None => unmarked_priority(mapper, dscp),
    }
}

/// The GEM interworking termination point of the frames of a priority, or None where its pointer is null, 0xFFFF.
#[tactic(auto, unfolding(crate::specs::Mapper::pointer_of))]
pub fn pointer(mapper: &Mapper, priority: u8) -> Option<u16>
    requires { priority < 8 }
    ensures { result ≡ pointer_of mapper.now.interwork_tp_pointers priority }
{
    match mapper.interwork_tp_pointers[usize::from(priority)] {
        0xffff => None,
        pointer => Some(pointer),
    }
}
