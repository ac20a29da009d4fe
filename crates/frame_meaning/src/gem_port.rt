//! The GEM port of a frame: the entities that the port of the frame leads to (ITU-T G.988, clauses 9.3.10, 9.2.4 and 9.2.3).
ghost use Rattle.std.specs.Prelude.{◌≡◌, ◌<◌, ℕ, IfSome, option_map};
ghost use Rattle.managed_entity.specs.Shown.{mapper_instance, interwork_instance, gem_port_instance};
ghost use Rattle.pmapper.specs.Mapper.{pointer_of};
ghost use Rattle.frame_meaning.specs.Meaning.{mapper_at, pointers_at, carries_upstream, port_id_of, gem_port_behind, gem_port_of, gem_port_at};

use crate::reason::Reason;
use mib_state::Mib;
use pmapper::{GemPort, Interwork, Mapper, pointer, priority};
use tag_view::Tag;

/// The 802.1p mapper service profile of a port, with its number, or None where the port has none.
#[tactic(auto, unfolding(crate::specs::Meaning::mapper_at))]
pub fn mapper_at(mib: &Mib, port: u16) -> Option<(u16, &Mapper)>
    ensures { option_map (λ (held : _). mapper_instance held.0 held.1.now) result
        ≡ mapper_at mib.now.entities port }
{
    let number = mib.mapper_of_port(port)?;
    let mapper = mib.mapper(number)?;
    Some((number, mapper))
}

/// The GEM interworking termination point of the frames of a priority, under 8, or None where the mapper's pointer is null.
pub fn pointer_of(mapper: &Mapper, priority: u8) -> Option<u16>
    requires { priority < 8 }
    ensures { (n : ℕ) → result ≡ pointer_of (pointers_at (mapper_instance n mapper.now)) priority }
{
    let pointer = pointer(mapper, priority)?;
    Some(pointer)
}

/// Whether a GEM port network CTP carries frames upstream.
#[tactic(auto, unfolding(crate::specs::Meaning::carries_upstream))]
fn carries_upstream(gem: &GemPort) -> bool
    ensures { (n : ℕ) → result ≡ carries_upstream (gem_port_instance n gem.now) }
{
    gem.direction == 1 || gem.direction == 3
}

/// The port-ID of the frames that a GEM port network CTP carries, or `Direction` where it carries none upstream.
#[tactic(auto, unfolding(crate::specs::Meaning::port_id_of))]
pub fn port_id_of(gem: &GemPort) -> Result<u16, Reason>
    ensures { (n : ℕ) → result ≡ port_id_of (gem_port_instance n gem.now) }
{
    let port_id = carries_upstream(gem).then_some(gem.port_id);
    port_id.ok_or(Reason::Direction)
}

/// The GEM port of the frames that come to a GEM interworking termination point.
#[tactic(auto, unfolding(crate::specs::Meaning::gem_port_behind))]
fn gem_port_behind(mib: &Mib, point: &Interwork) -> Result<u16, Reason>
    ensures { (n : ℕ) → result ≡ gem_port_behind mib.now.entities (interwork_instance n point.now) }
{
    let gem = mib.gem_port(point.gem_port_pointer).ok_or(Reason::NoGem)?;
    port_id_of(gem)
}

/// The GEM port of the frames of a priority that come to a mapper.
#[tactic(auto, unfolding(crate::specs::Meaning::gem_port_of))]
pub fn gem_port_of(mib: &Mib, mapper: &Mapper, priority: u8) -> Result<u16, Reason>
    requires { priority < 8 }
    ensures { (n : ℕ)
        → result ≡ gem_port_of mib.now.entities (mapper_instance n mapper.now) priority }
{
    let pointer = pointer_of(mapper, priority).ok_or(Reason::NullPointer)?;
    let point = mib.interwork(pointer).ok_or(Reason::NoInterwork)?;
    gem_port_behind(mib, point)
}

/// The GEM port of frames with a DSCP, if they have one, that leave a port with these tags.
#[tactic(auto, unfolding(crate::specs::Meaning::gem_port_at))]
pub(crate) fn gem_port_at(
    mib: &Mib,
    port: u16,
    tags: &[Tag],
    dscp: Option<u8>,
) -> Result<u16, Reason>
    requires { IfSome dscp (λ dscp. dscp < 64) }
    ensures { result ≡ gem_port_at mib.now.entities port tags.now dscp }
{
    let (_, mapper) = mapper_at(mib, port).ok_or(Reason::NoMapper)?;
    gem_port_of(mib, mapper, priority(mapper, tags, dscp))
}
