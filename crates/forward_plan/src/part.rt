//! What is compiled of one instance.
ghost use Rattle.std.specs.Prelude.{◌≡◌, ◌≢◌, ◌≤◌, ◌<◌, ℕ, IfNone, IfSome, None, Some, true, length, map, slice_get};
ghost use Rattle.forward_plan.specs.Parts.{AreForgotten, AreMoved, IsPartOf, NoneIsOf};

/// What is compiled of an instance, and the instance's number. Without one it is of none, and stands ready.
#[derive(Drop)]
pub(crate) struct Part<T> {
    pub(crate) of: Option<u16>,
    pub(crate) compiled: T,
}

/// Brings the part of an instance to a place, and says whether there is one there or behind. Where there is none, a part of no
/// instance comes to the place, if there is one.
pub(crate) fn bring<T>(parts: &mut [Part<T>], place: usize, number: u16) -> bool
    requires { place < length parts.old }
    ensures moved { AreMoved parts.old parts.new place }
    ensures there { result ≡ true → IsPartOf parts.new place number }
{
    if let Some(at) = position(parts, place, Some(number)) {
        parts.swap(place, at);
        return true;
    }
    if let Some(at) = position(parts, place, None) {
        parts.swap(place, at);
    }
    false
}

/// The first place, from one on, of a part of an instance, or of one of no instance.
fn position<T>(parts: &[Part<T>], from: usize, of: Option<u16>) -> Option<usize>
    ensures within { IfSome result (λ at. (from ≤ at) × (at < length parts.now)) }
    ensures part { IfSome result (λ at. (part : _) × (slice_get parts.now at ≡ Some part)
        × (part.of ≡ of)) }
    ensures first { IfSome result (λ at. NoneIsOf parts.now from at of) }
    ensures none { IfNone result (NoneIsOf parts.now from (length parts.now) of) }
{
    for at in from..parts.len() {
        if parts[at].of == of {
            return Some(at);
        }
    }
    None
}

/// Forgets of which instance the part of an instance is.
pub(crate) fn forget<T>(parts: &mut [Part<T>], number: u16)
    ensures forgotten { AreForgotten (λ part. part.of ≢ Some number) parts.old parts.new }
    ensures compiled { map (λ part. part.compiled) parts.new
        ≡ map (λ part. part.compiled) parts.old }
{
    for place in 0..parts.len() {
        if parts[place].of == Some(number) {
            parts[place].of = None;
        }
    }
}

/// Forgets of which instance each part is.
pub(crate) fn forget_all<T>(parts: &mut [Part<T>])
    ensures { AreForgotten (λ part. ⊥) parts.old parts.new }
{
    for place in 0..parts.len() {
        parts[place].of = None;
    }
}
