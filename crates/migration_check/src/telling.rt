//! Whether several things hold.
ghost use Rattle.std.specs.Prelude.{◌≡◌, ◌&&◌};

/// Whether both hold.
pub(crate) fn are_both(one: bool, other: bool) -> bool
    ensures { result ≡ (one && other) }
{
    one && other
}
