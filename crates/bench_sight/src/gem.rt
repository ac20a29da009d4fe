//! GEM ports.
ghost use Rattle.std.specs.Prelude.{◌≡◌};
ghost use Rattle.bench_sight.specs.Sight.{is_gem};

use bench_history::SeenGem;

/// Whether a frame that leaves by a GEM port may be one that was seen to leave.
pub(crate) fn is_gem(gem: u16, seen: SeenGem) -> bool
    ensures { result ≡ is_gem gem seen }
{
    match seen {
        SeenGem::Port(port) => gem == port,
        SeenGem::Any => true,
    }
}
