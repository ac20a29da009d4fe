//! What a publish tells.
ghost use Rattle.std.specs.Prelude.{◌≡◌, ◌<◌, ◌-◌, ◌^◌};
ghost use Rattle.plan_publish.specs.Requests.{version_of};
ghost use Rattle.plan_publish.specs.Told.{told_home, told_list};

use crate::history::Prefix;

/// What a publish tells lanes: all requests that were published then. It can be shared, and told to any number of lanes.
#[derive(Drop)]
pub struct Told {
    pub(crate) published: Prefix,
}

impl Told {
    pub(crate) fn new(published: Prefix) -> Told
        ensures { (told_list result ≡ published.seen.log)
            × (told_home result ≡ published.seen.book) }
    {
        Told { published }
    }

    /// How many requests were published then. It is always under 2^64 - 1.
    pub fn version(&self) -> u64
        ensures version { result ≡ version_of (told_list self.now) }
        ensures small { result < 2 ^ 64 - 1 }
    {
        self.published.len()
    }
}
