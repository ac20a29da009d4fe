//! What frames are found by among others.
ghost use Rattle.std.specs.Prelude.{◌∷◌, []};
ghost use Rattle.std.specs.Cmp.Rules.{comparing, hashing};
ghost use Rattle.std.proofs.Common.{rules};
ghost use Rattle.bench_record.specs.Keys.{is_same_key};

use std::hash::{Hash, Hasher};

/// What a frame is found by among others: the addresses of its core, and as much of the rest as is known of all, without the zeros that end it.
#[derive(Clone, Copy)]
pub struct CoreKey<'a> {
    pub(crate) addresses: &'a [u8],
    pub(crate) rest: &'a [u8],
}

impl<'a> PartialEq for CoreKey<'a> {
    ghost eq = { is_same_key };

    ghost laws = { Prim.search (comparing, rules) };

    fn eq(&self, other: &CoreKey<'a>) -> bool {
        self.addresses == other.addresses && self.rest == other.rest
    }
}

impl<'a> Eq for CoreKey<'a> {
    ghost laws = { Prim.search (comparing, rules) };
}

// A slice's own hash takes its bytes one by one.
impl<'a> Hash for CoreKey<'a> {
    ghost hash_input = { λ key. key.addresses.now ∷ key.rest.now ∷ [] };

    ghost respects_eq = { Prim.search (hashing, rules) };

    fn hash<H: Hasher>(&self, state: &mut H) {
        state.write(self.addresses);
        state.write(self.rest);
    }
}
