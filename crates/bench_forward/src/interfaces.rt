//! The interfaces of a capture, each of which stands for a GEM port.
ghost use Rattle.std.specs.Prelude.{◌≡◌};
ghost use Rattle.bench_forward.specs.Packets.{interface_of, with_interface};

use frame_stats::GEM_PORTS;
use std::alloc::{AllocError, Global};
use std::marker::Model;

/// Which GEM ports have an interface, by the numbers of these. It is seen as their list. A number is found without a search, and
/// with all memory taken at the start none is taken for an interface.
#[derive(Drop)]
pub(crate) struct Interfaces {
    // The GEM ports by the number of their interface.
    gems: Vec<u16>,
    // By GEM port the number that its interface has, if it has one.
    numbers: Vec<u16>,
}

impl Model for Interfaces {
    ghost use Rattle.std.specs.Prelude.{◌≤◌, ℕ, List, vec_capacity};
    ghost use Rattle.frame_stats.specs.Figures.{gem_ports};
    ghost use Rattle.bench_forward.specs.Interfaces.{AreNumbersOf};

    ghost Value = { List ℕ };

    ghost view = { λ i. i.gems.items };

    ghost invariant = { λ i.
        (gem_ports ≤ vec_capacity i.gems) × AreNumbersOf i.gems.items i.numbers.items };
}

impl Interfaces {
    ghost use Rattle.std.specs.Prelude.{◌≢◌, ◌<◌, ◌++◌, [], ◌∷◌, IfOk, MatchBool, None, length, slice_index};

    /// No GEM port has an interface yet.
    pub(crate) fn new(alloc: Global) -> Result<Self, AllocError>
        ensures { IfOk result (λ interfaces. interfaces ≡ []) }
    {
        Ok(Interfaces {
            gems: Vec::with_capacity(alloc, GEM_PORTS)?,
            numbers: vec![in alloc; 0; GEM_PORTS]?,
        })
    }

    /// Whether the interface of this number stands for this GEM port.
    fn stands_at(&self, number: usize, gem: u16) -> bool
        ensures { MatchBool result
            ((number < length self.now) × (slice_index self.now number ≡ gem))
            (number < length self.now → slice_index self.now number ≢ gem) }
    {
        number < self.gems.len() && self.gems[number] == gem
    }

    /// The number of a GEM port's interface.
    pub(crate) fn number_of(&self, gem: u16) -> Option<u16>
        ensures { result ≡ interface_of gem self.now }
    {
        let number = self.numbers[usize::from(gem)];
        if self.stands_at(usize::from(number), gem) {
            Some(number)
        } else {
            None
        }
    }

    /// Numbers the interface of a GEM port, if it has none yet.
    pub(crate) fn note(&mut self, gem: u16)
        ensures { self.new ≡ with_interface self.old gem }
    {
        if self.number_of(gem).is_none() {
            self.add(gem);
        }
    }

    /// Numbers the interface of a GEM port that has none.
    pub(crate) fn add(&mut self, gem: u16) -> u16
        requires { interface_of gem self.old ≡ None }
        ensures number { result ≡ length self.old }
        ensures items { self.new ≡ self.old ++ gem ∷ [] }
    {
        let number = self.gems.len() as u16;
        self.numbers[usize::from(gem)] = number;
        self.gems.push_reserved(gem);
        number
    }
}
