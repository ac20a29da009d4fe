//! The classes that are found.
ghost use Rattle.std.specs.Prelude.{◌≡◌, ◌<◌, ◌≤◌, ◌==◌, ℕ, false, length, slice_get, slice_index_or};
ghost use Rattle.std.specs.Option.{option_map_or};
ghost use Rattle.frame_classes.specs.declared.found.Sample.{Sample};
ghost use Rattle.frame_classes.specs.Found.{Ascend, number_of};

use crate::told::Told;
use frame_rows::Values;
use std::alloc::{AllocError, Global};

/// What is told of a frame, with the values of the frame.
#[derive(Clone, Copy, Debug)]
pub(crate) struct Sample {
    pub(crate) told: Told,
    pub(crate) values: Values,
}

/// Classes in their order, each once.
#[derive(Drop)]
pub(crate) struct Found {
    pub(crate) samples: Vec<Sample>,
}

impl Found {
    ghost use Rattle.std.specs.Prelude.{[], Any, IsTrue, OnOk, true};
    ghost use Rattle.frame_classes.specs.Told.{told_fits, told_number};
    ghost use Rattle.frame_classes.specs.Found.{put_in};

    /// None yet.
    pub(crate) fn new(alloc: Global) -> Found
        ensures { result.samples.items ≡ [] }
    {
        Found {
            samples: Vec::new(alloc),
        }
    }

    /// Whether something is there.
    pub(crate) fn has(&self, told: &Told) -> bool
        requires { Ascend self.now.samples.items }
        ensures fits { IsTrue (told_fits told.now) }
        ensures there { result ≡ true → Any (λ s. number_of s ≡ told_number told.now) self.now.samples.items }
    {
        let number = told.number();
        let samples = self.samples.as_slice();
        is_at(samples, place_of(samples, number), number)
    }

    /// Puts something in its place, unless it stands there.
    pub(crate) fn put(&mut self, told: Told, values: Values) -> Result<(), AllocError>
        requires { Ascend self.old.samples.items }
        ensures fits { OnOk result (IsTrue (told_fits told)) }
        ensures items { OnOk result (self.new.samples.items
            ≡ put_in (record { told = told; values = values }) self.old.samples.items) }
    {
        let number = told.number();
        let samples = self.samples.as_slice();
        let place = place_of(samples, number);
        if !is_at(samples, place, number) {
            self.samples.insert(place, Sample { told, values })?;
        }
        Ok(())
    }
}

/// How many of some samples, whose classes ascend, have smaller numbers.
fn place_of(samples: &[Sample], number: u128) -> usize
    requires { Ascend samples.now }
    ensures within { result ≤ length samples.now }
    ensures before { (k : ℕ) (d : Sample) → k < result
        → number_of (slice_index_or samples.now k d) < number }
    ensures behind { (d : Sample) → result < length samples.now
        → number ≤ number_of (slice_index_or samples.now result d) }
{
    let mut low = 0;
    let mut high = samples.len();
    while low < high {
        let middle = low + (high - low) / 2;
        if samples[middle].told.number() < number {
            low = middle + 1;
        } else {
            high = middle;
        }
    }
    low
}

/// Whether the class of the sample at a place, if one stands there, has a number.
fn is_at(samples: &[Sample], place: usize, number: u128) -> bool
    ensures { result ≡ option_map_or (λ (sample : Sample). number_of sample == number)
        (slice_get samples.now place) false }
{
    match samples.get(place) {
        Some(sample) => sample.told.number() == number,
        None => false,
    }
}
