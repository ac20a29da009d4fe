//! Where classes were marked last: a guess, which saves the search for a class where it is right.

/// How many places are kept.
const PLACES: usize = 256;

/// A place by the number of a class: the one where a class with such a number was marked last.
#[derive(Clone, Copy)]
pub(crate) struct Hints {
    places: [usize; PLACES],
}

/// Which of the places is that of a class. Entries, endings and GEM ports differ in the last bits of their bytes.
fn slot_of(number: u32) -> usize {
    (number.wrapping_mul(0x9e37_79b9) >> 24) as usize
}

impl Hints {
    /// The first place for each.
    pub(crate) fn new() -> Hints {
        Hints {
            places: [0; PLACES],
        }
    }

    /// The place where the class of this number may stand.
    pub(crate) fn of(&self, number: u32) -> usize {
        self.places.get(slot_of(number)).copied().unwrap_or(0)
    }

    /// Keeps the place where the class of this number stands.
    pub(crate) fn keep(&mut self, number: u32, place: usize) {
        if let Some(kept) = self.places.get_mut(slot_of(number)) {
            *kept = place;
        }
    }
}
