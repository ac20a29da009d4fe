//! The rows that are left, by their places.
ghost use Rattle.std.specs.Prelude.{◌≡◌, ◌<◌, ◌+◌, ◌*◌, ◌++◌, ℕ, [], ◌∷◌, All, IfNone, IfSome, filter, nat_le};
ghost use Rattle.std.specs.Iterator.{YieldsFirst};
ghost use Rattle.std.specs.Iterator.Runs.{YieldsInOrder};
ghost use Rattle.frame_classes.specs.Words.{AreInOrder};

use std::marker::Model;

/// How many places a word has.
const WORD_BITS: usize = 64;

/// As many words as the rows of three ports need.
const WORDS: usize = 7;

/// The end of all places.
const END: usize = 448;

/// Rows, by their places: a bit for each.
#[derive(Drop)]
pub(crate) struct Left {
    words: [u64; WORDS],
}

impl Model for Left {
    ghost use Rattle.std.specs.Prelude.{ℕ, List};
    ghost use Rattle.frame_classes.specs.Words.{places_under};

    ghost Value = { List ℕ };

    ghost view = { λ l. places_under 448 l.words };
}

impl Left {
    /// No row.
    pub(crate) fn none() -> Left
        ensures { result ≡ [] }
    {
        Left { words: [0; WORDS] }
    }

    /// Puts a place behind the others.
    pub(crate) fn push(&mut self, place: usize)
        requires within { place < 448 }
        requires behind { All (λ other. other < place) self.old }
        ensures { self.new ≡ self.old ++ place ∷ [] }
    {
        self.words[place / WORD_BITS] |= 1 << (place % WORD_BITS);
    }

    /// The places, in order.
    pub(crate) fn iter(&self) -> Places<'_>
        ensures places { result ≡ self.now }
        ensures order { AreInOrder 0 448 self.now }
        ensures runs { YieldsInOrder (YieldsFirst {A = ℕ} (λ places. places)) (λ places. places) }
    {
        let _words = &self.words;
        Places {
            left: self,
            from: 0,
        }
    }

    /// The first place from one on.
    pub(crate) fn next(&self, from: usize) -> Option<usize>
        ensures within { IfSome result (λ place. place < 448) }
        ensures first { IfSome result (λ place. filter (nat_le from) self.now ≡ place ∷ filter (nat_le (place + 1)) self.now) }
        ensures none { IfNone result (filter (nat_le from) self.now ≡ []) }
    {
        let words = &self.words;
        if END <= from {
            return None;
        }
        let bits = words[from / WORD_BITS] >> (from % WORD_BITS);
        if bits != 0 {
            return Some(from + bits.trailing_zeros() as usize);
        }
        self.next_from_word(from / WORD_BITS + 1)
    }

    /// The first place of the words from one on.
    fn next_from_word(&self, first: usize) -> Option<usize>
        ensures within { IfSome result (λ place. place < 448) }
        ensures first { IfSome result (λ place. filter (nat_le (first * 64)) self.now ≡ place ∷ filter (nat_le (place + 1)) self.now) }
        ensures none { IfNone result (filter (nat_le (first * 64)) self.now ≡ []) }
    {
        for word in first..WORDS {
            let bits = self.words[word];
            if bits != 0 {
                return Some(word * WORD_BITS + bits.trailing_zeros() as usize);
            }
        }
        None
    }
}

/// Places that are still to come, in order.
#[derive(Drop)]
pub(crate) struct Places<'l> {
    left: &'l Left,
    from: usize,
}

impl<'l> Model for Places<'l> {
    ghost use Rattle.std.specs.Prelude.{ℕ, List, filter, nat_le};

    ghost Value = { List ℕ };

    ghost view = { λ p. filter (nat_le p.from) p.left.now };
}

impl<'l> Iterator for Places<'l> {
    ghost use Rattle.std.specs.Iterator.{YieldsFirst, item_count};

    type Item = usize;

    ghost next_gives = { YieldsFirst (λ places. places) };

    ghost remaining = { item_count (λ places. places) };

    fn next(&mut self) -> Option<usize> {
        let Some(place) = self.left.next(self.from) else {
            return None;
        };
        self.from = place + 1;
        Some(place)
    }
}
