//! The frames of a capture, one after the other.

use crate::order::Order;
use crate::record::split_record;
use std::marker::Model;

/// The frames that are left of a capture, in the order of the file. Each is a slice of the file.
#[derive(Drop)]
pub struct Frames<'a> {
    pub(crate) order: Order,
    pub(crate) records: &'a [u8],
}

impl<'a> Model for Frames<'a> {
    ghost use Rattle.std.specs.Prelude.{ℕ, List};
    ghost use Rattle.capture.specs.Records.{frames_in};

    ghost Value = { List (List ℕ) };

    ghost view = { λ f. frames_in f.order f.records.now };
}

impl<'a> Iterator for Frames<'a> {
    ghost use Rattle.std.specs.Iterator.{YieldsFirstRef, item_count};

    type Item = &'a [u8];

    ghost next_gives = { YieldsFirstRef (λ left. left) };

    ghost remaining = { item_count (λ left. left) };

    #[inline]
    fn next(&mut self) -> Option<&'a [u8]> {
        let Ok((frame, behind)) = split_record(self.order, self.records) else {
            return None;
        };
        self.records = behind;
        Some(frame)
    }
}
