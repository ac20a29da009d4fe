//! Where bytes that were seen differ from the model's.
use std::fmt;

/// A byte that was seen, the model's, and how many differ.
#[derive(Clone, Copy)]
pub(crate) struct BytesDifference {
    /// The place of the first that differs, from 0.
    place: usize,
    seen: u8,
    model: u8,
    count: usize,
}

impl BytesDifference {
    /// Counts a byte: it differs at a place that is behind those before it.
    pub(crate) fn with(
        before: Option<BytesDifference>,
        place: usize,
        seen: u8,
        model: u8,
    ) -> BytesDifference {
        match before {
            Some(difference) => BytesDifference {
                count: difference.count.saturating_add(1),
                ..difference
            },
            None => BytesDifference {
                place,
                seen,
                model,
                count: 1,
            },
        }
    }
}

impl fmt::Display for BytesDifference {
    fn fmt<W: fmt::Write>(&self, f: &mut fmt::Formatter<W>) -> fmt::Result {
        let (place, count) = (self.place, self.count);
        let (seen, model) = (self.seen, self.model);
        write!(
            f,
            "byte {place}, 0x{seen:02x} for 0x{model:02x}, {count} in all"
        )
    }
}
