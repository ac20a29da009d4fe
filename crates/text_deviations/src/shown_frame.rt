//! A frame that leaves, by the places of its bytes.
use crate::bytes_difference::BytesDifference;
use bench_history::Extent;
use bench_judge::Leaving;
use tag_view::Tag;

/// How many bytes the two addresses at the head of a frame have (IEEE 802.3, clause 3.1.1).
pub const ADDRESSES: usize = 12;

/// How many bytes a tag has (IEEE 802.1Q, clause 9.4).
const TAG: usize = 4;

/// A frame that leaves, as far as it is known: some bytes, tags, and the bytes behind them.
#[derive(Clone, Copy)]
pub(crate) struct ShownFrame<'j> {
    head: &'j [u8],
    tags: &'j [Tag],
    rest: &'j [u8],
    pub(crate) extent: Extent,
}

/// The place of a tag, counted from 0, in a frame.
pub(crate) fn tag_place(number: usize) -> usize {
    ADDRESSES.saturating_add(number.saturating_mul(TAG))
}

impl<'j> ShownFrame<'j> {
    /// A frame that was seen, by its bytes.
    pub(crate) fn seen(bytes: &'j [u8], extent: Extent) -> Self {
        ShownFrame {
            head: bytes,
            tags: &[],
            rest: &[],
            extent,
        }
    }

    /// What becomes of the bytes that were sent.
    pub(crate) fn of_model(sent: &'j [u8], extent: Extent, leaving: &'j Leaving) -> Self {
        let behind = sent.len().saturating_sub(leaving.rest);
        ShownFrame {
            head: sent.get(..ADDRESSES).unwrap_or(sent),
            tags: leaving.tags.as_slice(),
            rest: sent.get(behind..).unwrap_or(&[]),
            extent,
        }
    }

    /// How many of its bytes are known.
    pub(crate) fn len(&self) -> usize {
        let tags = self.tags.len().saturating_mul(TAG);
        let front = self.head.len().saturating_add(tags);
        front.saturating_add(self.rest.len())
    }

    /// The byte at a place, where it is known.
    pub(crate) fn byte(&self, place: usize) -> Option<u8> {
        if let Some(byte) = self.head.get(place) {
            return Some(*byte);
        }
        let behind = place.saturating_sub(self.head.len());
        if let Some(tag) = self.tags.get(behind / TAG) {
            let bytes = tag.bytes();
            return bytes.get(behind % TAG).copied();
        }
        let before = self.tags.len().saturating_mul(TAG);
        self.rest.get(behind.saturating_sub(before)).copied()
    }

    /// The type at the place of a tag, counted from 0, where it is known.
    pub(crate) fn type_at(&self, number: usize) -> Option<u16> {
        let place = tag_place(number);
        let (high, low) = (self.byte(place)?, self.byte(place.saturating_add(1))?);
        Some(u16::from_be_bytes([high, low]))
    }

    /// The tag at a place, counted from 0, where its four bytes are known.
    pub(crate) fn tag_at(&self, number: usize) -> Option<Tag> {
        let place = tag_place(number);
        let a = self.byte(place)?;
        let b = self.byte(place.saturating_add(1))?;
        let c = self.byte(place.saturating_add(2))?;
        let d = self.byte(place.saturating_add(3))?;
        Some(Tag::of_word(u32::from_be_bytes([a, b, c, d])))
    }

    /// The tags that the model gives it.
    pub(crate) fn tags(&self) -> &'j [Tag] {
        self.tags
    }

    /// Whether it may have as many bytes as another, by what is known of both: a front has fewer than the frame.
    pub(crate) fn may_be_as_long_as(&self, other: &ShownFrame<'_>) -> bool {
        match (self.extent, other.extent) {
            (Extent::Whole, Extent::Whole) => self.len() == other.len(),
            (Extent::Whole, Extent::Front) => self.len() > other.len(),
            (Extent::Front, Extent::Whole) => self.len() < other.len(),
            (Extent::Front, Extent::Front) => true,
        }
    }

    /// Where its bytes from one place to before another differ from the model's, as far as both are known.
    pub(crate) fn difference(
        &self,
        model: &ShownFrame<'_>,
        from: usize,
        to: usize,
    ) -> Option<BytesDifference> {
        let mut found = None;
        for place in from..to.min(self.len()).min(model.len()) {
            if let (Some(seen), Some(wanted)) = (self.byte(place), model.byte(place))
                && seen != wanted
            {
                found = Some(BytesDifference::with(found, place, seen, wanted));
            }
        }
        found
    }
}
