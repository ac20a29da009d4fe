//! Frames that are drawn near what rules name.
use test_draws::Draws;

/// Types of tags and of packets, those that begin a tag at some port more than once.
const TYPES: [u16; 20] = [
    0x8100, 0x8100, 0x8100, 0x8100, 0x88a8, 0x88a8, 0x9100, 0x9100, 0x0800, 0x0800, 0x0800, 0x86dd,
    0x86dd, 0x86dd, 0x8863, 0x8864, 0x0806, 0x888e, 0x88b5, 0x1234,
];

/// The VIDs of the drawn entries, and two that none names.
const VIDS: [usize; 7] = [0, 1, 7, 100, 101, 4095, 4095];

/// The most bytes of a frame, and behind how many nothing counts.
const LONG: usize = 64;

const COUNTED: usize = 24;

/// A frame of at most 64 bytes.
#[derive(Clone, Copy)]
pub(crate) struct DrawnFrame {
    bytes: [u8; LONG],
    len: usize,
}

/// The two bytes behind a type: a priority, a drop eligible indicator and a VID, or any, so that each DSCP is among them.
fn draw_behind_type(draws: &mut Draws) -> u16 {
    let word = match draws.under(2) {
        0 => draws.under(16) << 12 | draws.of(&VIDS),
        _ => draws.under(65_536),
    };
    (word % 65_536) as u16
}

impl DrawnFrame {
    /// One of any types, of which each fourth may be short.
    pub(crate) fn new(draws: &mut Draws) -> DrawnFrame {
        let mut frame = DrawnFrame {
            bytes: [0; LONG],
            len: LONG,
        };
        for place in 0..6 {
            frame.draw_word(draws, place);
        }
        if draws.under(4) == 0 {
            frame.len = draws.under(COUNTED + 2);
        }
        frame
    }

    /// One that differs from the first 64 bytes of another in a type, in the bytes behind one, or in its length.
    pub(crate) fn near(draws: &mut Draws, other: &[u8]) -> DrawnFrame {
        let len = other.len().min(LONG);
        let mut bytes = [0; LONG];
        bytes[..len].copy_from_slice(&other[..len]);
        let mut frame = DrawnFrame { bytes, len };
        match draws.under(8) {
            6 => frame.len = draws.under(COUNTED + 2),
            7 => frame.len = LONG,
            place => frame.draw_word(draws, place),
        }
        frame
    }

    /// Makes it have at least so many bytes, of which 64 are the most.
    pub(crate) fn lengthen(&mut self, least: usize) {
        self.len = self.len.max(least);
    }

    /// Draws the word of a place, from byte 12 on: types and what stands behind them in turns.
    fn draw_word(&mut self, draws: &mut Draws, place: usize) {
        let word = match place % 2 {
            0 => draws.of(&TYPES),
            _ => draw_behind_type(draws),
        };
        let at = 12 + 2 * (place % 6);
        self.bytes[at..at + 2].copy_from_slice(&word.to_be_bytes());
    }

    pub(crate) fn bytes(&self) -> &[u8] {
        &self.bytes[..self.len.min(LONG)]
    }
}
