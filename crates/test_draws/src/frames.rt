//! Frames that are drawn.
use crate::draws::{Draws, TPIDS};
use crate::frame::UNTAGGED;
use std::alloc::{AllocError, Global};

/// The EtherTypes behind the tags, the frequent ones more than once.
const ETHERTYPES: [u16; 9] = [
    0x0800, 0x0800, 0x86dd, 0x86dd, 0x0806, 0x8863, 0x8864, 0x888e, 0x1234,
];

impl Draws {
    /// The four bytes of a tag.
    fn tag(&mut self) -> [u8; 4] {
        let [t0, t1] = self.of(&TPIDS).to_be_bytes();
        let priority = self.of(&[0u16, 3, 5, 6, 7]);
        let dei = self.of(&[0, 1]);
        let vid = self.of(&[1, 100, 101, 4095, 7]);
        let [b0, b1] = (priority << 13 | dei << 12 | vid).to_be_bytes();
        [t0, t1, b0, b1]
    }

    /// What follows the tags of a frame: an EtherType, and the start of a packet.
    fn behind_tags(&mut self) -> [u8; 5] {
        let [high, low] = self.of(&ETHERTYPES).to_be_bytes();
        let version = self.of(&[0x45, 0x60, 0x6b, 0x6f]);
        let class = self.of(&[0x00, 0x28, 0x80, 0xb8, 0xfc]);
        [high, low, version, class, 0xee]
    }

    /// Appends the bytes of a frame with so many tags.
    pub(crate) fn push_frame(
        &mut self,
        bytes: &mut Vec<u8>,
        tags: usize,
    ) -> Result<(), AllocError> {
        bytes.extend_from_slice(&UNTAGGED[..12])?;
        for _ in 0..tags {
            bytes.extend_from_slice(&self.tag())?;
        }
        bytes.extend_from_slice(&self.behind_tags())
    }

    /// Appends a frame of 0 to 3 tags.
    fn push_whole(&mut self, alloc: Global, frames: &mut Vec<Vec<u8>>) -> Result<(), AllocError> {
        let tags = self.of(&[0, 1, 1, 2, 2, 2, 2, 3]);
        let mut frame = Vec::new(alloc);
        self.push_frame(&mut frame, tags)?;
        frames.push(frame)?;
        Ok(())
    }

    /// Appends a frame of 3 tags that is cut behind so many bytes.
    fn push_cut(
        &mut self,
        alloc: Global,
        frames: &mut Vec<Vec<u8>>,
        cut: usize,
    ) -> Result<(), AllocError> {
        let mut frame = Vec::new(alloc);
        self.push_frame(&mut frame, 3)?;
        frame.truncate(cut);
        frames.push(frame)?;
        Ok(())
    }

    /// The bytes of so many frames of 0 to 3 tags, and of one more of 3 that is cut behind `cut` bytes, or whole where it has no more.
    pub fn frames(
        &mut self,
        alloc: Global,
        whole: usize,
        cut: usize,
    ) -> Result<Vec<Vec<u8>>, AllocError> {
        let mut frames = Vec::new(alloc);
        for _ in 0..whole {
            self.push_whole(alloc, &mut frames)?;
        }
        self.push_cut(alloc, &mut frames, cut)?;
        Ok(frames)
    }
}
