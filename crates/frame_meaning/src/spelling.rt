//! The bytes of a frame as it leaves.
use crate::out_frame::OutFrame;
use std::alloc::AllocError;
use thiserror::Error;

/// There is no memory for the bytes of a frame.
#[derive(Clone, Copy, Debug, PartialEq, Eq, Error)]
#[error("no memory for the bytes of the frame")]
pub struct NoMemory;

impl From<AllocError> for NoMemory {
    fn from(_refused: AllocError) -> NoMemory {
        NoMemory
    }
}

impl<'a> OutFrame<'a> {
    ghost use Rattle.std.specs.Prelude.{◌≡◌, ◌+◌, ◌<◌, ◌++◌, length, OnOk, OnErr, vec_len, vec_capacity};
    ghost use Rattle.tag_view.specs.Frame.{frame_bytes};

    /// The number of its bytes.
    #[tactic(auto, using(crate::proofs::Spellings::spelled_lengths))]
    pub fn len(&self) -> u128
        ensures { result ≡ length (frame_bytes self.now) }
    {
        self.addresses().len() as u128 + 4 * self.tags().len() as u128 + self.rest().len() as u128
    }

    /// Appends the bytes of the frame.
    #[tactic(auto, using(crate::proofs::Spellings::spelled_lengths))]
    pub fn append_to(&self, bytes: &mut Vec<u8>) -> Result<(), NoMemory>
        ensures appended { OnOk result (bytes.new.items ≡ bytes.old.items ++ frame_bytes self.now) }
        ensures unchanged { OnErr result (bytes.new.items ≡ bytes.old.items) }
        ensures full { OnErr result
            (vec_capacity bytes.old < vec_len bytes.old + length (frame_bytes self.now)) }
    {
        let len = usize::try_from(self.len()).map_err(|_| NoMemory)?;
        bytes.reserve(len)?;
        bytes.extend_from_slice(self.addresses()).unwrap();
        'each_tag: for tag in self.tags() {
            bytes.extend_from_slice(&tag.bytes()).unwrap();
        }
        bytes.extend_from_slice(self.rest()).unwrap();
        Ok(())
    }
}
