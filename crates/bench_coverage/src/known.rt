//! The classes of the frames that one version has met, by their first bytes: most frames begin as one before them did.
ghost use Rattle.std.specs.Prelude.{◌≡◌, ◌<◌, ◌^◌, ℕ, true, All, IfOk, IfSome, List};
ghost use Rattle.mib_state.specs.Entities.{Entities};
ghost use Rattle.script_heads.specs.Heads.{IsHeadOf};
ghost use Rattle.bench_coverage.specs.Known.{AreKnown, IsClassFrom};

use byteorder::{BigEndian, ByteOrder};
use frame_classes::FrameClass;
use std::alloc::{AllocError, Global};

/// How many bytes of a frame give its class, with its length.
const FRONT: usize = 24;

/// How many frames are kept at most.
const PLACES: usize = 256;

/// The class of frames that begin alike and are as long.
#[derive(Clone, Copy)]
pub(crate) struct Known {
    front: [u8; FRONT],
    length: usize,
    class: FrameClass,
}

/// The classes that are kept. One whose place another one gets is found anew.
#[derive(Drop)]
pub(crate) struct KnownClasses {
    places: Vec<Option<Known>>,
}

/// The place of what begins so. Tags and the front of an IP header differ most.
fn place_of(front: &[u8; FRONT]) -> usize {
    let tags = BigEndian::read_u64(&front[12..]);
    let rest = BigEndian::read_u64(&front[16..]);
    let mixed = (tags ^ rest.rotate_left(23)).wrapping_mul(0x9e37_79b9_7f4a_7c15);
    (mixed >> 32) as usize % PLACES
}

/// Whether this is the class of what begins so and is as long.
fn is_of(known: &Known, front: &[u8; FRONT], length: usize) -> bool
    ensures { result ≡ true → (known.now.front ≡ front.now) × (known.now.length ≡ length) }
{
    known.length == length && known.front == *front
}

impl KnownClasses {
    /// None is known.
    pub(crate) fn new(alloc: Global) -> Result<KnownClasses, AllocError>
        ensures { (e : Entities) (port : ℕ) → IfOk result (AreKnown e port) }
    {
        let places = vec![in alloc; None; PLACES]?;
        Ok(KnownClasses { places })
    }

    /// The class of frames that begin as a head does, if it is known.
    pub(crate) fn find(&self, head: &[u8]) -> Option<FrameClass>
        ensures { (e : Entities) (port : ℕ) → AreKnown e port self.now → IfSome result (IsClassFrom e port head.now) }
    {
        let front = head.first_chunk::<FRONT>()?;
        match self.places.get(place_of(front)) {
            Some(Some(known)) if is_of(known, front, head.len()) => Some(known.class),
            _ => None,
        }
    }

    /// Keeps the class of frames that begin as a head does.
    pub(crate) fn keep(&mut self, head: &[u8], class: FrameClass)
        ensures { (e : Entities) (port : ℕ) → AreKnown e port self.old → IsClassFrom e port head.now class
            → AreKnown e port self.new }
    {
        let Some(front) = head.first_chunk::<FRONT>() else {
            return;
        };
        if let Some(place) = self.places.get_mut(place_of(front)) {
            *place = Some(Known {
                front: *front,
                length: head.len(),
                class,
            });
        }
    }
}
