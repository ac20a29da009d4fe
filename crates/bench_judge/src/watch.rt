//! Who is told how far a judgement is.

/// How far a judgement is. Where every deviation is looked for, the stages behind the reading come again for each.
#[derive(Clone, Copy)]
pub enum Stage {
    /// The history is read: so many of so many bytes. It is told each 65,536 lines.
    Reading { bytes: usize, of: usize },
    /// The history was read: so many lines.
    Read { lines: usize },
    /// The events are walked: so many of so many lines. It is told each 65,536 lines.
    Walking { lines: usize, of: usize },
    /// The events were walked, all of them or up to the first that no right unit shows whatever becomes of its other frames: a wrong
    /// reply, a stray, or a frame that left as none of those that it may be does. They have so many frames and accepted requests; the
    /// frames' versions are looked for now.
    Walked { frames: usize, requests: usize },
    /// The frames' versions are looked for: so many of so many accepted requests were carried out. It is told at each of these.
    Sweeping { versions: usize, of: usize },
    /// The history isn't explained, and the first line that shows it is one of so many.
    Halving { lines: usize },
}

/// Who is told how far a judgement is. What it does has no part in the judgement.
pub trait Watch {
    /// Is told that a judgement has come to a stage.
    fn reached(&mut self, stage: Stage);
}

/// Nobody is told.
#[derive(Drop)]
pub struct Nobody;

impl Watch for Nobody {
    fn reached(&mut self, _stage: Stage) {}
}
