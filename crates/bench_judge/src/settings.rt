//! What a history is judged by.

/// What a history is judged by.
#[derive(Clone, Copy)]
pub struct JudgeSettings {
    /// The contents of a reply are compared only where its request is a MIB reset, or a Create, Delete, Set, Get or Get next on class
    /// 130, 171, 266 or 268: a real unit has more classes than the model, and so other syncs and other rows. Values of read-only
    /// attributes aren't compared, nor is the size of the table or what is read of it: a real unit has its own. Results, masks and all
    /// other values are.
    pub modelled: bool,
    /// A message with the bytes of the message before it is a repeat: it isn't carried out, and no reply has to come for it. A unit may
    /// answer it from memory.
    pub repeats: bool,
    /// Each frame is judged by itself: a port that several lanes serve may give a frame an older version than one sent before it.
    pub unordered: bool,
    /// A frame that was never sent, or has left before, may leave: a stray is explained.
    pub strays: bool,
    /// A frame that leaves with fewer than 68 bytes may be seen with zeros behind them, up to 68: a wire pads to 60 bytes without the
    /// check sequence (IEEE 802.3, clause 4.2.3.3), before two tags are added.
    pub padded: bool,
}
