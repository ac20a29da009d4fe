//! Frames that were seen in part.

/// How much of a frame was seen.
#[derive(Clone, Copy, Debug, PartialEq, Eq)]
pub enum Extent {
    /// All of it.
    Whole,
    /// Its first bytes: the frame had more, as a capture's snap length leaves them. `..` stands behind them.
    Front,
}
