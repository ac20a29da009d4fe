//! A piece of a text.
ghost use Rattle.std.specs.Prelude.{◌≤◌, length};

/// Bytes, and behind those that belong to the piece ahead of it whole lines of a text.
#[derive(Drop)]
pub(crate) struct Piece {
    pub(crate) bytes: Vec<u8>,
    /// Where its own bytes begin.
    pub(crate) from: usize,
    ghost within: { from ≤ length bytes.items },
}

impl Piece {
    ghost use Rattle.std.specs.Prelude.{◌≡◌};
    ghost use Rattle.bench_history.specs.Borders.{own_of};

    /// The bytes of the text that stand in it.
    pub(crate) fn own(&self) -> &[u8]
        ensures { result.now ≡ own_of self.now }
    {
        &self.bytes[self.from..]
    }
}
