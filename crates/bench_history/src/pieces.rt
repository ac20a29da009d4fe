//! A history's text in pieces.
use crate::event::Event;
use crate::fault::HistoryFault;
use crate::joining::joined;
use crate::piece::Piece;
use crate::reading::Reading;
use crate::watch::{Ahead, Nobody, ReadWatch};
use std::alloc::{AllocError, Global};
use std::marker::Model;

/// A text in pieces, known by its bytes. It is nowhere as a whole, and each of its lines lies whole in one piece.
#[derive(Drop)]
pub struct Pieces {
    pieces: Vec<Piece>,
}

impl Model for Pieces {
    ghost use Rattle.std.specs.Prelude.{ℕ, List};
    ghost use Rattle.bench_history.specs.Borders.{AreWhole, text_of};

    ghost Value = { List ℕ };

    ghost view = { λ p. text_of p.pieces.items };

    ghost invariant = { λ p. AreWhole p.pieces.items };
}

/// How many bytes of a text pieces hold.
fn length_of(pieces: &[Piece]) -> usize {
    let mut length: usize = 0;
    for piece in pieces {
        length = length.saturating_add(piece.own().len());
    }
    length
}

impl Pieces {
    ghost use Rattle.std.specs.Prelude.{◌≡◌, IfErr, IfOk, Ok};
    ghost use Rattle.std.specs.List.{flat_map};
    ghost use Rattle.bench_history.specs.History.{IsWhyUnread, history_of};

    /// The text whose parts these are, one behind the other, cut anywhere. The end of a line that begins in the part ahead is copied
    /// there; all other bytes stay where they are, if there is room for that end behind them.
    pub fn join(alloc: Global, parts: Vec<Vec<u8>>) -> Result<Pieces, AllocError>
        ensures { IfOk result (λ pieces. pieces ≡ flat_map (λ part. part.items) parts.items) }
    {
        Ok(Pieces {
            pieces: joined(alloc, parts)?,
        })
    }

    /// The text, part by part. Each of its lines lies whole in one part.
    pub fn parts(&self, alloc: Global) -> Result<Vec<&[u8]>, AllocError>
        ensures { IfOk result (λ parts. flat_map (λ part. part.now) parts.items ≡ self.now) }
    {
        let mut parts = Vec::with_capacity(alloc, self.pieces.len())?;
        'each_piece: for piece in &self.pieces {
            parts.push(piece.own())?;
        }
        Ok(parts)
    }

    /// The events of the history, as [`read_history`](crate::read_history) reads them of a text that is one slice.
    pub fn read(&self, alloc: Global) -> Result<Vec<Event<'_>>, HistoryFault>
        ensures events { IfOk result (λ events. history_of self.now ≡ Ok events.items) }
        ensures fault { IfErr result (IsWhyUnread self.now) }
    {
        self.read_watched(alloc, &mut Nobody)
    }

    /// Does as [`read`](Self::read) does, and tells meanwhile how far it is.
    pub fn read_watched<W: ReadWatch>(
        &self,
        alloc: Global,
        watch: &mut W,
    ) -> Result<Vec<Event<'_>>, HistoryFault>
        ensures events { IfOk result (λ events. history_of self.now ≡ Ok events.items) }
        ensures fault { IfErr result (IsWhyUnread self.now) }
    {
        let of = length_of(&self.pieces);
        let mut behind = of;
        let mut reading = Reading::new(alloc);
        'each_piece: for piece in &self.pieces {
            behind = behind.saturating_sub(piece.own().len());
            match reading.read(piece.own(), Ahead { behind, of }, watch) {
                Ok(()) => {}
                Err(fault) => return Err(fault),
            }
        }
        let Reading { events, seen: _ } = reading;
        Ok(events)
    }
}
