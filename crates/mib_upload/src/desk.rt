//! The reply to every action.
ghost use Rattle.std.specs.Prelude.{◌≡◌, IfOk, false, slice_get};
ghost use Rattle.mib_state.specs.After.{is_accepted};
ghost use Rattle.mib_state.specs.Touch.{touched, IsTouch};
ghost use Rattle.mib_upload.specs.Upload.{start, answered, upload_contents, row_contents, sequence_number};

use crate::shelf::Shelf;
use byteorder::{BigEndian, ByteOrder};
use mib_state::{Carried, Mib, Touch};
use omci_msg::{Action, Reply, Request};
use std::alloc::{AllocError, Global};
use std::marker::Model;

/// The management of an optical network unit as its messages see it: the managed entities with their latched table, and the
/// rows of the last MIB upload.
#[derive(Drop)]
pub struct Desk {
    mib: Mib,
    shelf: Shelf,
}

impl Model for Desk {
    ghost use Rattle.mib_upload.specs.Upload.{DeskState};

    ghost Value = { DeskState };

    ghost view = { λ d. record { mib = d.mib; shelf = d.shelf } };
}

impl Desk {
    /// No instance, sync 0, no latched table and no row, with all the memory that it will need.
    pub fn new(alloc: Global) -> Result<Self, AllocError>
        ensures { IfOk result (λ desk. desk ≡ start) }
    {
        Ok(Desk {
            mib: Mib::new(alloc)?,
            shelf: Shelf::new(alloc)?,
        })
    }

    /// The managed entities with their latched table.
    pub fn mib(&self) -> &Mib
        ensures { result.now ≡ self.now.mib }
    {
        &self.mib
    }

    /// Carries a request out, and answers it. A MIB upload puts the rows of this moment on the shelf and answers their
    /// number; they stand until the next one, a MIB reset notwithstanding. A MIB upload next answers a row of the shelf, or
    /// all zero where no row has its number. Neither looks at the class and the instance. Every other action, Get next among
    /// them, is a step of the MIB. It takes no memory (ITU-T G.988, 11.2 and annex A).
    pub fn answer(&mut self, request: &Request) -> Reply
        ensures reply { result ≡ (answered self.old request.now).0 }
        ensures after { self.new ≡ (answered self.old request.now).1 }
    {
        self.carry_out(request).reply
    }

    /// Does as [`answer`](Desk::answer) does, and says beside the reply what the request touched of the classes 130, 171, 266 and
    /// 268, and whether it was accepted. A MIB upload and a MIB upload next touch nothing and aren't accepted: they change no
    /// entity.
    pub fn carry_out(&mut self, request: &Request) -> Carried
        ensures reply { result.reply ≡ (answered self.old request.now).0 }
        ensures after { self.new ≡ (answered self.old request.now).1 }
        ensures touch { result.touch ≡ touched self.old.mib request.now }
        ensures changes { IsTouch self.old.mib.entities self.new.mib.entities result.touch }
        ensures accepted { result.accepted ≡ is_accepted self.old.mib.entities request.now }
        ensures refused { result.accepted ≡ false → self.new.mib.entities ≡ self.old.mib.entities }
    {
        let contents = match request.action {
            Action::MibUpload => upload_contents(self.shelf.fill(&self.mib)),
            Action::MibUploadNext => self.row_contents(sequence_number(&request.contents)),
            _ => return self.mib.carry_out(request),
        };
        let reply = request.reply_with(contents);
        Carried {
            reply,
            touch: Touch::Nothing,
            accepted: false,
        }
    }

    /// The contents of the answer to a MIB upload next: a row of the shelf, or all zero where no row has the number.
    #[tactic(auto, unfolding(crate::specs::Upload::row_contents))]
    fn row_contents(&self, n: u16) -> [u8; 32]
        ensures { result ≡ row_contents (slice_get self.now.shelf n) }
    {
        match self.shelf.row(n) {
            Some(row) => row.contents(),
            None => [0; 32],
        }
    }
}

/// The contents of the answer to a MIB upload.
#[tactic(auto, unfolding(crate::specs::Upload::upload_contents))]
fn upload_contents(count: u16) -> [u8; 32]
    ensures { result ≡ upload_contents count }
{
    let mut contents = [0; 32];
    BigEndian::write_u16(&mut contents[..2], count);
    contents
}

/// The sequence number that a MIB upload next asks for.
#[tactic(auto, unfolding(crate::specs::Upload::sequence_number))]
fn sequence_number(contents: &[u8; 32]) -> u16
    ensures { result ≡ sequence_number contents.now }
{
    BigEndian::read_u16(contents)
}
