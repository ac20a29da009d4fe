//! What is compared of the contents of a reply.
ghost use Rattle.std.specs.Prelude.{◌≡◌, ◌≤◌, drop, length};
ghost use Rattle.managed_entity.specs.Mask.{mask_of};
ghost use Rattle.bench_reply.specs.Replies.{is_own, is_own_byte, returned_width};

use byteorder::{BigEndian, ByteOrder};
use managed_entity::class::VLAN;
use managed_entity::{Access, Attribute, Class, layout_of, mask_of, names};
use omci_msg::{Action, Reply, Request};

/// What is compared of the contents of a reply with those of the model's.
#[derive(Clone, Copy)]
pub enum Compared {
    /// Each byte.
    Everything,
    /// No byte.
    Nothing,
    /// Each byte of the reply to a Get, but for the values of read-only attributes and the size of a table.
    Values {
        /// The number of the class.
        class: u16,
        /// The mask of the attributes that the model returns.
        mask: u16,
    },
}

/// The mask of attribute 6 alone: the table of class 171.
const TABLE_MASK: u16 = 0x0400;

/// Where the values of the reply to a Get begin, and where they end (ITU-T G.988, annex A).
const VALUES_BEGIN: usize = 3;

const VALUES_END: usize = 28;

/// Whether a unit may have another value of an attribute than the model, by how the attribute is accessed.
pub fn is_own(access: Access) -> bool
    ensures { result ≡ is_own access }
{
    access.is_table() || matches!(access, Access::ReadOnly)
}

/// The number of bytes that the reply to a Get has of an attribute: of a table its size (ITU-T G.988, clause 9.3.13).
pub fn returned_width(attribute: &Attribute) -> usize
    ensures { result ≡ returned_width attribute.now }
{
    if attribute.access.is_table() {
        4
    } else {
        usize::from(attribute.width)
    }
}

/// Whether a byte of the values that a mask names is a unit's own.
fn is_own_byte(layout: &[Attribute], mask: u16, byte: usize) -> bool
    requires { length layout.now ≤ 16 }
    ensures { result ≡ is_own_byte mask 0 layout.now byte }
{
    let mut behind = byte;
    for place in 0..layout.len() {
        if names(mask, place) {
            let width = returned_width(&layout[place]);
            if behind < width {
                return is_own(layout[place].access);
            }
            behind -= width;
        }
    }
    false
}

/// The mask of the attributes that the reply to a Get returns.
#[tactic(auto, unfolding(managed_entity::specs::Mask::mask_of))]
fn returned_mask(contents: &[u8; 32]) -> u16
    ensures { result ≡ mask_of (drop 1 contents.now) }
{
    BigEndian::read_u16(&contents[1..])
}

impl Compared {
    ghost use Rattle.std.specs.Prelude.{◌≡◌, ℕ, Decides, slice_get, true};
    ghost use Rattle.bench_reply.specs.Kept.{compares};
    ghost use Rattle.bench_reply.specs.Replies.{is_compared};

    /// What is compared of the reply to a request: everything, or with `modelled` what the model determines.
    pub(crate) fn of(modelled: bool, request: &Request, reply: &Reply) -> Self
        ensures { (byte : ℕ) → compares result byte
            ≡ is_compared modelled (record { request = request.now; reply = reply.now }) byte }
    {
        if !modelled {
            return Compared::Everything;
        }
        match request.action {
            Action::MibReset => Compared::Everything,
            Action::MibUpload | Action::MibUploadNext | Action::Other(_) => Compared::Nothing,
            _ if !Class::is_created(request.class) => Compared::Nothing,
            Action::Get => Compared::Values {
                class: request.class,
                mask: returned_mask(&reply.contents),
            },
            Action::GetNext if request.class == VLAN && mask_of(&request.contents) == TABLE_MASK =>
                Compared::Nothing,
            _ => Compared::Everything,
        }
    }

    /// Whether a byte of the contents is compared.
    fn compares(self, byte: usize) -> bool
        ensures { result ≡ compares self byte }
    {
        match self {
            Compared::Everything => true,
            Compared::Nothing => false,
            Compared::Values { class, mask } => {
                if byte < VALUES_BEGIN || byte >= VALUES_END {
                    return true;
                }
                !is_own_byte(layout_of(class), mask, byte - VALUES_BEGIN)
            }
        }
    }

    /// Whether contents agree in each byte that is compared.
    pub(crate) fn agree(self, seen: &[u8; 32], model: &[u8; 32]) -> bool
        ensures { Decides result ((byte : ℕ) → compares self byte ≡ true
            → slice_get seen.now byte ≡ slice_get model.now byte) }
    {
        for byte in 0..32 {
            if seen[byte] != model[byte] && self.compares(byte) {
                return false;
            }
        }
        true
    }
}
