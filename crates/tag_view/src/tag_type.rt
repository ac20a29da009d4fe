//! The types that begin a tag.
ghost use Rattle.std.specs.Prelude.{◌≡◌};
ghost use Rattle.tag_view.specs.Tag.{is_tag_type};

/// The TPID of a customer VLAN tag, a C-TAG (IEEE 802.1Q, 9.5).
pub const CUSTOMER_TPID: u16 = 0x8100;

/// The TPID of a service VLAN tag, an S-TAG (IEEE 802.1Q, 9.5).
pub const SERVICE_TPID: u16 = 0x88a8;

/// Whether a type begins a tag: it is the TPID of a customer or a service VLAN tag, or the one that the port is set to.
#[inline(always)]
pub fn is_tag_type(tpid: u16, input_tpid: u16) -> bool
    ensures { result ≡ is_tag_type input_tpid tpid }
{
    // Without a branch on each: of frames with tags nobody foresees the type.
    (tpid == CUSTOMER_TPID) | (tpid == SERVICE_TPID) | (tpid == input_tpid)
}
