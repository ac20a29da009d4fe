//! What a managed entity is attached to, by an attribute that says to which kind of thing and one that points to it.
ghost use Rattle.std.specs.Prelude.{◌≡◌, ℕ};

use managed_entity::{ManagedEntity, VlanConfig};
use pmapper::Mapper;

/// The TP type of a mapper whose TP pointer is to a PPTP Ethernet UNI (ITU-T G.988, clause 9.3.10).
pub const TP_TYPE_UNI: u8 = 1;

/// The association type of a table whose pointer is to an 802.1p mapper (ITU-T G.988, clause 9.3.13).
pub const ASSOCIATION_MAPPER: u8 = 1;

/// The association type of a table whose pointer is to a PPTP Ethernet UNI (ITU-T G.988, clause 9.3.13).
pub const ASSOCIATION_UNI: u8 = 2;

/// A class whose instances are attached to something.
pub(crate) trait AttachedEntity: ManagedEntity {
    ghost use Rattle.std.specs.Prelude.{Bool};
    ghost use Rattle.managed_entity.specs.Instance.{Instance, shown_as};

    /// Whether an instance is attached to a thing of a kind, by its attributes.
    ghost is_attached: { ℕ → ℕ → Instance → Bool };

    fn is_attached(&self, kind: u8, to: u16) -> bool
        ensures { (n : ℕ)
            → result ≡ is_attached kind to (shown_as n (Self.values self.now)
            (Self.entries self.now)) };
}

/// By the TP type and the TP pointer.
impl AttachedEntity for Mapper {
    ghost use Rattle.mib_state.specs.Attached.{is_mapper_of};

    ghost is_attached = { is_mapper_of };

    fn is_attached(&self, kind: u8, to: u16) -> bool {
        self.tp_type == kind && self.tp_pointer == to
    }
}

/// By the association type and the associated ME pointer.
impl AttachedEntity for VlanConfig {
    ghost use Rattle.mib_state.specs.Attached.{is_table_of};

    ghost is_attached = { is_table_of };

    fn is_attached(&self, kind: u8, to: u16) -> bool {
        self.association == kind && self.pointer == to
    }
}
