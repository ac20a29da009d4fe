//! The GEM port network CTP, class 268.
ghost use Rattle.std.specs.Prelude.{[], refl};
ghost use Rattle.std.proofs.Common.{rules};

use crate::attribute::Attribute;
use crate::bytes::{Bytes, byte, number, one, two};
use crate::description::{AttributeKind, Description, NamedValue};
use crate::entity::ManagedEntity;
use crate::refusal::Refusal;
use pmapper::GemPort;
use std::alloc::{AllocError, Global};

pub(crate) static LAYOUT: [Attribute; 10] = [
    Attribute::GIVEN_2, // port-ID
    Attribute::GIVEN_2, // T-CONT pointer
    Attribute::GIVEN_1, // direction
    Attribute::GIVEN_2, // traffic management pointer for upstream
    Attribute::GIVEN_2, // traffic descriptor profile pointer for upstream
    Attribute::READ_ONLY_1, // UNI counter
    Attribute::GIVEN_2, // priority queue pointer for downstream
    Attribute::READ_ONLY_1, // encryption state
    Attribute::GIVEN_2, // traffic descriptor profile pointer for downstream
    Attribute::GIVEN_1, // encryption key ring
];

/// What its attributes are called, in the order of the layout.
pub(crate) static DESCRIPTIONS: [Description; 10] = [
    Description {
        name: "Port-ID",
        word: "port-id",
        kind: AttributeKind::Number,
        values: &[],
    },
    Description {
        name: "T-CONT pointer",
        word: "tcont",
        kind: AttributeKind::Pointer,
        values: &[],
    },
    Description {
        name: "Direction",
        word: "direction",
        kind: AttributeKind::Number,
        values: &[
            NamedValue {
                word: "upstream",
                value: 1,
            },
            NamedValue {
                word: "downstream",
                value: 2,
            },
            NamedValue {
                word: "both",
                value: 3,
            },
        ],
    },
    Description {
        name: "Traffic management pointer for upstream",
        word: "traffic-management",
        kind: AttributeKind::Pointer,
        values: &[],
    },
    Description {
        name: "Traffic descriptor profile pointer for upstream",
        word: "upstream-descriptor",
        kind: AttributeKind::Pointer,
        values: &[],
    },
    Description {
        name: "UNI counter",
        word: "uni-counter",
        kind: AttributeKind::Number,
        values: &[],
    },
    Description {
        name: "Priority queue pointer for downstream",
        word: "priority-queue",
        kind: AttributeKind::Pointer,
        values: &[],
    },
    Description {
        name: "Encryption state",
        word: "encryption-state",
        kind: AttributeKind::Number,
        values: &[],
    },
    Description {
        name: "Traffic descriptor profile pointer for downstream",
        word: "downstream-descriptor",
        kind: AttributeKind::Pointer,
        values: &[],
    },
    Description {
        name: "Encryption key ring",
        word: "key-ring",
        kind: AttributeKind::Number,
        values: &[
            NamedValue {
                word: "none",
                value: 0,
            },
            NamedValue {
                word: "unicast",
                value: 1,
            },
            NamedValue {
                word: "broadcast",
                value: 2,
            },
            NamedValue {
                word: "unicast-downstream",
                value: 3,
            },
        ],
    },
];

impl ManagedEntity for GemPort {
    ghost use Rattle.managed_entity.specs.Class.{gem_port_layout};
    ghost use Rattle.managed_entity.specs.Shown.{gem_port_values};

    ghost layout = { gem_port_layout };

    ghost values = { gem_port_values };

    ghost entries = { λ s. [] };

    const ROOM: usize = 256;

    ghost ROOM = { 256 };

    const GIVEN: u16 = 0b1111_1010_1100_0000;

    ghost GIVEN = { 0xfac0 };

    ghost counts = { λ s. refl };

    ghost fits_mask = { Prim.search rules };

    ghost entries_fit = { refl };

    ghost given_is = { refl };

    ghost given_writable = { refl };

    ghost given_fits = { Prim.search rules };

    fn layout() -> &'static [Attribute] {
        &LAYOUT
    }

    fn new(_alloc: Global) -> Result<Self, AllocError> {
        Ok(Self::default())
    }

    fn reset(&mut self) {
        *self = Self::default();
    }

    fn returned(&self, place: usize) -> Option<Bytes> {
        match place {
            0 => Some(two(self.port_id)),
            1 => Some(two(self.t_cont_pointer)),
            2 => Some(one(self.direction)),
            3 => Some(two(self.traffic_management_pointer_upstream)),
            4 => Some(two(self.traffic_descriptor_pointer_upstream)),
            5 => Some(one(self.uni_counter)),
            6 => Some(two(self.priority_queue_pointer_downstream)),
            7 => Some(one(self.encryption_state)),
            8 => Some(two(self.traffic_descriptor_pointer_downstream)),
            9 => Some(one(self.encryption_key_ring)),
            _ => None,
        }
    }

    fn set_attribute(&mut self, place: usize, bytes: &[u8]) {
        match place {
            0 => self.port_id = number(bytes),
            1 => self.t_cont_pointer = number(bytes),
            2 => self.direction = byte(bytes),
            3 => self.traffic_management_pointer_upstream = number(bytes),
            4 => self.traffic_descriptor_pointer_upstream = number(bytes),
            5 => self.uni_counter = byte(bytes),
            6 => self.priority_queue_pointer_downstream = number(bytes),
            7 => self.encryption_state = byte(bytes),
            8 => self.traffic_descriptor_pointer_downstream = number(bytes),
            9 => self.encryption_key_ring = byte(bytes),
            _ => {}
        }
    }

    fn check_entry(&self, _entry: &[u8]) -> Result<(), Refusal> {
        Err(Refusal::NotSupported)
    }

    fn put_entry(&mut self, _entry: &[u8]) {}
}
