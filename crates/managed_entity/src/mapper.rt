//! The 802.1p mapper service profile, class 130.
ghost use Rattle.std.specs.Prelude.{[], refl};
ghost use Rattle.std.proofs.Common.{rules};

use crate::attribute::Attribute;
use crate::bytes::{Bytes, byte, dscp_map, number, one, two, whole};
use crate::description::{AttributeKind, Description, NamedValue};
use crate::entity::ManagedEntity;
use crate::refusal::Refusal;
use pmapper::Mapper;
use std::alloc::{AllocError, Global};
use tag_view::DscpMap;

/// A mapper whose attributes are all 0.
const NEW: Mapper = Mapper {
    tp_pointer: 0,
    interwork_tp_pointers: [0; 8],
    unmarked_frame_option: 0,
    dscp_map: DscpMap([0; 24]),
    default_p_bit_assumption: 0,
    tp_type: 0,
};

pub(crate) static LAYOUT: [Attribute; 13] = [
    Attribute::GIVEN_2, // TP pointer
    Attribute::GIVEN_2, // interwork TP pointer for P-bit priority 0
    Attribute::GIVEN_2, // for 1
    Attribute::GIVEN_2, // for 2
    Attribute::GIVEN_2, // for 3
    Attribute::GIVEN_2, // for 4
    Attribute::GIVEN_2, // for 5
    Attribute::GIVEN_2, // for 6
    Attribute::GIVEN_2, // for 7
    Attribute::GIVEN_1, // unmarked frame option
    Attribute::WRITABLE_24, // DSCP to P-bit mapping
    Attribute::GIVEN_1, // default P-bit assumption
    Attribute::GIVEN_1, // TP type
];

/// What its attributes are called, in the order of the layout.
pub(crate) static DESCRIPTIONS: [Description; 13] = [
    Description {
        name: "TP pointer",
        word: "tp",
        kind: AttributeKind::Pointer,
        values: &[],
    },
    Description {
        name: "Interwork TP pointer for P-bit priority 0",
        word: "p0",
        kind: AttributeKind::Pointer,
        values: &[NamedValue {
            word: "none",
            value: 0xffff,
        }],
    },
    Description {
        name: "Interwork TP pointer for P-bit priority 1",
        word: "p1",
        kind: AttributeKind::Pointer,
        values: &[NamedValue {
            word: "none",
            value: 0xffff,
        }],
    },
    Description {
        name: "Interwork TP pointer for P-bit priority 2",
        word: "p2",
        kind: AttributeKind::Pointer,
        values: &[NamedValue {
            word: "none",
            value: 0xffff,
        }],
    },
    Description {
        name: "Interwork TP pointer for P-bit priority 3",
        word: "p3",
        kind: AttributeKind::Pointer,
        values: &[NamedValue {
            word: "none",
            value: 0xffff,
        }],
    },
    Description {
        name: "Interwork TP pointer for P-bit priority 4",
        word: "p4",
        kind: AttributeKind::Pointer,
        values: &[NamedValue {
            word: "none",
            value: 0xffff,
        }],
    },
    Description {
        name: "Interwork TP pointer for P-bit priority 5",
        word: "p5",
        kind: AttributeKind::Pointer,
        values: &[NamedValue {
            word: "none",
            value: 0xffff,
        }],
    },
    Description {
        name: "Interwork TP pointer for P-bit priority 6",
        word: "p6",
        kind: AttributeKind::Pointer,
        values: &[NamedValue {
            word: "none",
            value: 0xffff,
        }],
    },
    Description {
        name: "Interwork TP pointer for P-bit priority 7",
        word: "p7",
        kind: AttributeKind::Pointer,
        values: &[NamedValue {
            word: "none",
            value: 0xffff,
        }],
    },
    Description {
        name: "Unmarked frame option",
        word: "unmarked",
        kind: AttributeKind::Number,
        values: &[
            NamedValue {
                word: "dscp",
                value: 0,
            },
            NamedValue {
                word: "default",
                value: 1,
            },
        ],
    },
    Description {
        name: "DSCP to P-bit mapping",
        word: "dscp",
        kind: AttributeKind::DscpMapping,
        values: &[],
    },
    Description {
        name: "Default P-bit assumption",
        word: "default",
        kind: AttributeKind::Number,
        values: &[],
    },
    Description {
        name: "TP type",
        word: "tp-type",
        kind: AttributeKind::Number,
        values: &[
            NamedValue {
                word: "bridge",
                value: 0,
            },
            NamedValue {
                word: "pptp",
                value: 1,
            },
            NamedValue {
                word: "ip-host",
                value: 2,
            },
            NamedValue {
                word: "ethernet-flow",
                value: 3,
            },
            NamedValue {
                word: "xdsl",
                value: 4,
            },
            NamedValue {
                word: "moca",
                value: 6,
            },
            NamedValue {
                word: "veip",
                value: 7,
            },
        ],
    },
];

impl ManagedEntity for Mapper {
    ghost use Rattle.managed_entity.specs.Class.{mapper_layout};
    ghost use Rattle.managed_entity.specs.Shown.{mapper_values};

    ghost layout = { mapper_layout };

    ghost values = { mapper_values };

    ghost entries = { λ s. [] };

    const ROOM: usize = 32;

    ghost ROOM = { 32 };

    const GIVEN: u16 = 0b1111_1111_1101_1000;

    ghost GIVEN = { 0xffd8 };

    ghost counts = { λ s. refl };

    ghost fits_mask = { Prim.search rules };

    ghost entries_fit = { refl };

    ghost given_is = { refl };

    ghost given_writable = { refl };

    ghost given_fits = { Prim.search rules };

    fn layout() -> &'static [Attribute] {
        &LAYOUT
    }

    fn new(_alloc: Global) -> Result<Self, AllocError> {
        Ok(NEW)
    }

    fn reset(&mut self) {
        *self = NEW;
    }

    fn returned(&self, place: usize) -> Option<Bytes> {
        match place {
            0 => Some(two(self.tp_pointer)),
            1 => Some(two(self.interwork_tp_pointers[0])),
            2 => Some(two(self.interwork_tp_pointers[1])),
            3 => Some(two(self.interwork_tp_pointers[2])),
            4 => Some(two(self.interwork_tp_pointers[3])),
            5 => Some(two(self.interwork_tp_pointers[4])),
            6 => Some(two(self.interwork_tp_pointers[5])),
            7 => Some(two(self.interwork_tp_pointers[6])),
            8 => Some(two(self.interwork_tp_pointers[7])),
            9 => Some(one(self.unmarked_frame_option)),
            10 => Some(whole(&self.dscp_map)),
            11 => Some(one(self.default_p_bit_assumption)),
            12 => Some(one(self.tp_type)),
            _ => None,
        }
    }

    fn set_attribute(&mut self, place: usize, bytes: &[u8]) {
        match place {
            0 => self.tp_pointer = number(bytes),
            1 => self.interwork_tp_pointers[0] = number(bytes),
            2 => self.interwork_tp_pointers[1] = number(bytes),
            3 => self.interwork_tp_pointers[2] = number(bytes),
            4 => self.interwork_tp_pointers[3] = number(bytes),
            5 => self.interwork_tp_pointers[4] = number(bytes),
            6 => self.interwork_tp_pointers[5] = number(bytes),
            7 => self.interwork_tp_pointers[6] = number(bytes),
            8 => self.interwork_tp_pointers[7] = number(bytes),
            9 => self.unmarked_frame_option = byte(bytes),
            10 => self.dscp_map = dscp_map(bytes),
            11 => self.default_p_bit_assumption = byte(bytes),
            12 => self.tp_type = byte(bytes),
            _ => {}
        }
    }

    fn check_entry(&self, _entry: &[u8]) -> Result<(), Refusal> {
        Err(Refusal::NotSupported)
    }

    fn put_entry(&mut self, _entry: &[u8]) {}
}
