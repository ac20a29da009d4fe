//! The GEM interworking termination point, class 266.
ghost use Rattle.std.specs.Prelude.{[], refl};
ghost use Rattle.std.proofs.Common.{rules};

use crate::attribute::Attribute;
use crate::bytes::{Bytes, byte, number, one, two};
use crate::description::{AttributeKind, Description, NamedValue};
use crate::entity::ManagedEntity;
use crate::refusal::Refusal;
use pmapper::Interwork;
use std::alloc::{AllocError, Global};

pub(crate) static LAYOUT: [Attribute; 8] = [
    Attribute::GIVEN_2, // GEM port network CTP connectivity pointer
    Attribute::GIVEN_1, // interworking option
    Attribute::GIVEN_2, // service profile pointer
    Attribute::GIVEN_2, // interworking termination point pointer
    Attribute::READ_ONLY_1, // PPTP counter
    Attribute::READ_ONLY_1, // operational state
    Attribute::GIVEN_2, // GAL profile pointer
    Attribute::WRITABLE_1, // GAL loopback configuration
];

/// What its attributes are called, in the order of the layout.
pub(crate) static DESCRIPTIONS: [Description; 8] = [
    Description {
        name: "GEM port network CTP connectivity pointer",
        word: "gem-port",
        kind: AttributeKind::Pointer,
        values: &[],
    },
    Description {
        name: "Interworking option",
        word: "option",
        kind: AttributeKind::Number,
        values: &[
            NamedValue {
                word: "tdm",
                value: 0,
            },
            NamedValue {
                word: "bridge",
                value: 1,
            },
            NamedValue {
                word: "video",
                value: 4,
            },
            NamedValue {
                word: "mapper",
                value: 5,
            },
            NamedValue {
                word: "broadcast",
                value: 6,
            },
            NamedValue {
                word: "mpls",
                value: 7,
            },
        ],
    },
    Description {
        name: "Service profile pointer",
        word: "service-profile",
        kind: AttributeKind::Pointer,
        values: &[],
    },
    Description {
        name: "Interworking termination point pointer",
        word: "tp",
        kind: AttributeKind::Pointer,
        values: &[],
    },
    Description {
        name: "PPTP counter",
        word: "pptp-counter",
        kind: AttributeKind::Number,
        values: &[],
    },
    Description {
        name: "Operational state",
        word: "operational-state",
        kind: AttributeKind::Number,
        values: &[
            NamedValue {
                word: "enabled",
                value: 0,
            },
            NamedValue {
                word: "disabled",
                value: 1,
            },
        ],
    },
    Description {
        name: "GAL profile pointer",
        word: "gal-profile",
        kind: AttributeKind::Pointer,
        values: &[],
    },
    Description {
        name: "GAL loopback configuration",
        word: "gal-loopback",
        kind: AttributeKind::Number,
        values: &[
            NamedValue {
                word: "off",
                value: 0,
            },
            NamedValue {
                word: "on",
                value: 1,
            },
        ],
    },
];

impl ManagedEntity for Interwork {
    ghost use Rattle.managed_entity.specs.Class.{interwork_layout};
    ghost use Rattle.managed_entity.specs.Shown.{interwork_values};

    ghost layout = { interwork_layout };

    ghost values = { interwork_values };

    ghost entries = { λ s. [] };

    const ROOM: usize = 256;

    ghost ROOM = { 256 };

    const GIVEN: u16 = 0b1111_0010_0000_0000;

    ghost GIVEN = { 0xf200 };

    ghost counts = { λ s. refl };

    ghost fits_mask = { Prim.search rules };

    ghost entries_fit = { refl };

    ghost given_is = { refl };

    ghost given_writable = { refl };

    ghost given_fits = { Prim.search rules };

    fn layout() -> &'static [Attribute] {
        &LAYOUT
    }

    fn new(_alloc: Global) -> Result<Self, AllocError> {
        Ok(Self::default())
    }

    fn reset(&mut self) {
        *self = Self::default();
    }

    fn returned(&self, place: usize) -> Option<Bytes> {
        match place {
            0 => Some(two(self.gem_port_pointer)),
            1 => Some(one(self.interworking_option)),
            2 => Some(two(self.service_profile_pointer)),
            3 => Some(two(self.interworking_tp_pointer)),
            4 => Some(one(self.pptp_counter)),
            5 => Some(one(self.operational_state)),
            6 => Some(two(self.gal_profile_pointer)),
            7 => Some(one(self.gal_loopback_configuration)),
            _ => None,
        }
    }

    fn set_attribute(&mut self, place: usize, bytes: &[u8]) {
        match place {
            0 => self.gem_port_pointer = number(bytes),
            1 => self.interworking_option = byte(bytes),
            2 => self.service_profile_pointer = number(bytes),
            3 => self.interworking_tp_pointer = number(bytes),
            4 => self.pptp_counter = byte(bytes),
            5 => self.operational_state = byte(bytes),
            6 => self.gal_profile_pointer = number(bytes),
            7 => self.gal_loopback_configuration = byte(bytes),
            _ => {}
        }
    }

    fn check_entry(&self, _entry: &[u8]) -> Result<(), Refusal> {
        Err(Refusal::NotSupported)
    }

    fn put_entry(&mut self, _entry: &[u8]) {}
}
