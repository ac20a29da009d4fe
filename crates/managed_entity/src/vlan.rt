//! The extended VLAN tagging operation configuration data, class 171.
ghost use Rattle.std.specs.Prelude.{◌≡◌, length, refl};
ghost use Rattle.std.proofs.Common.{rules};

use crate::attribute::{Access, Attribute};
use crate::bytes::{Bytes, byte, dscp_map, four, number, one, two, whole};
use crate::description::{AttributeKind, Description, NamedValue};
use crate::entity::ManagedEntity;
use crate::refusal::Refusal;
use std::alloc::{AllocError, Global};
use tag_view::{CUSTOMER_TPID, DscpMap};
use vlan_rule::{Entry, RuleTable, TABLE_MAX_SIZE, TableSettings};

/// An extended VLAN tagging operation configuration data, which says how the tags of a port's frames are treated (ITU-T
/// G.988, clause 9.3.13). The fields are its attributes; the table's max size, attribute 2, is [`TABLE_MAX_SIZE`].
#[derive(Drop)]
pub struct VlanConfig {
    /// The association type. 1: the pointer is to an 802.1p mapper service profile; 2: to a PPTP Ethernet UNI.
    pub association: u8,
    /// The input TPID, the output TPID and the DSCP to P-bit mapping.
    pub settings: TableSettings,
    /// The downstream mode, which has no effect.
    pub downstream: u8,
    /// The associated ME pointer: the mapper or the port, by the association type.
    pub pointer: u16,
    /// The received frame VLAN tagging operation table.
    pub table: RuleTable,
}

/// What both TPIDs are after Create, which is a choice of this project.
const TPID: u16 = CUSTOMER_TPID;

pub(crate) static LAYOUT: [Attribute; 8] = [
    Attribute::GIVEN_1, // association type
    // received frame VLAN tagging operation table max size
    Attribute {
        width: 2,
        access: Access::ReadOnly,
        initial: TABLE_MAX_SIZE,
    },
    // input TPID
    Attribute {
        width: 2,
        access: Access::Writable,
        initial: TPID,
    },
    // output TPID
    Attribute {
        width: 2,
        access: Access::Writable,
        initial: TPID,
    },
    Attribute::WRITABLE_1, // downstream mode
    // received frame VLAN tagging operation table
    Attribute {
        width: 16,
        access: Access::Table,
        initial: 0,
    },
    Attribute::GIVEN_2, // associated ME pointer
    Attribute::WRITABLE_24, // DSCP to P-bit mapping
];

/// What its attributes are called, in the order of the layout.
pub(crate) static DESCRIPTIONS: [Description; 8] = [
    Description {
        name: "Association type",
        word: "association",
        kind: AttributeKind::Number,
        values: &[
            NamedValue {
                word: "bridge-port",
                value: 0,
            },
            NamedValue {
                word: "mapper",
                value: 1,
            },
            NamedValue {
                word: "pptp",
                value: 2,
            },
            NamedValue {
                word: "ip-host",
                value: 3,
            },
            NamedValue {
                word: "xdsl",
                value: 4,
            },
            NamedValue {
                word: "interwork",
                value: 5,
            },
            NamedValue {
                word: "multicast",
                value: 6,
            },
            NamedValue {
                word: "moca",
                value: 7,
            },
            NamedValue {
                word: "ethernet-flow",
                value: 9,
            },
            NamedValue {
                word: "veip",
                value: 10,
            },
            NamedValue {
                word: "mpls",
                value: 11,
            },
            NamedValue {
                word: "efm-bonding",
                value: 12,
            },
        ],
    },
    Description {
        name: "Received frame VLAN tagging operation table max size",
        word: "table-max-size",
        kind: AttributeKind::Number,
        values: &[],
    },
    Description {
        name: "Input TPID",
        word: "input-tpid",
        kind: AttributeKind::Tpid,
        values: &[],
    },
    Description {
        name: "Output TPID",
        word: "output-tpid",
        kind: AttributeKind::Tpid,
        values: &[],
    },
    Description {
        name: "Downstream mode",
        word: "downstream",
        kind: AttributeKind::Number,
        values: &[
            NamedValue {
                word: "inverse",
                value: 0,
            },
            NamedValue {
                word: "unchanged",
                value: 1,
            },
            NamedValue {
                word: "discard",
                value: 8,
            },
        ],
    },
    Description {
        name: "Received frame VLAN tagging operation table",
        word: "table",
        kind: AttributeKind::Table,
        values: &[],
    },
    Description {
        name: "Associated ME pointer",
        word: "pointer",
        kind: AttributeKind::Pointer,
        values: &[],
    },
    Description {
        name: "DSCP to P-bit mapping",
        word: "dscp",
        kind: AttributeKind::DscpMapping,
        values: &[],
    },
];

/// The settings after Create.
const SETTINGS: TableSettings = TableSettings {
    input_tpid: TPID,
    output_tpid: TPID,
    dscp_map: DscpMap([0; 24]),
};

impl ManagedEntity for VlanConfig {
    ghost use Rattle.managed_entity.specs.Class.{vlan_layout};
    ghost use Rattle.managed_entity.specs.Shown.{vlan_values};

    ghost layout = { vlan_layout };

    ghost values = { vlan_values };

    ghost entries = { λ s. s.table };

    const ROOM: usize = 16;

    ghost ROOM = { 16 };

    const GIVEN: u16 = 0b1000_0010_0000_0000;

    ghost GIVEN = { 0x8200 };

    ghost counts = { λ s. refl };

    ghost fits_mask = { Prim.search rules };

    ghost entries_fit = { refl };

    ghost given_is = { refl };

    ghost given_writable = { refl };

    ghost given_fits = { Prim.search rules };

    fn layout() -> &'static [Attribute] {
        &LAYOUT
    }

    fn new(alloc: Global) -> Result<Self, AllocError> {
        Ok(VlanConfig {
            association: 0,
            settings: SETTINGS,
            downstream: 0,
            pointer: 0,
            table: RuleTable::new(alloc)?,
        })
    }

    fn reset(&mut self) {
        self.association = 0;
        self.settings = SETTINGS;
        self.downstream = 0;
        self.pointer = 0;
        self.table.reset();
    }

    fn returned(&self, place: usize) -> Option<Bytes> {
        match place {
            0 => Some(one(self.association)),
            1 => Some(two(TABLE_MAX_SIZE)),
            2 => Some(two(self.settings.input_tpid)),
            3 => Some(two(self.settings.output_tpid)),
            4 => Some(one(self.downstream)),
            5 => Some(four(16 * self.table.len() as u32)),
            6 => Some(two(self.pointer)),
            7 => Some(whole(&self.settings.dscp_map)),
            _ => None,
        }
    }

    fn set_attribute(&mut self, place: usize, bytes: &[u8]) {
        match place {
            0 => self.association = byte(bytes),
            2 => self.settings.input_tpid = number(bytes),
            3 => self.settings.output_tpid = number(bytes),
            4 => self.downstream = byte(bytes),
            6 => self.pointer = number(bytes),
            7 => self.settings.dscp_map = dscp_map(bytes),
            _ => {}
        }
    }

    fn check_entry(&self, entry: &[u8]) -> Result<(), Refusal> {
        self.table.check(&entry_of(entry))?;
        Ok(())
    }

    #[tactic(auto, using(crate::proofs::Entry::left_by_put))]
    fn put_entry(&mut self, entry: &[u8]) {
        let _ = self.table.put(entry_of(entry));
    }
}

/// The entry of 16 bytes.
fn entry_of(bytes: &[u8]) -> Entry
    requires { length bytes.now ≡ 16 }
    ensures { result.0 ≡ bytes.now }
{
    let mut entry = [0; 16];
    entry.copy_from_slice(bytes);
    Entry(entry)
}
