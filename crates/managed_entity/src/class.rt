//! The classes of managed entities (ITU-T G.988, clause 9).

use crate::attribute::Attribute;
use crate::description::Description;
use crate::{gem_port, interwork, mapper, onu_data, vlan};

/// The number of ONU data.
const ONU_DATA: u16 = 2;

/// The number of the class [`Class::Mapper`], for patterns.
pub const MAPPER: u16 = 130;

/// The number of the class [`Class::Vlan`], for patterns.
pub const VLAN: u16 = 171;

/// The number of the class [`Class::Interwork`], for patterns.
pub const INTERWORK: u16 = 266;

/// The number of the class [`Class::GemPort`], for patterns.
pub const GEM_PORT: u16 = 268;

/// A class of managed entities. Those without a variant aren't known.
#[derive(Clone, Copy)]
pub enum Class {
    /// ONU data (ITU-T G.988, clause 9.1.3).
    OnuData,
    /// 802.1p mapper service profile (clause 9.3.10).
    Mapper,
    /// Extended VLAN tagging operation configuration data (clause 9.3.13).
    Vlan,
    /// GEM interworking termination point (clause 9.2.4).
    Interwork,
    /// GEM port network CTP (clause 9.2.3).
    GemPort,
}

impl Class {
    ghost use Rattle.std.specs.Prelude.{◌≡◌, IfSome, MatchOption, Some, is_some, length};
    ghost use Rattle.managed_entity.specs.Class.{attributes_of, class_number, class_of, class_word, is_created, is_known};
    ghost use Rattle.managed_entity.specs.declared.class.Class.{Class};

    /// All classes, by ascending number.
    pub const ALL: [Class; 5] = [
        Class::OnuData,
        Class::Mapper,
        Class::Vlan,
        Class::Interwork,
        Class::GemPort,
    ];

    /// The class of a number, or None where no class that is known has it.
    pub fn of(number: u16) -> Option<Self>
        ensures value { result ≡ class_of number }
        ensures number { IfSome result (λ class. number ≡ class_number class) }
        ensures known { is_some result ≡ is_known number }
    {
        match number {
            ONU_DATA => Some(Class::OnuData),
            MAPPER => Some(Class::Mapper),
            VLAN => Some(Class::Vlan),
            INTERWORK => Some(Class::Interwork),
            GEM_PORT => Some(Class::GemPort),
            _ => None,
        }
    }

    /// Whether a line terminal creates the instances of the class of a number: those of ONU data are always there, and of a class
    /// that isn't known there are none.
    pub fn is_created(number: u16) -> bool
        ensures { result ≡ is_created number }
    {
        matches!(number, MAPPER | VLAN | INTERWORK | GEM_PORT)
    }

    /// Its number.
    pub fn number(self) -> u16
        ensures value { result ≡ class_number self }
        ensures back { class_of result ≡ Some self }
    {
        match self {
            Class::OnuData => ONU_DATA,
            Class::Mapper => MAPPER,
            Class::Vlan => VLAN,
            Class::Interwork => INTERWORK,
            Class::GemPort => GEM_PORT,
        }
    }

    /// What it is called.
    pub fn name(self) -> &'static str {
        match self {
            Class::OnuData => "ONU data",
            Class::Mapper => "802.1p mapper service profile",
            Class::Vlan => "Extended VLAN tagging operation configuration data",
            Class::Interwork => "GEM interworking termination point",
            Class::GemPort => "GEM port network CTP",
        }
    }

    /// Its short word, in lower case with dashes.
    pub fn word(self) -> &'static str
        ensures { result.now ≡ class_word self }
    {
        match self {
            Class::OnuData => "onu-data",
            Class::Mapper => "mapper",
            Class::Vlan => "vlan",
            Class::Interwork => "interwork",
            Class::GemPort => "gem-port",
        }
    }

    /// The class of a short word.
    pub fn of_word(word: &[u8]) -> Option<Self>
        ensures { MatchOption result
            ((class : Class) → ¬ (word.now ≡ class_word class))
            (λ class. word.now ≡ class_word class) }
    {
        match word {
            b"onu-data" => Some(Class::OnuData),
            b"mapper" => Some(Class::Mapper),
            b"vlan" => Some(Class::Vlan),
            b"interwork" => Some(Class::Interwork),
            b"gem-port" => Some(Class::GemPort),
            _ => None,
        }
    }

    /// Its attributes, by ascending number.
    pub fn layout(self) -> &'static [Attribute]
        ensures { result.now ≡ attributes_of (class_number self) }
    {
        match self {
            Class::OnuData => &onu_data::LAYOUT,
            Class::Mapper => &mapper::LAYOUT,
            Class::Vlan => &vlan::LAYOUT,
            Class::Interwork => &interwork::LAYOUT,
            Class::GemPort => &gem_port::LAYOUT,
        }
    }

    /// What its attributes are called, by ascending number: one description for each.
    pub fn descriptions(self) -> &'static [Description]
        ensures { length result.now ≡ length (attributes_of (class_number self)) }
    {
        match self {
            Class::OnuData => &onu_data::DESCRIPTIONS,
            Class::Mapper => &mapper::DESCRIPTIONS,
            Class::Vlan => &vlan::DESCRIPTIONS,
            Class::Interwork => &interwork::DESCRIPTIONS,
            Class::GemPort => &gem_port::DESCRIPTIONS,
        }
    }
}
