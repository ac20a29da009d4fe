//! The management information base, and what it shows.
ghost use Rattle.std.specs.Prelude.{◌≡◌, ◌<◌, ◌-◌, IfOk, IfSome, is_some, option_map, length, slice_get};
ghost use Rattle.std.specs.Option.{option_and_then};
ghost use Rattle.managed_entity.specs.Class.{attributes_of, class_number, mapper_class, room_of, vlan_class, width_at};
ghost use Rattle.mib_state.specs.Entities.{nothing, unlatched, instances_of, find, next, place_in};
ghost use Rattle.managed_entity.specs.Instance.{attribute_of, value_at};
ghost use Rattle.mib_state.specs.Attached.{association_uni, is_table_of, least_instance, mapper_of_port, table_of_port};
ghost use Rattle.managed_entity.specs.Shown.{mapper_instance, vlan_instance, interwork_instance, gem_port_instance};

use crate::attachment::{ASSOCIATION_MAPPER, ASSOCIATION_UNI, TP_TYPE_UNI};
use crate::held::HeldInstance;
use crate::instances::Instances;
use crate::latch::Latch;
use crate::onu_data::OnuData;
use crate::store::of_store;
use arrayvec::ArrayVec;
use managed_entity::{Bytes, Class, VlanConfig};
use pmapper::{GemPort, Interwork, Mapper};
use std::alloc::{AllocError, Global};
use std::marker::Model;

/// The managed entities, which are the MIB data sync and the instances of each class, and beside them the table that a Get
/// latched.
#[derive(Drop)]
pub struct Mib {
    pub(crate) onu_data: OnuData,
    pub(crate) mappers: Instances<Mapper>,
    pub(crate) vlans: Instances<VlanConfig>,
    pub(crate) interworks: Instances<Interwork>,
    pub(crate) gem_ports: Instances<GemPort>,
    pub(crate) latch: Latch,
}

impl Model for Mib {
    ghost use Rattle.std.specs.Prelude.{[]};
    ghost use Rattle.mib_state.specs.Entities.{State};

    ghost Value = { State };

    ghost view = { λ m. record {
      entities = record {
        sync = m.onu_data.sync;
        mappers = m.mappers;
        vlans = m.vlans;
        interworks = m.interworks;
        gem_ports = m.gem_ports;
      };
      latch = m.latch;
    } };
}

impl Mib {
    /// No instance, sync 0 and no latched table, with room for 32 instances of class 130, 16 of class 171 with their tables,
    /// 256 each of classes 266 and 268, and the bytes of a table.
    pub fn new(alloc: Global) -> Result<Self, AllocError>
        ensures { IfOk result (λ mib. mib ≡ unlatched nothing) }
    {
        Ok(Mib {
            onu_data: OnuData { sync: 0 },
            mappers: Instances::new(alloc)?,
            vlans: Instances::new(alloc)?,
            interworks: Instances::new(alloc)?,
            gem_ports: Instances::new(alloc)?,
            latch: Latch::new(alloc)?,
        })
    }

    /// The MIB data sync (ITU-T G.988, clause 9.1.3).
    pub fn sync(&self) -> u8
        ensures { result ≡ self.now.entities.sync }
    {
        self.onu_data.sync
    }

    /// The least number of an instance of a class that isn't under another: the first, since the numbers of a class rise.
    /// ONU data, class 2, has instance 0; a class that isn't known has none.
    pub fn next_instance(&self, class: u16, from: u16) -> Option<u16>
        ensures value { result ≡ next from (instances_of self.now.entities class) }
    {
        of_store!(self, Class::of(class)?, next(from))
    }

    /// The instance at a place of a class, lent to be read. Places count from 0, and instances stand there by ascending number;
    /// there are no more than the class has room for. ONU data, class 2, has one; a class that isn't known has none.
    pub fn instance_at(&self, class: u16, place: usize) -> Option<HeldInstance<'_>>
        ensures instance { option_map (λ (held : _). held.instance) result
            ≡ slice_get (instances_of self.now.entities class) place }
        ensures class { IfSome result (λ held. held.class ≡ class) }
        ensures room { IfSome result (λ held. place < room_of class) }
    {
        let class = Class::of(class)?;
        let number = self.number_at(class, place)?;
        Some(HeldInstance::new(self, class, place, number))
    }

    /// The bytes of attribute `n` of an instance, attributes numbered from 1: None for what isn't there and for a table.
    /// Attribute 1 of ONU data, class 2, is the sync.
    pub fn attribute(&self, class: u16, instance: u16, n: u16) -> Option<ArrayVec<u8, 24>>
        ensures value { option_map (λ (bytes : _). bytes.items) result
            ≡ attribute_of (attributes_of class) n
            (find instance (instances_of self.now.entities class)) }
        ensures width { IfSome result (λ bytes.
            length bytes.items ≡ width_at (attributes_of class) (n - 1)) }
    {
        let place = (n as usize).checked_sub(1)?;
        of_store!(self, Class::of(class)?, attribute(instance, place))
    }

    /// The place of an instance among those of its class: the one at which `instance_at` lends it.
    pub fn place_of(&self, class: u16, instance: u16) -> Option<usize>
        ensures place { result ≡ place_in instance (instances_of self.now.entities class) }
        ensures instance { option_and_then (λ (place : _).
            slice_get (instances_of self.now.entities class) place) result
            ≡ find instance (instances_of self.now.entities class) }
        ensures held { is_some result
            ≡ is_some (find instance (instances_of self.now.entities class)) }
        ensures room { IfSome result (λ place. place < room_of class) }
    {
        of_store!(self, Class::of(class)?, place_of(instance))
    }

    /// The number of the instance at a place of a class; places as in `instance_at`.
    fn number_at(&self, class: Class, place: usize) -> Option<u16>
        ensures number { result ≡ option_map (λ (i : _). i.number)
            (slice_get (instances_of self.now.entities (class_number class)) place) }
        ensures room { IfSome result (λ number. place < room_of (class_number class)) }
    {
        of_store!(self, class, number_at(place))
    }

    /// The bytes of the attribute at a place of the instance at a place of a class; None for the table.
    pub(crate) fn attribute_at(&self, class: Class, at: usize, place: usize) -> Option<Bytes>
        ensures value { option_map (λ (bytes : _). bytes.items) result
            ≡ value_at (attributes_of (class_number class)) place
            (slice_get (instances_of self.now.entities (class_number class)) at) }
        ensures width { IfSome result (λ bytes. length bytes.items
            ≡ width_at (attributes_of (class_number class)) place) }
    {
        of_store!(self, class, attribute_at(at, place))
    }

    /// The number of the 802.1p mapper service profile at a place, and the mapper; places as in `instance_at`.
    pub fn mapper_at(&self, place: usize) -> Option<(u16, &Mapper)>
        ensures shown { option_map (λ (held : _). mapper_instance held.0 held.1.now) result
            ≡ slice_get self.now.entities.mappers place }
        ensures found { IfSome result (λ held.
            find held.0 self.now.entities.mappers ≡ slice_get self.now.entities.mappers place) }
        ensures room { IfSome result (λ held. place < room_of mapper_class) }
    {
        self.mappers.at(place)
    }

    /// The number of the extended VLAN tagging operation configuration data at a place, and the data; places as in
    /// `instance_at`.
    pub fn vlan_at(&self, place: usize) -> Option<(u16, &VlanConfig)>
        ensures shown { option_map (λ (held : _). vlan_instance held.0 held.1.now) result
            ≡ slice_get self.now.entities.vlans place }
        ensures found { IfSome result (λ held.
            find held.0 self.now.entities.vlans ≡ slice_get self.now.entities.vlans place) }
        ensures room { IfSome result (λ held. place < room_of vlan_class) }
    {
        self.vlans.at(place)
    }

    /// The 802.1p mapper service profile of a number.
    pub fn mapper(&self, instance: u16) -> Option<&Mapper>
        ensures { option_map (λ (mapper : _). mapper_instance instance mapper.now) result
            ≡ find instance self.now.entities.mappers }
    {
        self.mappers.get(instance)
    }

    /// The extended VLAN tagging operation configuration data of a number.
    pub fn vlan(&self, instance: u16) -> Option<&VlanConfig>
        ensures { option_map (λ (vlan : _). vlan_instance instance vlan.now) result
            ≡ find instance self.now.entities.vlans }
    {
        self.vlans.get(instance)
    }

    /// The GEM interworking termination point of a number.
    pub fn interwork(&self, instance: u16) -> Option<&Interwork>
        ensures { option_map (λ (point : _). interwork_instance instance point.now) result
            ≡ find instance self.now.entities.interworks }
    {
        self.interworks.get(instance)
    }

    /// The GEM port network CTP of a number.
    pub fn gem_port(&self, instance: u16) -> Option<&GemPort>
        ensures { option_map (λ (port : _). gem_port_instance instance port.now) result
            ≡ find instance self.now.entities.gem_ports }
    {
        self.gem_ports.get(instance)
    }

    /// The number of the mapper of a port, of TP type 1 (ITU-T G.988, clause 9.3.10). Of several, it is the one of least
    /// number, which is a choice of this project.
    pub fn mapper_of_port(&self, port: u16) -> Option<u16>
        ensures { result ≡ mapper_of_port self.now.entities port }
    {
        self.mappers.attached(TP_TYPE_UNI, port)
    }

    /// The number of the extended VLAN tagging operation configuration data that points to a port, of association type 2 (ITU-T
    /// G.988, clause 9.3.13). Of several, it is the one of least number, which is a choice of this project.
    pub fn own_table_of_port(&self, port: u16) -> Option<u16>
        ensures { result ≡ least_instance (is_table_of association_uni port) self.now.entities.vlans }
    {
        self.vlans.attached(ASSOCIATION_UNI, port)
    }

    /// The number of the extended VLAN tagging operation configuration data of a port: the one of association type 2 that
    /// points to it, and where there is none, the one of association type 1 that points to its mapper (ITU-T G.988, clause
    /// 9.3.13). Of several, it is the one of least number. That and the order are choices of this project.
    pub fn table_of_port(&self, port: u16) -> Option<u16>
        ensures { result ≡ table_of_port self.now.entities port }
    {
        match self.own_table_of_port(port) {
            Some(table) => Some(table),
            None => self
                .vlans
                .attached(ASSOCIATION_MAPPER, self.mapper_of_port(port)?),
        }
    }
}
