//! Whether two configurations hold the same instances.
ghost use Rattle.std.specs.Prelude.{◌≡◌, ℕ, option_map, true};
ghost use Rattle.managed_entity.specs.Shown.{gem_port_instance, interwork_instance, mapper_instance, vlan_instance};
ghost use Rattle.migration_check.specs.Migration.{AreFoundAlike, HoldTheSame};

use managed_entity::VlanConfig;
use mib_state::Mib;
use pmapper::{GemPort, Interwork, Mapper};
use vlan_rule::{Entry, RuleTable};

/// How many numbers of instances there are.
const NUMBERS: u32 = 0x1_0000;

/// Whether two mappers, or none and none, are the same under any number.
fn is_mapper_same(one: Option<&Mapper>, other: Option<&Mapper>) -> bool
    ensures { result ≡ true → (n : ℕ)
        → (option_map (λ (m : _). mapper_instance n m.now) one.entry
        ≡ option_map (λ (m : _). mapper_instance n m.now) other.entry) }
{
    match (one, other) {
        (Some(one), Some(other)) => *one == *other,
        (None, None) => true,
        _ => false,
    }
}

/// Whether two interworking points, or none and none, are.
fn is_interwork_same(one: Option<&Interwork>, other: Option<&Interwork>) -> bool
    ensures { result ≡ true → (n : ℕ)
        → (option_map (λ (p : _). interwork_instance n p.now) one.entry
        ≡ option_map (λ (p : _). interwork_instance n p.now) other.entry) }
{
    match (one, other) {
        (Some(one), Some(other)) => *one == *other,
        (None, None) => true,
        _ => false,
    }
}

/// Whether two GEM ports, or none and none, are.
fn is_gem_port_same(one: Option<&GemPort>, other: Option<&GemPort>) -> bool
    ensures { result ≡ true → (n : ℕ)
        → (option_map (λ (p : _). gem_port_instance n p.now) one.entry
        ≡ option_map (λ (p : _). gem_port_instance n p.now) other.entry) }
{
    match (one, other) {
        (Some(one), Some(other)) => *one == *other,
        (None, None) => true,
        _ => false,
    }
}

/// Whether two entries, or none and none, are the same.
fn is_entry_same(one: Option<Entry>, other: Option<Entry>) -> bool
    ensures { result ≡ true
        → (option_map (λ (e : _). e.0) one ≡ option_map (λ (e : _). e.0) other) }
{
    match (one, other) {
        (Some(one), Some(other)) => one.0 == other.0,
        (None, None) => true,
        _ => false,
    }
}

/// Whether two tables hold the same entries in the same order.
fn are_entries_same(one: &RuleTable, other: &RuleTable) -> bool
    ensures { result ≡ true → (one.now ≡ other.now) }
{
    let count = one.len();
    if count != other.len() {
        return false;
    }
    for place in 0..count {
        if !is_entry_same(one.entry(place), other.entry(place)) {
            return false;
        }
    }
    true
}

/// Whether two tables have the same attributes.
fn is_vlan_same_as(one: &VlanConfig, other: &VlanConfig) -> bool
    ensures { result ≡ true → (n : ℕ)
        → (vlan_instance n one.now ≡ vlan_instance n other.now) }
{
    one.association == other.association
        && one.settings == other.settings
        && one.downstream == other.downstream
        && one.pointer == other.pointer
        && are_entries_same(&one.table, &other.table)
}

/// Whether two tables, or none and none, are the same under any number.
fn is_vlan_same(one: Option<&VlanConfig>, other: Option<&VlanConfig>) -> bool
    ensures { result ≡ true → (n : ℕ)
        → (option_map (λ (v : _). vlan_instance n v.now) one.entry
        ≡ option_map (λ (v : _). vlan_instance n v.now) other.entry) }
{
    match (one, other) {
        (Some(one), Some(other)) => is_vlan_same_as(one, other),
        (None, None) => true,
        _ => false,
    }
}

/// Whether two configurations have the same mappers.
fn are_mappers_same(one: &Mib, other: &Mib) -> bool
    ensures { result ≡ true
        → (AreFoundAlike one.now.entities.mappers other.now.entities.mappers) }
{
    for number in 0..NUMBERS {
        let number = number as u16;
        if !is_mapper_same(one.mapper(number), other.mapper(number)) {
            return false;
        }
    }
    true
}

/// Whether they have the same tables.
fn are_vlans_same(one: &Mib, other: &Mib) -> bool
    ensures { result ≡ true → (AreFoundAlike one.now.entities.vlans other.now.entities.vlans) }
{
    for number in 0..NUMBERS {
        let number = number as u16;
        if !is_vlan_same(one.vlan(number), other.vlan(number)) {
            return false;
        }
    }
    true
}

/// Whether they have the same interworking points.
fn are_interworks_same(one: &Mib, other: &Mib) -> bool
    ensures { result ≡ true
        → (AreFoundAlike one.now.entities.interworks other.now.entities.interworks) }
{
    for number in 0..NUMBERS {
        let number = number as u16;
        if !is_interwork_same(one.interwork(number), other.interwork(number)) {
            return false;
        }
    }
    true
}

/// Whether they have the same GEM ports.
fn are_gem_ports_same(one: &Mib, other: &Mib) -> bool
    ensures { result ≡ true
        → (AreFoundAlike one.now.entities.gem_ports other.now.entities.gem_ports) }
{
    for number in 0..NUMBERS {
        let number = number as u16;
        if !is_gem_port_same(one.gem_port(number), other.gem_port(number)) {
            return false;
        }
    }
    true
}

/// Whether two configurations hold the same instances: of each class the same stands under each number, or none. The MIB data sync
/// may be another.
pub fn hold_the_same(one: &Mib, other: &Mib) -> bool
    ensures { result ≡ true → (HoldTheSame one.now.entities other.now.entities) }
{
    are_mappers_same(one, other)
        && are_vlans_same(one, other)
        && are_interworks_same(one, other)
        && are_gem_ports_same(one, other)
}
