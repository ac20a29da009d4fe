//! How the managed entities are compiled, and what of it is compiled again.
ghost use Rattle.std.specs.Prelude.{◌≡◌, ◌≢◌, ◌≤◌, ℕ, None, Some, IfOk, length, slice_get, vec_len};
ghost use Rattle.std.specs.Option.{option_map, unwrap_or};
ghost use Rattle.managed_entity.specs.Class.{mapper_class, room_of, vlan_class};
ghost use Rattle.managed_entity.specs.Shown.{mapper_instance, vlan_instance};
ghost use Rattle.port_plan.specs.Plan.{DoesNotRead};
ghost use Rattle.forward_plan.specs.Parts.{AreForgotten, AreParts, AreRight, IsMapper, IsTable};

use crate::compiled::Compiled;
use crate::part::{Part, bring, forget, forget_all};
use crate::plan::Plan;
use crate::ports::Ports;
use managed_entity::ManagedEntity;
use managed_entity::class::Class;
use mib_state::{Mib, Touch, VlanConfig};
use pmapper::Mapper;
use port_plan::{CompiledTable, PortPlan, Routes};
use std::alloc::{AllocError, Global};

impl Plan {
    ghost use Rattle.std.specs.Prelude.{◌≡◌, IfOk};
    ghost use Rattle.mib_state.specs.Entities.{Entities, nothing};
    ghost use Rattle.mib_state.specs.Touch.{AreSameButOne, IsTouch};
    ghost use Rattle.port_plan.specs.Leaving.{IsPlanOf};
    ghost use Rattle.forward_plan.specs.Compiled.{IsBehind, IsCompiled};

    /// The plan of no entities, with room for all that there may be.
    pub fn new(alloc: Global) -> Result<Self, AllocError>
        ensures { IfOk result (IsCompiled nothing) }
    {
        Ok(Plan {
            ports: Ports::new(alloc)?,
            tables: spare_tables(alloc)?,
            mappers: spare_mappers(alloc)?,
            bare: CompiledTable::new(alloc)?,
            unmapped: Routes::none(),
        })
    }

    /// The plan of a port.
    #[inline(always)]
    pub fn port(&self, port: u16) -> PortPlan<'_>
        ensures { (e : Entities) → IsCompiled e self.now → IsPlanOf e port result }
    {
        let attached = self.ports.at(port);
        PortPlan::new(
            at_or(&self.tables, attached.table, &self.bare),
            at_or(&self.mappers, attached.mapper, &self.unmapped),
        )
    }

    /// Becomes the plan of entities, every part of it compiled anew, and says how many tables and mappers those were. It takes no
    /// memory.
    pub fn compile(&mut self, mib: &Mib) -> Compiled
        ensures { IsCompiled mib.now.entities self.new }
    {
        forget_all(&mut self.tables);
        forget_all(&mut self.mappers);
        self.ports.compile(mib);
        let tables = compile_tables(&mut self.tables, mib);
        let mappers = follow_mappers(&mut self.mappers, mib);
        Compiled { tables, mappers }
    }

    /// Forgets what was compiled of what a step touched. The plan then lags behind the entities that the step left, until it is
    /// refreshed. Any number of steps may be forgotten so. It takes no memory.
    pub fn invalidate(&mut self, touch: Touch)
        ensures { (old new : Entities) → IsTouch old new touch → IsBehind old self.old
            → IsBehind new self.new }
    {
        match touch {
            Touch::Nothing => {}
            Touch::One { class, instance } => self.forget_one(class, instance),
            Touch::All => self.forget_parts(),
        }
    }

    /// The same, where one instance was touched.
    fn forget_one(&mut self, class: u16, instance: u16)
        ensures { (old new : Entities) → AreSameButOne class instance old new
            → IsBehind old self.old
            → IsBehind new self.new }
    {
        // A class that isn't known has no instance.
        let Some(known) = Class::of(class) else {
            return;
        };
        match known {
            Class::Vlan => forget(&mut self.tables, instance),
            Class::Mapper => forget(&mut self.mappers, instance),
            Class::OnuData | Class::Interwork | Class::GemPort => {
                forget_readers(&mut self.mappers, class, instance)
            }
        }
    }

    /// Forgets of which instance each part is.
    fn forget_parts(&mut self)
        ensures { (old new : Entities) → IsBehind old self.old → IsBehind new self.new }
    {
        forget_all(&mut self.tables);
        forget_all(&mut self.mappers);
    }

    /// Becomes the plan of entities that it lags behind, and says how many tables and mappers were compiled: those whose parts were
    /// forgotten, and no other. It takes no memory.
    pub fn refresh(&mut self, mib: &Mib) -> Compiled
        requires { IsBehind mib.now.entities self.old }
        ensures { IsCompiled mib.now.entities self.new }
    {
        self.ports.follow(mib);
        let tables = follow_tables(&mut self.tables, mib);
        let mappers = follow_mappers(&mut self.mappers, mib);
        Compiled { tables, mappers }
    }

    /// Becomes the plan of entities that have changed in one instance, and says how many tables and mappers were compiled. Only
    /// what read the instance is compiled again. It takes no memory.
    pub(crate) fn follow_one(&mut self, mib: &Mib, class: u16, instance: u16) -> Compiled
        requires { (e : Entities) × AreSameButOne class instance e mib.now.entities
            × IsCompiled e self.old }
        ensures { IsCompiled mib.now.entities self.new }
    {
        // As above.
        let Some(known) = Class::of(class) else {
            return Compiled::NOTHING;
        };
        match known {
            Class::Vlan => {
                forget(&mut self.tables, instance);
                self.ports.follow(mib);
                Compiled {
                    tables: follow_tables(&mut self.tables, mib),
                    mappers: 0,
                }
            }
            Class::Mapper => {
                forget(&mut self.mappers, instance);
                self.ports.follow(mib);
                Compiled {
                    tables: 0,
                    mappers: follow_mappers(&mut self.mappers, mib),
                }
            }
            Class::OnuData | Class::Interwork | Class::GemPort => {
                forget_readers(&mut self.mappers, class, instance);
                Compiled {
                    tables: 0,
                    mappers: follow_mappers(&mut self.mappers, mib),
                }
            }
        }
    }
}

impl Part<CompiledTable> {
    ghost use Rattle.std.specs.Prelude.{◌≡◌, ℕ, Some};
    ghost use Rattle.managed_entity.specs.Shown.{vlan_instance};
    ghost use Rattle.forward_plan.specs.Parts.{IsTable};

    /// Becomes the part of a table, compiled anew.
    fn compile(&mut self, number: u16, vlan: &VlanConfig)
        ensures number { self.new.of ≡ Some number }
        ensures table { (n : ℕ) → IsTable (vlan_instance n vlan.now) self.new.compiled }
    {
        self.of = Some(number);
        self.compiled.compile(vlan);
    }

    /// Becomes the part of a table, and compiles what differs from the one that it was of.
    pub(crate) fn follow(&mut self, number: u16, vlan: &VlanConfig)
        ensures number { self.new.of ≡ Some number }
        ensures table { (n : ℕ) → IsTable (vlan_instance n vlan.now) self.new.compiled }
    {
        self.of = Some(number);
        self.compiled.follow(vlan);
    }
}

impl Part<Routes> {
    ghost use Rattle.std.specs.Prelude.{◌≡◌, ℕ, Some};
    ghost use Rattle.managed_entity.specs.Shown.{mapper_instance};
    ghost use Rattle.forward_plan.specs.Parts.{IsMapper};

    /// Becomes the part of a mapper.
    pub(crate) fn compile(&mut self, number: u16, mib: &Mib, mapper: &Mapper)
        ensures number { self.new.of ≡ Some number }
        ensures routes { (n : ℕ)
            → IsMapper mib.now.entities (mapper_instance n mapper.now) self.new.compiled }
    {
        self.of = Some(number);
        self.compiled = Routes::of(mib, mapper);
    }
}

/// What stands at a place, or else what stands for none.
#[inline(always)]
fn at_or<'p, T>(parts: &'p [Part<T>], place: u8, none: &'p T) -> &'p T
    ensures { result.now
        ≡ unwrap_or (option_map (λ part. part.compiled) (slice_get parts.now place)) none.now }
{
    match parts.get(usize::from(place)) {
        Some(part) => &part.compiled,
        None => none,
    }
}

/// Room for as many tables as there may be.
fn spare_tables(alloc: Global) -> Result<Vec<Part<CompiledTable>>, AllocError>
    ensures { IfOk result (λ tables. (vec_len tables ≡ room_of vlan_class)
        × AreForgotten (λ part. ⊥) tables.items tables.items) }
{
    let mut tables = Vec::with_capacity(alloc, VlanConfig::ROOM)?;
    for made in 0..VlanConfig::ROOM {
        tables.push_reserved(Part {
            of: None,
            compiled: CompiledTable::new(alloc)?,
        });
    }
    Ok(tables)
}

/// Room for as many mappers as there may be.
fn spare_mappers(alloc: Global) -> Result<Vec<Part<Routes>>, AllocError>
    ensures { IfOk result (λ mappers. (vec_len mappers ≡ room_of mapper_class)
        × AreForgotten (λ part. ⊥) mappers.items mappers.items) }
{
    let mut mappers = Vec::with_capacity(alloc, Mapper::ROOM)?;
    for made in 0..Mapper::ROOM {
        mappers.push_reserved(Part {
            of: None,
            compiled: Routes::none(),
        });
    }
    Ok(mappers)
}

/// Forgets of which mapper those routes are that were read from an instance of a class.
fn forget_readers(mappers: &mut [Part<Routes>], class: u16, instance: u16)
    ensures { AreForgotten (λ part. DoesNotRead class instance part.compiled) mappers.old
        mappers.new }
{
    for place in 0..mappers.len() {
        if mappers[place].of.is_some() && mappers[place].compiled.reads(class, instance) {
            mappers[place].of = None;
        }
    }
}

/// Compiles each table anew at its place, whatever stood there, and says how many there are.
fn compile_tables(tables: &mut [Part<CompiledTable>], mib: &Mib) -> u16
    requires room { length tables.old ≡ room_of vlan_class }
    requires right { AreRight IsTable mib.now.entities.vlans tables.old }
    ensures room { length tables.new ≡ room_of vlan_class }
    ensures tables { AreParts IsTable mib.now.entities.vlans tables.new }
{
    let mut compiled = 0;
    // Behind the last place there is no table, so this ends there at the latest.
    for place in 0..=VlanConfig::ROOM {
        let Some((number, vlan)) = mib.vlan_at(place) else {
            return compiled;
        };
        tables[place].compile(number, vlan);
        compiled += 1;
    }
    compiled
}

/// Brings each table to its place, compiles those that aren't compiled, and says how many those were.
fn follow_tables(tables: &mut [Part<CompiledTable>], mib: &Mib) -> u16
    requires room { length tables.old ≡ room_of vlan_class }
    requires right { AreRight IsTable mib.now.entities.vlans tables.old }
    ensures room { length tables.new ≡ room_of vlan_class }
    ensures tables { AreParts IsTable mib.now.entities.vlans tables.new }
{
    let mut compiled = 0;
    // Behind the last place there is no table, so this ends there at the latest.
    for place in 0..=VlanConfig::ROOM {
        let Some((number, vlan)) = mib.vlan_at(place) else {
            return compiled;
        };
        if !bring(tables, place, number) {
            tables[place].follow(number, vlan);
            compiled += 1;
        }
    }
    compiled
}

/// Brings each mapper to its place, compiles those that aren't compiled, and says how many those were.
fn follow_mappers(mappers: &mut [Part<Routes>], mib: &Mib) -> u16
    requires room { length mappers.old ≡ room_of mapper_class }
    requires right { AreRight (IsMapper mib.now.entities) mib.now.entities.mappers mappers.old }
    ensures room { length mappers.new ≡ room_of mapper_class }
    ensures mappers { AreParts (IsMapper mib.now.entities) mib.now.entities.mappers mappers.new }
{
    let mut compiled = 0;
    // Behind the last place there is no mapper, so this ends there at the latest.
    for place in 0..=Mapper::ROOM {
        let Some((number, mapper)) = mib.mapper_at(place) else {
            return compiled;
        };
        if !bring(mappers, place, number) {
            mappers[place].compile(number, mib, mapper);
            compiled += 1;
        }
    }
    compiled
}
