//! What is compiled again where one instance was set: all instances stand where they stood.
ghost use Rattle.std.specs.Prelude.{◌≡◌, ◌<◌, IfSome, Some, slice_get};
ghost use Rattle.managed_entity.specs.Class.{mapper_class, room_of, vlan_class};
ghost use Rattle.managed_entity.specs.Shown.{mapper_instance, vlan_instance};
ghost use Rattle.mib_state.specs.Entities.{find, place_in};

use crate::compiled::Compiled;
use crate::naming::Naming;
use crate::part::forget;
use crate::plan::Plan;
use managed_entity::class::{Class, MAPPER, VLAN};
use mib_state::{Mib, VlanConfig};
use pmapper::Mapper;

impl Plan {
    ghost use Rattle.std.specs.Prelude.{◌≡◌};
    ghost use Rattle.mib_state.specs.Entities.{Entities};
    ghost use Rattle.forward_plan.specs.Compiled.{IsCompiled};
    ghost use Rattle.forward_plan.specs.Setting.{IsSetOf};

    /// Becomes the plan of entities of which one instance was set, and says how many tables and mappers were compiled. Only what
    /// read the instance is compiled again: of the tables and mappers that is one, unless an interworking point or a GEM port was
    /// set, which several mappers may lead by. It takes no memory.
    pub(crate) fn set(&mut self, mib: &Mib, class: u16, instance: u16) -> Compiled
        requires { (e : Entities) × IsSetOf class instance e mib.now.entities
            × IsCompiled e self.old }
        ensures { IsCompiled mib.now.entities self.new }
    {
        match Class::of(class) {
            Some(Class::Vlan) => self.set_table(mib, instance),
            Some(Class::Mapper) => self.set_mapper(mib, instance),
            _ => self.follow_one(mib, class, instance),
        }
    }

    /// The same, where the instance is a table.
    fn set_table(&mut self, mib: &Mib, instance: u16) -> Compiled
        requires { (e : Entities) × IsSetOf vlan_class instance e mib.now.entities
            × IsCompiled e self.old }
        ensures { IsCompiled mib.now.entities self.new }
    {
        // An accepted Set finds its instance, so this is always one.
        let Some((place, number, vlan)) = placed_table(mib, instance) else {
            return self.follow_one(mib, VLAN, instance);
        };
        forget(&mut self.tables, instance);
        self.tables[place].follow(number, vlan);
        self.ports
            .set_table(mib, place, Naming::of_table(number, vlan));
        Compiled {
            tables: 1,
            mappers: 0,
        }
    }

    /// The same, where the instance is a mapper.
    fn set_mapper(&mut self, mib: &Mib, instance: u16) -> Compiled
        requires { (e : Entities) × IsSetOf mapper_class instance e mib.now.entities
            × IsCompiled e self.old }
        ensures { IsCompiled mib.now.entities self.new }
    {
        // As above.
        let Some((place, number, mapper)) = placed_mapper(mib, instance) else {
            return self.follow_one(mib, MAPPER, instance);
        };
        forget(&mut self.mappers, instance);
        self.mappers[place].compile(number, mib, mapper);
        self.ports
            .set_mapper(mib, place, Naming::of_mapper(number, mapper));
        Compiled {
            tables: 0,
            mappers: 1,
        }
    }
}

/// The table of a number, with its place and its number there.
fn placed_table<'m>(mib: &'m Mib, instance: u16) -> Option<(usize, u16, &'m VlanConfig)>
    ensures place { IfSome result (λ held. place_in instance mib.now.entities.vlans ≡ Some held.0) }
    ensures room { IfSome result (λ held. held.0 < room_of vlan_class) }
    ensures shown { IfSome result (λ held. Some (vlan_instance held.1 held.2.now)
        ≡ slice_get mib.now.entities.vlans held.0) }
    ensures found { IfSome result (λ held. find held.1 mib.now.entities.vlans
        ≡ slice_get mib.now.entities.vlans held.0) }
{
    let place = mib.place_of(VLAN, instance)?;
    let (number, vlan) = mib.vlan_at(place)?;
    Some((place, number, vlan))
}

/// The mapper of a number, with its place and its number there.
fn placed_mapper<'m>(mib: &'m Mib, instance: u16) -> Option<(usize, u16, &'m Mapper)>
    ensures place { IfSome result (λ held. place_in instance mib.now.entities.mappers
        ≡ Some held.0) }
    ensures room { IfSome result (λ held. held.0 < room_of mapper_class) }
    ensures shown { IfSome result (λ held. Some (mapper_instance held.1 held.2.now)
        ≡ slice_get mib.now.entities.mappers held.0) }
    ensures found { IfSome result (λ held. find held.1 mib.now.entities.mappers
        ≡ slice_get mib.now.entities.mappers held.0) }
{
    let place = mib.place_of(MAPPER, instance)?;
    let (number, mapper) = mib.mapper_at(place)?;
    Some((place, number, mapper))
}
