//! How tables and mappers are attached to ports.
ghost use Rattle.std.specs.Prelude.{◌≡◌, ◌⊎◌, ℕ, Some, length, slice_get};
ghost use Rattle.mib_state.specs.Entities.{nothing};
ghost use Rattle.forward_plan.specs.declared.naming.Naming.{Naming};
ghost use Rattle.forward_plan.specs.Attachment.{AreAttachedOrKept, AreOfTable, IsAttachedIn, IsMapperOfPort};
ghost use Rattle.forward_plan.specs.Ports.{port_count};

use crate::attached::Attached;
use crate::naming::{Naming, Namings};
use crate::ports::{PORTS, Ports};
use mib_state::{ASSOCIATION_MAPPER, ASSOCIATION_UNI, Mib, TP_TYPE_UNI};
use std::alloc::{AllocError, Global};

impl Ports {
    ghost use Rattle.std.specs.Prelude.{◌≡◌, IfOk, Some, option_map, slice_get};
    ghost use Rattle.mib_state.specs.Entities.{Entities, nothing};
    ghost use Rattle.forward_plan.specs.Attachment.{AreAttached, AreNamings, ArePorts, attached_at, mapper_naming, table_naming};
    ghost use Rattle.forward_plan.specs.Setting.{IsSetAt};

    /// The ports when there is no entity, with room for what there may be.
    pub(crate) fn new(alloc: Global) -> Result<Self, AllocError>
        ensures { IfOk result (ArePorts nothing) }
    {
        Ok(Ports {
            attached: vec![in alloc; Attached::NOTHING; PORTS]?,
            names: Namings::new(alloc)?,
            next: Namings::new(alloc)?,
        })
    }

    /// What is attached to a port.
    #[inline(always)]
    pub(crate) fn at(&self, port: u16) -> Attached
        ensures { (e : Entities) → AreAttached e self.now.attached.items
            → result ≡ attached_at e port }
    {
        self.attached[port as usize]
    }

    /// Attaches to each port what the entities say. It takes no memory.
    ///
    /// A port that no mapper and no table points to has neither, so only those that are pointed to are looked up: 48 at most.
    pub(crate) fn compile(&mut self, mib: &Mib)
        ensures { ArePorts mib.now.entities self.new }
    {
        self.attached.fill(Attached::NOTHING);
        self.names.read(mib);
        self.attach_named(mib);
    }

    /// Attaches what the entities say to the ports that they say it of now, or said it of before: where no mapper and no table
    /// came, went or points elsewhere, all stays. It takes no memory.
    pub(crate) fn follow(&mut self, mib: &Mib)
        requires { (e : Entities) × ArePorts e self.old }
        ensures { ArePorts mib.now.entities self.new }
    {
        self.next.read(mib);
        if self.next.is_same(&self.names) {
            return;
        }
        detach(&mut self.attached, &self.names.mappers);
        detach(&mut self.attached, &self.names.tables);
        self.names.read(mib);
        self.attach_named(mib);
    }

    /// Attaches what the entities say, of which the table at a place was set and says something now, to the ports that it is
    /// attached to now, or was before: where it says the same as before, all stays. It takes no memory.
    pub(crate) fn set_table(&mut self, mib: &Mib, place: usize, now: Naming)
        requires changed { (e : Entities) × IsSetAt place e.vlans mib.now.entities.vlans
            × (mib.now.entities.mappers ≡ e.mappers) × ArePorts e self.old }
        requires now { Some now ≡ option_map table_naming (slice_get mib.now.entities.vlans place) }
        ensures { ArePorts mib.now.entities self.new }
    {
        let before = self.names.tables[place];
        if now.is(&before) {
            return;
        }
        self.names.tables[place] = now;
        attach_table(&mut self.attached, &before, &self.names.mappers, mib);
        attach_table(&mut self.attached, &now, &self.names.mappers, mib);
    }

    /// The same of the mapper at a place.
    pub(crate) fn set_mapper(&mut self, mib: &Mib, place: usize, now: Naming)
        requires changed { (e : Entities) × IsSetAt place e.mappers mib.now.entities.mappers
            × (mib.now.entities.vlans ≡ e.vlans) × ArePorts e self.old }
        requires now { Some now
            ≡ option_map mapper_naming (slice_get mib.now.entities.mappers place) }
        ensures { ArePorts mib.now.entities self.new }
    {
        let before = self.names.mappers[place];
        if now.is(&before) {
            return;
        }
        self.names.mappers[place] = now;
        attach(&mut self.attached, &[before, now], TP_TYPE_UNI, mib);
    }

    /// Attaches to each port that a mapper or a table points to what the entities say.
    fn attach_named(&mut self, mib: &Mib)
        requires ports { AreAttached nothing self.old.attached.items }
        requires names { AreNamings mib.now.entities self.old.names }
        ensures { ArePorts mib.now.entities self.new }
    {
        attach(&mut self.attached, &self.names.mappers, TP_TYPE_UNI, mib);
        attach(&mut self.attached, &self.names.tables, ASSOCIATION_UNI, mib);
    }
}

/// Attaches to each port that a naming of a kind points to what the entities say.
fn attach(ports: &mut [Attached], names: &[Naming], kind: u8, mib: &Mib)
    requires { length ports.old ≡ port_count }
    ensures len { length ports.new ≡ port_count }
    ensures named { (place : ℕ) (naming : Naming) → slice_get names.now place ≡ Some naming
        → naming.kind ≡ kind → IsAttachedIn mib.now.entities ports.new naming.to }
    ensures others { AreAttachedOrKept mib.now.entities ports.old ports.new }
{
    for naming in names {
        if naming.kind == kind {
            ports[usize::from(naming.to)] = Attached::of(mib, naming.to);
        }
    }
}

/// Attaches to each port that a table is attached to what the entities say: the one that it points to, or those of the mapper
/// that it points to.
fn attach_table(ports: &mut [Attached], table: &Naming, mappers: &[Naming], mib: &Mib)
    requires { length ports.old ≡ port_count }
    ensures len { length ports.new ≡ port_count }
    ensures named { AreOfTable mib.now.entities mappers.now table.now ports.new }
    ensures others { AreAttachedOrKept mib.now.entities ports.old ports.new }
{
    match table.kind {
        ASSOCIATION_UNI => ports[usize::from(table.to)] = Attached::of(mib, table.to),
        ASSOCIATION_MAPPER => attach_mapped(ports, table.to, mappers, mib),
        _ => {}
    }
}

/// Attaches to each port that the mapper of a number points to what the entities say.
fn attach_mapped(ports: &mut [Attached], number: u16, mappers: &[Naming], mib: &Mib)
    requires { length ports.old ≡ port_count }
    ensures len { length ports.new ≡ port_count }
    ensures named { (place : ℕ) (mapper : Naming) → slice_get mappers.now place ≡ Some mapper
        → IsMapperOfPort number mapper → IsAttachedIn mib.now.entities ports.new mapper.to }
    ensures others { AreAttachedOrKept mib.now.entities ports.old ports.new }
{
    for mapper in mappers {
        if mapper.kind == TP_TYPE_UNI && mapper.number == number {
            ports[usize::from(mapper.to)] = Attached::of(mib, mapper.to);
        }
    }
}

/// Attaches nothing to each port that a naming points to.
fn detach(ports: &mut [Attached], names: &[Naming])
    requires { length ports.old ≡ port_count }
    ensures len { length ports.new ≡ port_count }
    ensures named { (place : ℕ) (naming : Naming) → slice_get names.now place ≡ Some naming
        → IsAttachedIn nothing ports.new naming.to }
    ensures others { AreAttachedOrKept nothing ports.old ports.new }
{
    for naming in names {
        ports[usize::from(naming.to)] = Attached::NOTHING;
    }
}
