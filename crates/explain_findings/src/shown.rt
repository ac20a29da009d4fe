//! What a graph shows.
ghost use Rattle.std.specs.Prelude.{◌≡◌, IfOk, OnOk};
ghost use Rattle.explain_findings.specs.Graph.{add, distinct, shown_of};

use crate::reach::{Reach, numbers, ports};
use managed_entity::Class;
use mib_state::Mib;
use std::alloc::{AllocError, Global};
use std::marker::Model;

/// The ports, and the numbers of the instances of each class.
#[derive(Drop)]
pub(crate) struct Shown {
    pub(crate) ports: Vec<u16>,
    pub(crate) tables: Vec<u16>,
    pub(crate) mappers: Vec<u16>,
    pub(crate) points: Vec<u16>,
    pub(crate) gem_ports: Vec<u16>,
}

impl Model for Shown {
    ghost use Rattle.explain_findings.specs.Graph.{Shown};

    ghost Value = { Shown };

    ghost view = { λ s. record {
      ports = s.ports.items;
      tables = s.tables.items;
      mappers = s.mappers.items;
      points = s.points.items;
      gem_ports = s.gem_ports.items;
    } };
}

impl Shown {
    /// Everything, or what a port's pointers lead to.
    pub(crate) fn of(alloc: Global, mib: &Mib, port: Option<u16>) -> Result<Self, AllocError>
        ensures { IfOk result (λ shown. shown ≡ shown_of mib.now.entities port) }
    {
        match port {
            Some(port) => Self::at(alloc, mib, port),
            None => Self::all(alloc, mib),
        }
    }

    fn all(alloc: Global, mib: &Mib) -> Result<Self, AllocError>
        ensures { IfOk result (λ shown. shown ≡ shown_of mib.now.entities None) }
    {
        let every = ports(alloc, mib)?;
        let ports = distinct(alloc, &every)?;
        let tables = numbers(alloc, mib, Class::Vlan)?;
        let mappers = numbers(alloc, mib, Class::Mapper)?;
        let points = numbers(alloc, mib, Class::Interwork)?;
        let gem_ports = numbers(alloc, mib, Class::GemPort)?;
        Ok(Shown {
            ports,
            tables,
            mappers,
            points,
            gem_ports,
        })
    }

    fn at(alloc: Global, mib: &Mib, port: u16) -> Result<Self, AllocError>
        ensures { IfOk result (λ shown. shown ≡ shown_of mib.now.entities (Some port)) }
    {
        let reach = Reach::from_ports(alloc, mib, &[port])?;
        let mut ports = Vec::new(alloc);
        ports.push(port)?;
        let points = distinct(alloc, &reach.points)?;
        let gem_ports = distinct(alloc, &reach.gem_ports)?;
        Ok(Shown {
            ports,
            tables: reach.tables,
            mappers: reach.mappers,
            points,
            gem_ports,
        })
    }
}

/// Each number once, where it comes first.
#[tactic(auto, unfolding(crate::specs::Graph::distinct))]
fn distinct(alloc: Global, numbers: &[u16]) -> Result<Vec<u16>, AllocError>
    ensures { IfOk result (λ list. list.items ≡ distinct numbers.now) }
{
    let mut list = Vec::new(alloc);
    'each: for number in numbers {
        add(&mut list, *number)?;
    }
    Ok(list)
}

/// Adds a number, if it isn't among them.
fn add(list: &mut Vec<u16>, number: u16) -> Result<(), AllocError>
    ensures { OnOk result (list.new.items ≡ add list.old.items number) }
{
    if !list.contains(&number) {
        list.push(number)?;
    }
    Ok(())
}
