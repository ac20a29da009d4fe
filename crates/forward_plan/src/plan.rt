//! What is compiled of the managed entities.
ghost use Rattle.std.specs.Prelude.{◌≡◌, vec_len};
ghost use Rattle.managed_entity.specs.Class.{mapper_class, room_of, vlan_class};
ghost use Rattle.forward_plan.specs.Parts.{AreNone};

use crate::part::Part;
use crate::ports::Ports;
use port_plan::{CompiledTable, Routes};

/// What is compiled of the managed entities: for each table its index and treatments, for each mapper its routes, and for each
/// port what is attached to it. It is seen only by what it says of entities: that it is compiled of them, or lags behind them.
#[derive(Drop)]
pub struct Plan {
    pub(crate) ports: Ports,
    // By the place of a table among the held ones; those behind them stand ready.
    pub(crate) tables: Vec<Part<CompiledTable>>,
    // By the place of a mapper, as well.
    pub(crate) mappers: Vec<Part<Routes>>,
    // Of ports without a table, and without a mapper.
    pub(crate) bare: CompiledTable,
    pub(crate) unmapped: Routes,
    ghost for_tables: { vec_len tables ≡ room_of vlan_class },
    ghost for_mappers: { vec_len mappers ≡ room_of mapper_class },
    ghost none: { AreNone bare unmapped },
}
