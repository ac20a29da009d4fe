//! Which table is in force at a port (ITU-T G.988, clause 9.3.13).
ghost use Rattle.std.specs.Prelude.{◌≡◌};
ghost use Rattle.mib_state.specs.Attached.{table_of_port};
ghost use Rattle.explain.specs.Force.{number_in_force, table_in_force};

use mib_state::Mib;

/// Which extended VLAN tagging operation configuration data is in force at a port, and why.
#[derive(Clone, Copy)]
pub enum TableInForce {
    /// None points to the port, and none to its mapper.
    NoTable,
    /// This one points to the port, by association type 2.
    OfPort(u16),
    /// None points to the port, and this one points to its mapper, by association type 1.
    OfMapper { mapper: u16, instance: u16 },
}

/// The table in force at a port. Of several that point to the port, or to its mapper, it is the one of least number, which is a
/// choice of this project.
pub fn table_in_force(mib: &Mib, port: u16) -> TableInForce
    ensures value { result ≡ table_in_force mib.now.entities port }
    ensures number { number_in_force result ≡ table_of_port mib.now.entities port }
{
    if let Some(instance) = mib.own_table_of_port(port) {
        return TableInForce::OfPort(instance);
    }
    match (mib.mapper_of_port(port), mib.table_of_port(port)) {
        (Some(mapper), Some(instance)) => TableInForce::OfMapper { mapper, instance },
        _ => TableInForce::NoTable,
    }
}
