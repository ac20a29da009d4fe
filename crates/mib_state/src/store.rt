//! The stores of the classes.

/// What a method of a class's store gives: `of_store!(mib, class, method(argument, ..))`. Each store has the methods of
/// [`Instances`](crate::instances::Instances) that are called so. Nothing else says which store is of which class.
macro_rules! of_store {
    ($mib:expr, $class:expr, $method:ident($($argument:expr),*)) => {
        match $class {
            managed_entity::Class::OnuData => $mib.onu_data.$method($($argument),*),
            managed_entity::Class::Mapper => $mib.mappers.$method($($argument),*),
            managed_entity::Class::Vlan => $mib.vlans.$method($($argument),*),
            managed_entity::Class::Interwork => $mib.interworks.$method($($argument),*),
            managed_entity::Class::GemPort => $mib.gem_ports.$method($($argument),*),
        }
    };
}

pub(crate) use of_store;
