//! The managed entities on which it hangs what a port does with frames.
use managed_entity::Class;
use mib_state::Mib;
use pmapper::Mapper;

/// The pointers of a mapper: one for each priority.
const POINTERS: usize = 8;

/// The instances on which it hangs what a port does with frames: its table, its mapper, and where the pointers of that lead.
#[derive(Clone, Copy, Drop)]
pub(crate) struct Links {
    table: Option<u16>,
    mapper: Option<u16>,
    points: [u16; POINTERS],
    gem_ports: [Option<u16>; POINTERS],
}

/// The GEM ports to which interworking points lead, as far as these are held.
fn gem_ports_of(mib: &Mib, points: &[u16; POINTERS]) -> [Option<u16>; POINTERS] {
    let mut gem_ports = [None; POINTERS];
    for (gem_port, point) in gem_ports.iter_mut().zip(points.iter()) {
        *gem_port = mib.interwork(*point).map(|held| held.gem_port_pointer);
    }
    gem_ports
}

/// The pointers of a mapper, if there is one.
fn points_of(mapper: Option<&Mapper>) -> [u16; POINTERS] {
    match mapper {
        Some(mapper) => mapper.interwork_tp_pointers,
        None => [u16::MAX; POINTERS],
    }
}

impl Links {
    /// Those of a port, for the state of these managed entities.
    pub(crate) fn of(mib: &Mib, port: u16) -> Links {
        let mapper = mib.mapper_of_port(port);
        let points = points_of(mapper.and_then(|number| mib.mapper(number)));
        Links {
            table: mib.table_of_port(port),
            mapper,
            points,
            gem_ports: gem_ports_of(mib, &points),
        }
    }

    /// Whether an instance is among them.
    pub(crate) fn has(&self, class: u16, instance: u16) -> bool {
        match Class::of(class) {
            Some(Class::Vlan) => self.table == Some(instance),
            Some(Class::Mapper) => self.mapper == Some(instance),
            Some(Class::Interwork) => self.points.contains(&instance),
            Some(Class::GemPort) => self.gem_ports.contains(&Some(instance)),
            _ => false,
        }
    }
}
