//! Requests that change managed entities.
use arrayvec::ArrayVec;
use managed_entity::Class;
use mib_state::ASSOCIATION_MAPPER;
use omci_msg::{Action, Request};
use pmapper::{GemPort, Interwork, Mapper};

/// The bytes that a Set has room for behind its mask.
pub const SET_ROOM: usize = 30;

/// The association type and the pointer of a table that hangs on no mapper: none has the number of the null pointer.
pub const UNATTACHED: (u8, u16) = (ASSOCIATION_MAPPER, u16::MAX);

/// The TP type under which a mapper is no port's.
pub const OUT_OF_FORCE: u8 = 0;

fn request(action: Action, class: Class, instance: u16, bytes: &[u8]) -> Request {
    let mut contents = [0; 32];
    for (place, byte) in contents.iter_mut().zip(bytes) {
        *place = *byte;
    }
    Request {
        tci: 0,
        action,
        wants_answer: true,
        class: class.number(),
        instance,
        contents,
    }
}

/// Puts bytes behind others, as far as there is room.
pub fn put<const N: usize>(list: &mut ArrayVec<u8, N>, bytes: &[u8]) {
    for byte in bytes {
        let _ = list.try_push(*byte);
    }
}

/// A Delete of an instance.
pub fn delete(class: Class, instance: u16) -> Request {
    request(Action::Delete, class, instance, &[])
}

/// A Set of the attributes that a mask names to these values.
pub fn set(class: Class, instance: u16, mask: u16, values: &[u8]) -> Request {
    let mut bytes: ArrayVec<u8, 32> = ArrayVec::new();
    put(&mut bytes, &mask.to_be_bytes());
    put(&mut bytes, values);
    request(Action::Set, class, instance, &bytes)
}

/// A Create of a GEM port network CTP.
pub fn create_gem_port(instance: u16, port: &GemPort) -> Request {
    let mut bytes: ArrayVec<u8, 32> = ArrayVec::new();
    put(&mut bytes, &port.port_id.to_be_bytes());
    put(&mut bytes, &port.t_cont_pointer.to_be_bytes());
    put(&mut bytes, &[port.direction]);
    put(
        &mut bytes,
        &port.traffic_management_pointer_upstream.to_be_bytes(),
    );
    put(
        &mut bytes,
        &port.traffic_descriptor_pointer_upstream.to_be_bytes(),
    );
    put(
        &mut bytes,
        &port.priority_queue_pointer_downstream.to_be_bytes(),
    );
    put(
        &mut bytes,
        &port.traffic_descriptor_pointer_downstream.to_be_bytes(),
    );
    put(&mut bytes, &[port.encryption_key_ring]);
    request(Action::Create, Class::GemPort, instance, &bytes)
}

/// A Create of a GEM interworking termination point.
pub fn create_interwork(instance: u16, point: &Interwork) -> Request {
    let mut bytes: ArrayVec<u8, 32> = ArrayVec::new();
    put(&mut bytes, &point.gem_port_pointer.to_be_bytes());
    put(&mut bytes, &[point.interworking_option]);
    put(&mut bytes, &point.service_profile_pointer.to_be_bytes());
    put(&mut bytes, &point.interworking_tp_pointer.to_be_bytes());
    put(&mut bytes, &point.gal_profile_pointer.to_be_bytes());
    request(Action::Create, Class::Interwork, instance, &bytes)
}

/// A Create of an 802.1p mapper service profile.
pub fn create_mapper(instance: u16, mapper: &Mapper) -> Request {
    let mut bytes: ArrayVec<u8, 32> = ArrayVec::new();
    put(&mut bytes, &mapper.tp_pointer.to_be_bytes());
    for pointer in &mapper.interwork_tp_pointers {
        put(&mut bytes, &pointer.to_be_bytes());
    }
    put(&mut bytes, &[mapper.unmarked_frame_option]);
    put(&mut bytes, &[mapper.default_p_bit_assumption]);
    put(&mut bytes, &[mapper.tp_type]);
    request(Action::Create, Class::Mapper, instance, &bytes)
}

/// A Create of an extended VLAN tagging operation configuration data.
pub fn create_table(instance: u16, association: u8, pointer: u16) -> Request {
    let mut bytes: ArrayVec<u8, 32> = ArrayVec::new();
    put(&mut bytes, &[association]);
    put(&mut bytes, &pointer.to_be_bytes());
    request(Action::Create, Class::Vlan, instance, &bytes)
}
