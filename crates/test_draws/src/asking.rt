//! Requests by what they ask.
use omci_msg::{Action, Request};

/// Puts as many of these bytes as have room at its start.
fn put(room: &mut [u8], bytes: &[u8]) {
    let count = bytes.len().min(room.len());
    room[..count].copy_from_slice(&bytes[..count]);
}

/// Contents that begin with these bytes.
pub fn contents(bytes: &[u8]) -> [u8; 32] {
    let mut contents = [0; 32];
    put(&mut contents, bytes);
    contents
}

/// A request with identifier 1, whose contents begin with these bytes.
pub fn request(action: Action, class: u16, instance: u16, bytes: &[u8]) -> Request {
    Request {
        tci: 1,
        action,
        wants_answer: true,
        class,
        instance,
        contents: contents(bytes),
    }
}

/// The deletion of an instance.
pub fn delete(class: u16, instance: u16) -> Request {
    request(Action::Delete, class, instance, &[])
}

/// A Set of the attributes of a mask.
pub fn set(class: u16, instance: u16, mask: u16, values: &[u8]) -> Request {
    let mut set = request(Action::Set, class, instance, &mask.to_be_bytes());
    put(&mut set.contents[2..], values);
    set
}

/// The creation of GEM port network CTP 0x0401 of port-ID 1024 with a direction.
pub fn create_gem_port(direction: u8) -> Request {
    request(Action::Create, 268, 0x0401, &[4, 0, 0x80, 1, direction])
}

/// The creation of a GEM interworking termination point to it.
pub fn create_interwork(instance: u16) -> Request {
    request(Action::Create, 266, instance, &[4, 1, 5, 6, 1])
}

/// The creation of a mapper of a port: option 1 and a default priority.
pub fn create_mapper(instance: u16, port: u16, pointers: [u16; 8], default: u8) -> Request {
    let mut values = [0; 21];
    put(&mut values, &port.to_be_bytes());
    for (place, pointer) in pointers.iter().enumerate() {
        put(&mut values[2 + 2 * place..], &pointer.to_be_bytes());
    }
    put(&mut values[18..], &[1, default, 1]);
    request(Action::Create, 130, instance, &values)
}

/// The creation of a table with an association type and an associated ME pointer.
pub fn create_table(instance: u16, association: u8, to: u16) -> Request {
    let [high, low] = to.to_be_bytes();
    request(Action::Create, 171, instance, &[association, high, low])
}
