//! Entities call by call: what they show, what their steps touch, and what a trace leaves. The dialogues (`tests/dialogues/entities.dialogues`
//! and others) ask the program for replies to messages.
use mib_state::{Mib, Touch, law_of_accepted, law_of_order};
use mib_upload::{Desk, Shelf, law_of_row_order, law_of_rows};
use omci_msg::{Action, Reply};
use pmapper::{GemPort, Interwork};
use script_trace::{ScriptFault, read_requests};
use std::alloc::{AllocError, Global};
use std::process::Abort;
use test_draws::{
    contents, create_gem_port, create_interwork, create_mapper, create_table, delete, request, set,
};
use test_fixtures::{holds, push_message, same};

/// What is done with new entities.
#[derive(Clone, Copy)]
enum Scene {
    Look,
    Ports,
    Touch,
    Upload,
    Trace,
}

/// Makes entities without an instance, and plays a scene with them. It only lends them, since each branch where they are owned is
/// dear to prove too.
fn play(rt: &impl Abort, alloc: Global, scene: Scene) {
    let mut mib = Mib::new(alloc).expect(rt, "room for entities");
    act(rt, alloc, &mut mib, scene);
}

/// Plays a scene with entities.
fn act(rt: &impl Abort, alloc: Global, mib: &mut Mib, scene: Scene) {
    match scene {
        Scene::Look => look(rt, mib),
        Scene::Ports => look_at_ports(rt, mib),
        Scene::Touch => touch(rt, mib),
        Scene::Upload => upload(rt, alloc, mib),
        Scene::Trace => apply_trace(rt, alloc, mib),
    }
}

/// Creates of two GEM ports, made in descending order, of a point, of two mappers and of two tables, the second of which has the
/// smaller number.
fn set_up(mib: &mut Mib) {
    let _ = mib.step(&request(Action::Create, 268, 0x0402, &[4, 1, 0x80, 1, 3]));
    let _ = mib.step(&create_gem_port(3));
    let _ = mib.step(&create_interwork(0x0501));
    let _ = mib.step(&create_mapper(0x0601, 257, [0x0501; 8], 0));
    let _ = mib.step(&create_table(0x0701, 2, 257));
    let _ = mib.step(&create_mapper(0x0600, 258, [0x0501; 8], 0));
    let _ = mib.step(&create_table(0x0700, 1, 0x0600));
}

#[test]
fn entities_are_shown_by_class_and_number(rt: HostRuntime) {
    play(&rt, rt.alloc(), Scene::Look);
}

/// Looks at entities by each call that shows something of them.
fn look(rt: &impl Abort, mib: &mut Mib) {
    set_up(mib);
    look_for_instances(rt, mib);
    look_at_attributes(rt, mib);
    look_at_each(rt, mib);
    law_of_accepted();
    law_of_order();
}

/// A class, an instance, its place, and the next instance that isn't under that number.
const INSTANCES: [(u16, u16, Option<usize>, Option<u16>); 15] = [
    (2, 0, Some(0), Some(0)),
    (2, 1, None, None),
    (130, 0, None, Some(0x0600)),
    (130, 0x0600, Some(0), Some(0x0600)),
    (130, 0x0601, Some(1), Some(0x0601)),
    (130, 0x0701, None, None),
    (171, 0x0700, Some(0), Some(0x0700)),
    (171, 0x0701, Some(1), Some(0x0701)),
    (171, 0x0702, None, None),
    (266, 0x0500, None, Some(0x0501)),
    (266, 0x0501, Some(0), Some(0x0501)),
    (268, 0x0401, Some(0), Some(0x0401)),
    (268, 0x0402, Some(1), Some(0x0402)),
    (268, 0xffff, None, None),
    (45, 0, None, None),
];

fn look_for_instances(rt: &impl Abort, mib: &Mib) {
    for (class, instance, place, next) in &INSTANCES {
        let found = (
            mib.place_of(*class, *instance),
            mib.next_instance(*class, *instance),
        );
        same!(rt; found, (*place, *next), "{instance} of {class}");
    }
}

/// A class, a place, the number of the instance there, an attribute's number, and its bytes. Neither a table has bytes of its own
/// nor an attribute that a class has not.
const ATTRIBUTES: [(u16, usize, Option<u16>, u16, Option<&[u8]>); 15] = [
    (2, 0, Some(0), 1, Some(&[7])),
    (2, 0, Some(0), 2, None),
    (2, 1, None, 1, None),
    (130, 1, Some(0x0601), 4, Some(&[5, 1])),
    (130, 2, None, 1, None),
    (171, 1, Some(0x0701), 2, Some(&[0, 128])),
    (171, 1, Some(0x0701), 7, Some(&[1, 1])),
    (171, 1, Some(0x0701), 0, None),
    (171, 1, Some(0x0701), 6, None),
    (171, 1, Some(0x0701), 9, None),
    (266, 0, Some(0x0501), 1, Some(&[4, 1])),
    (268, 0, Some(0x0401), 1, Some(&[4, 0])),
    (268, 1, Some(0x0402), 10, Some(&[0])),
    (268, 1, Some(0x0402), 11, None),
    (45, 0, None, 1, None),
];

fn look_at_attributes(rt: &impl Abort, mib: &Mib) {
    for (class, place, number, n, wanted) in &ATTRIBUTES {
        let held = mib.instance_at(*class, *place);
        let found = held.as_ref().map(|held| (held.class(), held.number()));
        same!(rt; found, number.map(|number| (*class, number)), "place {place} of {class}");
        let bytes = held.and_then(|held| held.attribute(*n));
        same!(rt; bytes.as_ref().map(|bytes| bytes.as_slice()), *wanted, "attribute {n} of {class}");
        let bytes = mib.attribute(*class, number.unwrap_or(9), *n);
        same!(rt; bytes.as_ref().map(|bytes| bytes.as_slice()), *wanted, "attribute {n} of {class}");
    }
}

/// Looks at one instance of each class.
fn look_at_each(rt: &impl Abort, mib: &Mib) {
    let port = GemPort {
        port_id: 1024,
        t_cont_pointer: 0x8001,
        direction: 3,
        ..GemPort::default()
    };
    same!(rt; (mib.gem_port(0x0401).copied(), mib.gem_port(0x0403).copied()), (Some(port), None));
    let point = Interwork {
        gem_port_pointer: 0x0401,
        interworking_option: 5,
        service_profile_pointer: 0x0601,
        ..Interwork::default()
    };
    same!(rt; (mib.interwork(0x0501).copied(), mib.interwork(0x0502).copied()), (Some(point), None));
    let mapper = mib
        .mapper(0x0601)
        .map(|held| (held.tp_pointer, held.tp_type));
    same!(rt; (mapper, mib.mapper(0x0602).is_none()), (Some((257, 1)), true));
    let vlan = mib
        .vlan(0x0701)
        .map(|held| (held.pointer, held.table.len()));
    same!(rt; (vlan, mib.vlan(0x0702).is_none()), (Some((257, 3)), true));
    let placed = [
        mib.mapper_at(0),
        mib.mapper_at(1),
        mib.mapper_at(usize::MAX),
    ];
    let numbers = placed.map(|held| held.map(|held| (held.0, held.1.tp_pointer)));
    same!(rt; numbers, [Some((0x0600, 258)), Some((0x0601, 257)), None]);
    let placed = [mib.vlan_at(0), mib.vlan_at(1), mib.vlan_at(2)];
    let numbers = placed.map(|held| held.map(|held| (held.0, held.1.pointer)));
    same!(rt; numbers, [Some((0x0700, 0x0600)), Some((0x0701, 257)), None]);
}

/// Makes mappers and tables of some ports, and some that are of none.
fn attach(mib: &mut Mib) {
    for (class, instance, values) in [
        (130, 0x0601, [1, 1, 1]),
        (130, 0x0602, [1, 1, 1]),
        (130, 0x0603, [1, 2, 1]),
        (130, 0x0604, [1, 3, 2]),
        (130, 0x0605, [0xff, 0xff, 1]),
    ] {
        let mut bytes = [0; 21];
        bytes[0] = values[0];
        bytes[1] = values[1];
        bytes[20] = values[2];
        let _ = mib.step(&request(Action::Create, class, instance, &bytes));
    }
    let _ = mib.step(&create_table(0x0701, 2, 257));
    let _ = mib.step(&create_table(0x0702, 1, 0x0603));
    let _ = mib.step(&create_table(0x0703, 2, 260));
    let _ = mib.step(&create_table(0x0704, 1, 0x0602));
    let _ = mib.step(&create_table(0x0705, 3, 261));
}

/// A port, its mapper, its own table, the one in force, and why.
const PORTS: [(u16, Option<u16>, Option<u16>, Option<u16>, &str); 7] = [
    (0, None, None, None, "nothing points to it"),
    (
        257,
        Some(0x0601),
        Some(0x0701),
        Some(0x0701),
        "of two mappers the least",
    ),
    (
        258,
        Some(0x0603),
        None,
        Some(0x0702),
        "the table of its mapper",
    ),
    (259, None, None, None, "the mapper's TP type is another"),
    (
        260,
        None,
        Some(0x0703),
        Some(0x0703),
        "a table and no mapper",
    ),
    (
        261,
        None,
        None,
        None,
        "the table's association type is another",
    ),
    (65535, Some(0x0605), None, None, "a mapper and no table"),
];

/// Looks what is attached to ports.
fn look_at_ports(rt: &impl Abort, mib: &mut Mib) {
    attach(mib);
    for (port, mapper, own, table, what) in &PORTS {
        let found = (
            mib.mapper_of_port(*port),
            mib.own_table_of_port(*port),
            mib.table_of_port(*port),
        );
        same!(rt; found, (*mapper, *own, *table), "port {port}: {what}");
    }
}

#[test]
fn tables_and_mappers_are_attached_to_ports(rt: HostRuntime) {
    play(&rt, rt.alloc(), Scene::Ports);
}

#[test]
fn steps_touch_what_they_change(rt: HostRuntime) {
    play(&rt, rt.alloc(), Scene::Touch);
}

/// That one instance is touched.
fn one(class: u16, instance: u16) -> Touch {
    Touch::One { class, instance }
}

/// Carries requests out, one after another: what each has for a result, what it touches, and the sync then. Entities alone carry no
/// upload out.
fn touch(rt: &impl Abort, mib: &mut Mib) {
    set_up(mib);
    for (sent, result, touched, sync) in [
        (create_gem_port(3), 7, Touch::Nothing, 7),
        (request(Action::Create, 45, 1, &[]), 4, Touch::Nothing, 7),
        (set(171, 0x0701, 0x4000, &[0, 5]), 9, Touch::Nothing, 7),
        (set(2, 0, 0x8000, &[9]), 0, Touch::Nothing, 9),
        (
            request(Action::Get, 171, 0x0701, &[4, 0]),
            0,
            Touch::Nothing,
            9,
        ),
        (
            request(Action::GetNext, 171, 0x0701, &[4, 0]),
            0,
            Touch::Nothing,
            9,
        ),
        (delete(266, 0x0502), 5, Touch::Nothing, 9),
        (request(Action::MibUpload, 2, 0, &[]), 2, Touch::Nothing, 9),
        (
            request(Action::MibUploadNext, 2, 0, &[]),
            2,
            Touch::Nothing,
            9,
        ),
        (
            request(Action::Create, 268, 0x0403, &[]),
            0,
            one(268, 0x0403),
            10,
        ),
        (
            set(130, 0x0601, 0x0800, &[0xff, 0xfe]),
            0,
            one(130, 0x0601),
            11,
        ),
        (set(171, 0x0701, 0, &[]), 0, one(171, 0x0701), 12),
        (delete(266, 0x0501), 0, one(266, 0x0501), 13),
        (request(Action::MibReset, 2, 0, &[]), 0, Touch::All, 0),
        (delete(268, 0x0402), 5, Touch::Nothing, 0),
    ] {
        let told = mib.result_of(&sent);
        let accepts = mib.accepts(&sent);
        let (reply, touch) = mib.step_touching(&sent);
        same!(rt; (told, reply.contents[0], touch, mib.sync()), (result, result, touched, sync), "{sent:?}");
        same!(rt; accepts, touched != Touch::Nothing || sent.class == 2 && sent.action == Action::Set, "{sent:?}");
    }
}

#[test]
fn a_shelf_has_the_rows_of_its_moment(rt: HostRuntime) {
    play(&rt, rt.alloc(), Scene::Upload);
}

/// Fills a shelf with the rows of entities, and looks at some.
fn upload(rt: &impl Abort, alloc: Global, mib: &mut Mib) {
    let mut shelf = Shelf::new(alloc).expect(rt, "room for rows");
    set_up(mib);
    holds!(rt; shelf.row(0).is_none());
    same!(rt; shelf.fill(mib), 12);
    let row = shelf.row(3).map(|row| (row.class, row.instance, row.mask));
    same!(rt; row, Some((130, 0x0601, 0xffc0)));
    let values = shelf.row(9).map(|row| row.values.as_slice());
    same!(rt; values, Some(&[4, 1, 5, 6, 1, 0, 0, 0, 0, 0, 0, 0][..]));
    holds!(rt; shelf.row(12).is_none());
    law_of_rows();
    law_of_row_order();
}

#[test]
fn a_trace_leaves_what_its_accepted_messages_leave(rt: HostRuntime) {
    play(&rt, rt.alloc(), Scene::Trace);
}

/// A Create, the same again, which is refused, one with a fault, a Set of the port-ID, and a Get.
fn trace(alloc: Global) -> Result<String, AllocError> {
    let mut text = String::from_str(alloc, "# a trace\n\n")?;
    for digits in [
        "0001440a010c04010400800103",
        "0002440a010c04010500800103",
        "0003440b010c04020400800103",
        "0004480a010c040180000401",
        "0005490a010c04018000",
    ] {
        push_message(&mut text, "o ", digits)?;
    }
    Ok(text)
}

/// Applies the requests of a trace. The message with a fault has none.
fn apply_trace(rt: &impl Abort, alloc: Global, mib: &mut Mib) {
    let text = trace(alloc).expect(rt, "room for a trace");
    let requests = read_requests(alloc, text.as_bytes()).expect(rt, "the requests of a trace");
    for request in &requests {
        let _ = mib.step(request);
    }
    let port_id = mib.gem_port(0x0401).map(|port| port.port_id);
    same!(rt; (requests.len(), mib.sync(), port_id), (4, 2, Some(1025)));
    holds!(rt; mib.gem_port(0x0402).is_none());
}

/// The line by which a trace is refused.
fn bad_line(alloc: Global, trace: &[u8]) -> Option<u64> {
    match read_requests(alloc, trace) {
        Err(ScriptFault::BadLine(line)) => Some(line),
        _ => None,
    }
}

#[test]
fn the_first_line_that_may_not_stand_is_found(rt: HostRuntime) {
    for (trace, expected) in [
        ("", None),
        ("# one\n\n# three\r\n", None),
        ("# one\no 0001\n\no 0002\nf 257 00\nf 257 00\n", Some(5)),
        ("o 0001\no 000\n", Some(2)),
        ("o 0001\nx\nf 1 00", Some(2)),
        ("o 0001\n-\n", Some(2)),
        ("o 0001\n\no 0\n", Some(3)),
        ("x", Some(1)),
    ] {
        same!(rt; bad_line(rt.alloc(), trace.as_bytes()), expected, "{trace}");
    }
}

/// A desk answers a request, and tells whether it is accepted and what it touches.
fn ask_a_desk(rt: &impl Abort, desk: &mut Desk) {
    let wanted = Reply {
        tci: 1,
        action: Action::MibUpload,
        class: 45,
        instance: 7,
        contents: contents(&[0, 2]),
    };
    let carried = desk.carry_out(&create_gem_port(3));
    same!(rt; (carried.accepted, carried.reply.contents[0]), (true, 0));
    same!(rt; desk.answer(&request(Action::MibUpload, 45, 7, &[])), wanted);
    let row = desk.answer(&request(Action::MibUploadNext, 0xffff, 9, &[0, 1]));
    same!(rt; row.contents, contents(&[1, 0x0c, 4, 1, 0xff, 0xc0, 4, 0, 0x80, 1, 3]));
    same!(rt; desk.mib().sync(), 1);
}

#[test]
fn a_desk_answers_every_request(rt: HostRuntime) {
    let mut desk = Desk::new(rt.alloc()).expect(&rt, "room for a desk");
    ask_a_desk(&rt, &mut desk);
}
