//! Messages that are drawn.
use crate::asking::{create_mapper, create_table, request, set};
use crate::draws::{Draws, TPIDS};
use omci_msg::{Action, Request};

/// The ports that the drawn entities speak of, and one of which none speaks.
pub const PORTS: [u16; 3] = [257, 65535, 0];

/// What is asked of an instance, the frequent ones more than once.
const ACTIONS: [Action; 10] = [
    Action::Create,
    Action::Create,
    Action::Create,
    Action::Create,
    Action::Create,
    Action::Set,
    Action::Set,
    Action::Set,
    Action::Delete,
    Action::Get,
];

impl Draws {
    /// A DSCP to P-bit mapping.
    fn dscp_map(&mut self) -> [u8; 24] {
        let mut map = [0; 24];
        for byte in map.iter_mut() {
            *byte = (self.next() % 256) as u8;
        }
        map
    }

    fn gem_port_request(&mut self) -> Request {
        let instance = self.of(&[0x0401, 0x0402, 0x0403]);
        let [high, low] = self.of(&[1024u16, 1025, 4094]).to_be_bytes();
        let direction = self.of(&[1, 2, 3]);
        match self.of(&ACTIONS) {
            Action::Create => {
                let values = [high, low, 0x80, 1, direction];
                request(Action::Create, 268, instance, &values)
            }
            Action::Set => set(268, instance, 0xa000, &[high, low, direction]),
            action => request(action, 268, instance, &[0xff, 0xc0]),
        }
    }

    fn interwork_request(&mut self) -> Request {
        let instance = self.of(&[0x0501, 0x0502, 0x0503]);
        let [high, low] = self
            .of(&[0x0401u16, 0x0401, 0x0402, 0x0402, 0x0403, 0x0404])
            .to_be_bytes();
        match self.of(&ACTIONS) {
            Action::Create => request(Action::Create, 266, instance, &[high, low, 5, 6, 1]),
            Action::Set => set(266, instance, 0x8000, &[high, low]),
            action => request(action, 266, instance, &[0xff, 0x00]),
        }
    }

    /// A pointer to a GEM interworking termination point.
    fn pointer(&mut self) -> u16 {
        self.of(&[
            0x0501, 0x0501, 0x0502, 0x0502, 0x0503, 0x0503, 0x0504, 0xffff,
        ])
    }

    /// The pointers of a mapper.
    fn pointers(&mut self) -> [u16; 8] {
        let mut pointers = [0; 8];
        for pointer in pointers.iter_mut() {
            *pointer = self.pointer();
        }
        pointers
    }

    fn set_mapper(&mut self, instance: u16) -> Request {
        match self.of(&[0, 1, 2, 3]) {
            0 => {
                let [high, low] = self.of(&PORTS[..2]).to_be_bytes();
                let tp_type = self.of(&[1, 1, 1, 1, 2]);
                set(130, instance, 0x8008, &[high, low, tp_type])
            }
            1 => {
                let option = self.of(&[0, 0, 1, 2]);
                let default = self.of(&[0, 3, 7, 13]);
                set(130, instance, 0x0050, &[option, default])
            }
            2 => {
                let [high, low] = self.pointer().to_be_bytes();
                let mask = self.of(&[
                    0x4000, 0x2000, 0x1000, 0x0800, 0x0400, 0x0200, 0x0100, 0x0080,
                ]);
                set(130, instance, mask, &[high, low])
            }
            _ => {
                let map = self.dscp_map();
                set(130, instance, 0x0020, &map)
            }
        }
    }

    fn mapper_request(&mut self) -> Request {
        let instance = self.of(&[0x0601, 0x0602, 0x0603, 0x0604]);
        match self.of(&ACTIONS) {
            Action::Create => {
                let port = self.of(&PORTS[..2]);
                let default = self.of(&[0, 5, 10]);
                create_mapper(instance, port, self.pointers(), default)
            }
            Action::Set => self.set_mapper(instance),
            action => request(action, 130, instance, &[0xff, 0x80]),
        }
    }

    /// A filter of a tag, seldom one that is refused.
    fn tag_filter(&mut self) -> u32 {
        let priority = self.of(&[8, 8, 3, 5]);
        let vid = self.of(&[4096, 4096, 1, 100, 101, 4095]);
        let tpid = self.of(&[0, 0, 0, 4, 4, 5, 5, 6, 7, 3]);
        priority << 28 | vid << 15 | tpid << 12
    }

    /// The first eight bytes of an entry.
    fn key(&mut self) -> u64 {
        let filter = self.tag_filter();
        let padding = self.of(&[0, 0, 0, 0x0800_0000]);
        let (outer, inner) = match self.of(&[0, 1, 2, 2, 3, 3, 4, 4]) {
            0 => (0xf000_0000, 0xf000_0000),
            1 => (0xf000_0000, 0xe000_0000),
            2 => (0xf000_0000, filter),
            3 => (0xe000_0000, 0xe000_0000),
            _ => (self.tag_filter(), filter),
        };
        let ethertype = self.of(&[0, 0, 0, 1, 2, 3, 4, 5]);
        u64::from(outer | padding) << 32 | u64::from(inner | ethertype)
    }

    /// A tag that is added, by its place in the entry's words, or none.
    fn added_tag(&mut self) -> u32 {
        let priority = self.of(&[15, 0, 6, 8, 9, 10]);
        let vid = self.of(&[0, 100, 4094, 4096, 4097]);
        let tpid = self.of(&[0, 1, 2, 3, 4, 6, 7]);
        priority << 16 | vid << 3 | tpid
    }

    /// The last eight bytes of an entry: the tags that it removes and adds, or its deletion.
    fn rest(&mut self) -> u64 {
        if self.of(&[true, false, false, false, false]) {
            return u64::MAX;
        }
        let remove = self.of(&[0, 0, 0, 0, 0, 1, 1, 2, 3]);
        let outer = remove << 30 | self.added_tag();
        u64::from(outer) << 32 | u64::from(self.added_tag())
    }

    /// A Set of an entry of a table.
    fn set_entry(&mut self, instance: u16) -> Request {
        let mut entry = [0; 16];
        entry[..8].copy_from_slice(&self.key().to_be_bytes());
        entry[8..].copy_from_slice(&self.rest().to_be_bytes());
        set(171, instance, 0x0400, &entry)
    }

    /// A Set of other attributes of a table.
    fn set_table(&mut self, instance: u16) -> Request {
        match self.of(&[0, 1, 2]) {
            0 => {
                let [i0, i1] = self.of(&TPIDS).to_be_bytes();
                let [o0, o1] = self.of(&TPIDS).to_be_bytes();
                set(171, instance, 0x3000, &[i0, i1, o0, o1])
            }
            1 => {
                let (association, to) = self.attachment();
                let [high, low] = to.to_be_bytes();
                set(171, instance, 0x8200, &[association, high, low])
            }
            _ => {
                let map = self.dscp_map();
                set(171, instance, 0x0100, &map)
            }
        }
    }

    /// An association type and a pointer that most often belongs to it.
    fn attachment(&mut self) -> (u8, u16) {
        match self.of(&[0, 1, 1, 2]) {
            0 => (1, self.of(&[0x0601, 0x0602, 0x0603])),
            1 => (2, self.of(&PORTS[..2])),
            _ => (self.of(&[0, 1, 2, 3]), self.of(&[257, 65535, 0x0601])),
        }
    }

    fn table_request(&mut self) -> Request {
        let instance = self.of(&[0x0701, 0x0702, 0x0703]);
        match self.of(&[0, 0, 1, 1, 1, 1, 1, 1, 1, 1, 1, 1, 2, 2, 2, 3, 4]) {
            0 => {
                let (association, to) = self.attachment();
                create_table(instance, association, to)
            }
            1 => self.set_entry(instance),
            2 => self.set_table(instance),
            3 => request(Action::Delete, 171, instance, &[]),
            _ => request(Action::Get, 171, instance, &[0xff, 0x00]),
        }
    }

    /// A request to the entities: to create, set, delete or get one, and one in 300 resets them all.
    pub fn request(&mut self) -> Request {
        if self.next() % 300 == 0 {
            return request(Action::MibReset, 2, 0, &[]);
        }
        match self.of(&[130, 130, 171, 171, 171, 266, 268]) {
            130 => self.mapper_request(),
            171 => self.table_request(),
            266 => self.interwork_request(),
            _ => self.gem_port_request(),
        }
    }
}
