//! Where the fields of an entry lie (G.988, 9.3.13).

/// Where a field lies: its word, counted from 1, and there its highest and its lowest bit, of which
/// 31 is the highest of a word.
#[derive(Clone, Copy)]
pub struct Field {
    pub word: usize,
    pub high: u32,
    pub low: u32,
}

/// Where the three fields of a filter or a treatment lie.
#[derive(Clone, Copy)]
pub struct TagLayout {
    pub priority: Field,
    pub vid: Field,
    pub tpid: Field,
}

/// What an entry has in the three fields of a filter or a treatment.
#[derive(Clone, Copy, Default)]
pub struct TagCodes {
    pub priority: u8,
    pub vid: u16,
    pub tpid: u8,
}

pub(crate) const FILTER_OUTER: TagLayout = TagLayout {
    priority: Field {
        word: 1,
        high: 31,
        low: 28,
    },
    vid: Field {
        word: 1,
        high: 27,
        low: 15,
    },
    tpid: Field {
        word: 1,
        high: 14,
        low: 12,
    },
};

pub(crate) const FILTER_INNER: TagLayout = TagLayout {
    priority: Field {
        word: 2,
        high: 31,
        low: 28,
    },
    vid: Field {
        word: 2,
        high: 27,
        low: 15,
    },
    tpid: Field {
        word: 2,
        high: 14,
        low: 12,
    },
};

pub(crate) const TREATMENT_OUTER: TagLayout = TagLayout {
    priority: Field {
        word: 3,
        high: 19,
        low: 16,
    },
    vid: Field {
        word: 3,
        high: 15,
        low: 3,
    },
    tpid: Field {
        word: 3,
        high: 2,
        low: 0,
    },
};

pub(crate) const TREATMENT_INNER: TagLayout = TagLayout {
    priority: Field {
        word: 4,
        high: 19,
        low: 16,
    },
    vid: Field {
        word: 4,
        high: 15,
        low: 3,
    },
    tpid: Field {
        word: 4,
        high: 2,
        low: 0,
    },
};

pub(crate) const FILTER_ETHERTYPE: Field = Field {
    word: 2,
    high: 3,
    low: 0,
};

pub(crate) const TAGS_TO_REMOVE: Field = Field {
    word: 3,
    high: 31,
    low: 30,
};
