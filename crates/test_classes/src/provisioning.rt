//! Port 257 as it is provisioned, changes of it, and the classes of its frames.
use forward_plan::Live;
use frame_classes::{Ending, Use};
use frame_meaning::Reason;
use omci_msg::{Action, Request};
use std::process::Abort;
use test_draws::{create_gem_port, create_interwork, create_mapper, create_table, request, set};
use test_fixtures::same;

/// A Set behind the provisioning of the port, by which each priority leads to port-ID 1024 and the table keeps tags.
#[derive(Clone, Copy)]
pub(crate) enum Change {
    /// Of an entry of the table, by its first eight bytes and its last eight.
    Entry(u64, u64),
    /// Of other attributes of the table, by a mask.
    Table(u16, &'static [u8]),
    /// Of attributes of the mapper, by a mask.
    Mapper(u16, &'static [u8]),
}

/// A use and an ending.
pub(crate) type Class = (Use, Ending);

/// The last eight bytes of an entry that changes nothing, of one that drops the frame, of those that take one tag or two away, and of a
/// deletion.
pub(crate) const UNCHANGED: u64 = 0x000f0000_000f0000;

pub(crate) const DROPPED: u64 = 0xc00f0000_000f0000;

pub(crate) const LESS_ONE: u64 = 0x400f0000_000f0000;

pub(crate) const LESS_TWO: u64 = 0x800f0000_000f0000;

pub(crate) const DELETION: u64 = 0xffffffff_ffffffff;

/// The entry by which frames without a tag get one of VLAN 100.
pub(crate) const TAGGING: Change = Change::Entry(0xf8000000_f8000000, 0x000f0000_00000324);

/// By attribute 8 of the table priority 5 by DSCP 46, and 0 by each other.
pub(crate) const TAG_BY_DSCP_46: Change = Change::Table(
    0x0100,
    &[
        0, 0, 0, 0, 0, 0, 0, 0, 0, 0, 0, 0, 0, 0, 0, 0, 0, 0x28, 0, 0, 0, 0, 0, 0,
    ],
);

pub(crate) const RUNT: Class = (Use::Unread, Ending::Dropped(Reason::Runt));

pub(crate) const CUT: Class = (Use::Unread, Ending::Dropped(Reason::CutTag));

pub(crate) const LEFT: Ending = Ending::Gem(1024);

pub(crate) const NO_RULE: Ending = Ending::Dropped(Reason::NoRule);

pub(crate) const DISCARD: Ending = Ending::Dropped(Reason::RuleDiscard);

pub(crate) const NO_MAPPER: Ending = Ending::Dropped(Reason::NoMapper);

pub(crate) const NOWHERE: Ending = Ending::Dropped(Reason::NullPointer);

pub(crate) const NO_POINT: Ending = Ending::Dropped(Reason::NoInterwork);

/// The request of a change.
fn request_of(change: &Change) -> Request {
    match change {
        Change::Entry(key, rest) => {
            let mut entry = [0; 16];
            entry[..8].copy_from_slice(&key.to_be_bytes());
            entry[8..].copy_from_slice(&rest.to_be_bytes());
            set(171, 0x0701, 0x0400, &entry)
        }
        Change::Table(mask, values) => set(171, 0x0701, *mask, values),
        Change::Mapper(mask, values) => set(130, 0x0601, *mask, values),
    }
}

/// Leaves the port as it is provisioned, and changed so.
pub(crate) fn provision(rt: &impl Abort, live: &mut Live, changes: &[Change]) {
    for request in [
        request(Action::MibReset, 2, 0, &[]),
        create_gem_port(3),
        create_interwork(0x0501),
        create_mapper(0x0601, 257, [0x0501; 8], 0),
        create_table(0x0701, 2, 257),
    ] {
        live.apply(&request);
    }
    for change in changes {
        let request = request_of(change);
        same!(rt; live.mib().result_of(&request), 0, "the result of {request:?}");
        live.apply(&request);
    }
}
