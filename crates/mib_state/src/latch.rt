//! The table that a Get latched, for Get next to read.
ghost use Rattle.std.specs.Prelude.{◌≡◌, ◌≤◌, ◌*◌, IfOk, None, Some, drop, length};
ghost use Rattle.std.specs.List.{concat};
ghost use Rattle.mib_state.specs.Step.{part_contents, part_of, part_room, sequence_of};

use byteorder::{BigEndian, ByteOrder};
use managed_entity::{Refusal, padded};
use std::alloc::{AllocError, Global};
use std::marker::Model;
use vlan_rule::{RuleTable, TABLE_MAX_SIZE};

/// The bytes of the largest table, 16 of each entry.
const ROOM: usize = 16 * TABLE_MAX_SIZE as usize;

/// How many bytes of the table the answer to a Get next holds.
const PART: usize = 29;

/// The place of attribute 6 of class 171, the received frame VLAN tagging operation table.
pub(crate) const TABLE_PLACE: usize = 5;

/// The mask that names it and no other.
pub(crate) const TABLE_MASK: u16 = 0x0400;

/// The latched table: the number of its instance and its entries of the moment of the Get, as bytes; none at the start.
#[derive(Drop)]
pub(crate) struct Latch {
    instance: Option<u16>,
    bytes: Vec<u8>,
}

impl Model for Latch {
    ghost use Rattle.std.specs.Prelude.{Option, option_map, vec_capacity, ◌≤◌, ◌*◌};
    ghost use Rattle.vlan_rule.specs.Table.{table_max_size};
    ghost use Rattle.mib_state.specs.Entities.{Latched};

    ghost Value = { Option Latched };

    ghost view = { λ s.
        option_map (λ n. record { instance = n; bytes = s.bytes.items }) s.instance };

    ghost invariant = { λ s. 16 * table_max_size ≤ vec_capacity s.bytes };
}

impl Latch {
    /// No table, with room for the largest.
    pub(crate) fn new(alloc: Global) -> Result<Self, AllocError>
        ensures { IfOk result (λ latch. latch ≡ None) }
    {
        Ok(Latch {
            instance: None,
            bytes: Vec::with_capacity(alloc, ROOM)?,
        })
    }

    /// Latches the table of an instance, as it is now.
    pub(crate) fn take(&mut self, instance: u16, table: &RuleTable)
        ensures { self.new ≡ Some (record { instance = instance; bytes = concat table.now }) }
    {
        self.instance = Some(instance);
        self.bytes.clear();
        for place in 0..table.len() {
            if let Some(entry) = table.entry(place) {
                let _ = self.bytes.extend_from_slice(&entry.0);
            }
        }
    }

    /// The answer to a Get next: the bytes of a sequence number, or a parameter error where there are none.
    #[tactic(auto, unfolding(crate::specs::Step::part_of))]
    pub(crate) fn part(&self, instance: u16, sequence: u16) -> Result<[u8; 32], Refusal>
        ensures { result ≡ part_of self.now instance sequence }
    {
        let from = PART * sequence as usize;
        if self.instance != Some(instance) || from >= self.bytes.len() {
            return Err(Refusal::ParameterError);
        }
        Ok(part_contents(&self.bytes[from..]))
    }
}

/// The contents of the answer that gives as many of the bytes as it has room for.
#[tactic(auto, unfolding(crate::specs::Step::part_contents))]
fn part_contents(bytes: &[u8]) -> [u8; 32]
    ensures { result ≡ part_contents bytes.now }
{
    let end = bytes.len().min(PART);
    let mut contents = [0; 32];
    BigEndian::write_u16(&mut contents[1..3], TABLE_MASK);
    contents[3..].copy_from_slice(&padded::<PART>(&bytes[..end]));
    contents
}

/// The sequence number of a Get next.
#[tactic(auto, unfolding(crate::specs::Step::sequence_of))]
pub(crate) fn sequence_of(contents: &[u8; 32]) -> u16
    ensures { result ≡ sequence_of contents.now }
{
    BigEndian::read_u16(&contents[2..])
}
