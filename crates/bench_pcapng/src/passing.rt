//! A block that is passed over: its bytes are let go as they come, but for those of its packet.
ghost use Rattle.std.specs.Prelude.{◌≡◌, ◌≤◌, length};
ghost use Rattle.bench_pcapng.specs.Passing.{begun, described_by, letting, passed_by};

use crate::block::order_of_block;
use crate::blocks::{Block, Blocks, Located, data_start};
use crate::effect::{Effect, INTERFACE, read_block};
use crate::fault::{BlockFault, PcapngFault};
use crate::interface::{Interface, plain_interface};
use crate::options::{END, OPTION_HEADER_LEN, padded, split_option};
use crate::order::Order;
use crate::outcome::{Kept, Outcome};
use crate::pcapng::is_pcapng;
use capture::STORED_LIMIT;
use std::alloc::Global;

/// How many bytes of a block show what it does, but for the options of an interface: 28 in front of a packet's bytes, 262,144 of these,
/// and 4 more.
const SHOWN_LEN: usize = 28 + STORED_LIMIT as usize + 4;

/// How many bytes of a block's body are among these: all but 8 in front and 4 behind.
const BODY_SHOWN_LEN: usize = SHOWN_LEN - 12;

/// How many bytes stand in front of the options of an interface: the type and the length of the block, the link type, two reserved
/// bytes, and the snap length.
const DESCRIPTION_START: usize = 16;

/// How many bytes a block's second length has.
const LENGTH_LEN: usize = 4;

/// A block that is passed over.
#[derive(Clone, Copy)]
pub struct Passing {
    // Whether it is the first of the file.
    pub(crate) first: bool,
    // The byte order that it is written in.
    pub(crate) order: Order,
    // How many bytes are left in front of its second length, behind those that are kept.
    pub(crate) left: usize,
    // How many bytes it has, as its first length says.
    pub(crate) total: u32,
    // What it does.
    pub(crate) outcome: Outcome,
}

/// Bytes of a block that are let go.
#[derive(Clone, Copy)]
pub struct Past {
    /// How many bytes stand in front of them, and are kept.
    pub start: usize,
    /// How many there are.
    pub length: usize,
    /// The block without them.
    pub left: Passing,
}

/// A block of which these bytes are let go, behind so many others.
fn letting(start: usize, length: usize, passing: Passing) -> Past
    ensures { result ≡ letting start length passing }
{
    Past {
        start,
        length,
        left: Passing {
            left: passing.left.saturating_sub(length),
            ..passing
        },
    }
}

/// A block of this order and length, of which nothing was let go.
fn begun(order: Order, total: u32, outcome: Outcome) -> Passing
    ensures { result ≡ begun order total outcome }
{
    Passing {
        first: false,
        order,
        left: (total as usize)
            .saturating_sub(LENGTH_LEN)
            .saturating_sub(outcome.kept()),
        total,
        outcome,
    }
}

/// How a block of this order, length, type and effect is passed over.
fn passed_by(
    order: Order,
    total: u32,
    kind: u32,
    effect: &Result<Effect<'_>, BlockFault>,
) -> Option<Past>
    ensures { result ≡ passed_by order total kind effect.now }
{
    match effect {
        Err(fault) => Some(letting(0, 0, begun(order, total, Outcome::Refuses(*fault)))),
        Ok(Effect::Nothing) => Some(letting(0, 0, begun(order, total, Outcome::Passes))),
        Ok(Effect::Section(own)) => Some(letting(0, 0, begun(order, total, Outcome::Begins(*own)))),
        Ok(Effect::Describes(_)) => None,
        Ok(Effect::Gives(packet)) => {
            let kept = Outcome::Keeps(Kept::of(packet));
            Some(letting(0, data_start(kind), begun(order, total, kept)))
        }
    }
}

/// How a description of an interface is passed over.
fn described_by(order: Order, total: u32, body: &[u8]) -> Past
    requires { 8 ≤ length body.now }
    ensures { result ≡ described_by order total body.now }
{
    let plain = plain_interface(order, body);
    letting(
        0,
        DESCRIPTION_START,
        begun(order, total, Outcome::Describing(plain)),
    )
}

impl Passing {
    ghost use Rattle.std.specs.Prelude.{◌≡◌, ◌≤◌, ◌<◌, ◌+◌, ◌↔◌, IfSome, IsTrue, Some, None, if◌then◌else◌, nat_lt, length};
    ghost use Rattle.bench_pcapng.specs.Passing.{IsHeldOf, RestDoesAsHeld, fault_in, inside_of, kept_of, letting_all, letting_of, letting_option};

    /// How many bytes stand in front of the block's second length, if that is among so many.
    fn end_within(self, len: usize) -> Option<usize>
        ensures { result ≡ (if nat_lt len (inside_of self + 4) then None else Some (inside_of self)) }
    {
        let kept = self.outcome.kept();
        if len < kept || len - kept < LENGTH_LEN || len - kept - LENGTH_LEN < self.left {
            return None;
        }
        Some(kept + self.left)
    }

    /// Whether these bytes, with which the block goes on, hold all of it.
    pub fn is_whole(self, bytes: &[u8]) -> bool
        ensures { IsTrue result ↔ (inside_of self + 4 ≤ length bytes.now) }
    {
        self.end_within(bytes.len()).is_some()
    }

    /// The fault of a capture whose block of this number is this one, and has one.
    fn fault_at(self, number: u64, fault: BlockFault) -> PcapngFault
        ensures { result ≡ fault_in self.first number fault }
    {
        if self.first {
            PcapngFault::Header
        } else {
            fault.at(number)
        }
    }

    /// The first of the options that are held, if it is whole.
    fn let_option_go(self, plain: Interface, options: &[u8]) -> Option<Past>
        ensures value { result ≡ letting_option self plain options.now }
        ensures few { result ≡ None → length options.now < 65540 }
    {
        if options.len() < OPTION_HEADER_LEN {
            return None;
        }
        if self.order.read_u16(options) == END {
            let outcome = Outcome::Described(plain);
            return Some(letting(0, OPTION_HEADER_LEN, Passing { outcome, ..self }));
        }
        let room = padded(self.order.read_u16(&options[2..]) as usize);
        if options.len() - OPTION_HEADER_LEN < room {
            return None;
        }
        let outcome = match split_option(self.order, plain, options) {
            Some((more, _)) => Outcome::Describing(more),
            None => Outcome::Refuses(BlockFault::Torn),
        };
        let length = OPTION_HEADER_LEN + room;
        Some(letting(0, length, Passing { outcome, ..self }))
    }

    /// All bytes in front of the second length, but for those that are kept.
    fn let_all_go(self, bytes: &[u8]) -> Option<Past>
        ensures { result ≡ letting_all self bytes.now }
    {
        let kept = self.outcome.kept();
        let length = self.left.min(bytes.len().saturating_sub(kept));
        if length == 0 {
            return None;
        }
        Some(letting(kept, length, self))
    }

    /// The part of the block that can be discarded. `None`: under 262,176 bytes are held, or all of the block.
    #[tactic(auto, unfolding(crate::specs::Passing::letting_of))]
    pub fn let_go(self, bytes: &[u8]) -> Option<Past>
        ensures value { result ≡ letting_of self bytes.now }
        ensures same { IfSome result (λ past. RestDoesAsHeld self bytes.now past) }
        ensures held { kept_of self.outcome ≤ 262164 → result ≡ None → IsHeldOf self bytes.now }
    {
        match self.outcome {
            Outcome::Describing(plain) => {
                let (options, _) = bytes.split_at(self.left.min(bytes.len()));
                self.let_option_go(plain, options)
            }
            _ => self.let_all_go(bytes),
        }
    }
}

impl Blocks {
    ghost use Rattle.std.specs.Prelude.{◌≡◌, ◌<◌, ◌-◌, ◌^◌, IfSome, option_map};
    ghost use Rattle.bench_pcapng.specs.Passing.{at_first, fault_in, first_passing_of, passing_of, step_within, DoesAsHeld, FileReadsAsHeld};
    ghost use Rattle.bench_pcapng.specs.Read.{Reads};
    ghost use Rattle.bench_pcapng.specs.declared.fault.BlockFault.TheVariants.{Torn};

    /// How the block at the front of these bytes is passed over, and which of them are let go at once. None where there are under 262,176
    /// of them, or they show whether the block is whole.
    #[tactic(auto, unfolding(crate::specs::Passing::passing_of))]
    pub fn pass_over(&self, bytes: &[u8]) -> Option<Past>
        ensures value { result ≡ passing_of self.now bytes.now }
        ensures same { IfSome result (λ past. DoesAsHeld self.now bytes.now past) }
    {
        if bytes.len() < SHOWN_LEN {
            return None;
        }
        let own = order_of_block(self.order, bytes)?;
        let total = own.read_u32(&bytes[4..]);
        if total % 4 != 0 || total as usize <= bytes.len() {
            return None;
        }
        let (_, behind_kind) = bytes.split_at(8);
        let (body, _) = behind_kind.split_at(BODY_SHOWN_LEN);
        let kind = self.order.read_u32(bytes);
        if kind == INTERFACE {
            return Some(described_by(own, total, body));
        }
        let interfaces = self.interfaces.as_slice();
        passed_by(
            own,
            total,
            kind,
            &read_block(self.order, interfaces, self.time, kind, body),
        )
    }

    /// Reads the rest of a block that is passed over. Err where its two lengths differ, where it has a fault, or isn't whole; or with
    /// `NoMemory` where there is none for its interface. Then as much is known as before.
    #[tactic(auto, unfolding(crate::specs::Passing::step_within))]
    pub fn read_rest<'a>(
        &mut self,
        passing: Passing,
        bytes: &'a [u8],
    ) -> Result<Block<'a>, PcapngFault>
        requires { self.old.number < 2 ^ 64 - 1 }
        ensures { Reads 4 (step_within self.old passing bytes.now) self.old bytes.now result self.new }
    {
        let Some(end) = passing.end_within(bytes.len()) else {
            return Err(passing.fault_at(self.number, BlockFault::Torn));
        };
        let (inside, behind) = bytes.split_at(end);
        if passing.order.read_u32(behind) != passing.total {
            return Err(passing.fault_at(self.number, BlockFault::Torn));
        }
        let effect = match passing.outcome.effect(passing.order, inside) {
            Ok(effect) => effect,
            Err(fault) => return Err(passing.fault_at(self.number, fault)),
        };
        let length = end + LENGTH_LEN;
        match self.apply(effect) {
            Ok(Some(packet)) => {
                let packet = Some(Located { packet, start: 0 });
                Ok(Block { length, packet })
            }
            Ok(None) => Ok(Block {
                length,
                packet: None,
            }),
            Err(fault) => Err(fault),
        }
    }

    /// How the first block of a file is passed over, with what is known in front of it. None where the file isn't in the pcapng format,
    /// its bytes here are under 262,176, or they show whether the block is whole.
    pub fn pass_over_first(alloc: Global, file: &[u8]) -> Option<(Blocks, Past)>
        ensures past { option_map (λ parts. parts.1) result ≡ first_passing_of file.now }
        ensures known { IfSome result (λ parts. parts.0 ≡ at_first) }
        ensures same { IfSome result (λ parts. FileReadsAsHeld file.now parts.1) }
    {
        if !is_pcapng(file) {
            return None;
        }
        let blocks = Blocks {
            order: Order::HighFirst,
            interfaces: Vec::new(alloc),
            time: 0,
            number: 0,
        };
        let past = blocks.pass_over(file)?;
        let left = Passing {
            first: true,
            ..past.left
        };
        Some((blocks, Past { left, ..past }))
    }

    /// The fault of a capture that ends within this block.
    pub fn torn(&self, passing: Passing) -> PcapngFault
        ensures { result ≡ fault_in passing.first self.now.number Torn }
    {
        passing.fault_at(self.number, BlockFault::Torn)
    }
}
