//! The blocks of a capture in the pcapng format, of which the three kinds that are written fit in little room, but for a packet's bytes.
ghost use Rattle.std.specs.Prelude.{◌≡◌, ◌≤◌, ◌+◌, ◌++◌, length, replicate};
ghost use Rattle.std.specs.Fmt.{decimal};
ghost use Rattle.arrayvec.specs.ArrayVec.{array_vec_len};
ghost use Rattle.byteorder.specs.Endian.{little_bytes};
ghost use Rattle.bench_forward.specs.Blocks.{block, interface_block, named_interface, option, padding, port_block, section_block};

use arrayvec::ArrayVec;
use capture::ETHERNET;
use itoa::Buffer;

/// Room for a whole block without a packet's bytes.
pub(crate) type Block = ArrayVec<u8, 64>;

/// The section header block: version 1.0, the lowest bytes of numbers first, and a section of unknown length.
const SECTION_HEADER: [u8; 28] = [
    0x0a, 0x0d, 0x0d, 0x0a, 28, 0, 0, 0, 0x4d, 0x3c, 0x2b, 0x1a, 1, 0, 0, 0, 0xff, 0xff, 0xff,
    0xff, 0xff, 0xff, 0xff, 0xff, 28, 0, 0, 0,
];

/// The type of an interface description block.
const INTERFACE: u32 = 1;

/// The code of the option that ends the options.
pub(crate) const END: u16 = 0;

/// The code of a comment.
pub(crate) const COMMENT: u16 = 1;

/// The code of the name of an interface.
const NAME: u16 = 2;

/// The code of the resolution of an interface's times.
const RESOLUTION: u16 = 9;

/// How many decimal digits of a second its times have.
const NANOSECONDS: u8 = 9;

/// How many bytes of a block stand around its body: the type and the length, and the length again.
const AROUND_BODY: u32 = 12;

/// The section header block.
#[tactic(auto, unfolding(crate::specs::Blocks::section_block, crate::specs::Blocks::block))]
pub(crate) fn section_block() -> [u8; 28]
    ensures { result ≡ section_block }
{
    SECTION_HEADER
}

/// How many zeros make a length a multiple of four.
pub(crate) fn padding(len: usize) -> usize
    ensures value { result ≡ padding len }
    ensures few { result ≤ 3 }
{
    (4 - len % 4) % 4
}

/// Puts a number of 16 bits.
pub(crate) fn put_u16(bytes: &mut Block, number: u16)
    requires { array_vec_len bytes.old + 2 ≤ 64 }
    ensures items { bytes.new.items ≡ bytes.old.items ++ little_bytes 2 number }
    ensures len { array_vec_len bytes.new ≡ array_vec_len bytes.old + 2 }
{
    let _ = bytes.try_extend_from_slice(&number.to_le_bytes());
}

/// Puts a number of 32 bits.
pub(crate) fn put_u32(bytes: &mut Block, number: u32)
    requires { array_vec_len bytes.old + 4 ≤ 64 }
    ensures items { bytes.new.items ≡ bytes.old.items ++ little_bytes 4 number }
    ensures len { array_vec_len bytes.new ≡ array_vec_len bytes.old + 4 }
{
    let _ = bytes.try_extend_from_slice(&number.to_le_bytes());
}

/// Puts a length, of which the lowest 32 bits count.
pub(crate) fn put_length(bytes: &mut Block, length: usize)
    requires { array_vec_len bytes.old + 4 ≤ 64 }
    ensures items { bytes.new.items ≡ bytes.old.items ++ little_bytes 4 length }
    ensures len { array_vec_len bytes.new ≡ array_vec_len bytes.old + 4 }
{
    put(bytes, &length.to_le_bytes()[..4]);
}

/// Puts bytes.
pub(crate) fn put<const ROOM: usize>(bytes: &mut ArrayVec<u8, ROOM>, more: &[u8])
    requires { array_vec_len bytes.old + length more.now ≤ ROOM }
    ensures items { bytes.new.items ≡ bytes.old.items ++ more.now }
    ensures len { array_vec_len bytes.new ≡ array_vec_len bytes.old + length more.now }
{
    let _ = bytes.try_extend_from_slice(more);
}

/// Puts a number in decimal digits, of which there are 20 at most.
pub(crate) fn put_decimal<const ROOM: usize>(bytes: &mut ArrayVec<u8, ROOM>, number: u64)
    requires { array_vec_len bytes.old + 20 ≤ ROOM }
    ensures items { bytes.new.items ≡ bytes.old.items ++ decimal number }
    ensures len { array_vec_len bytes.new ≤ array_vec_len bytes.old + 20 }
{
    let mut digits = Buffer::new();
    put(bytes, digits.format(number).as_bytes());
}

/// As many zeros, three at most.
pub(crate) fn zeros(count: usize) -> &'static [u8]
    requires { count ≤ 3 }
    ensures { result.now ≡ replicate count 0 }
{
    let (zeros, _) = [0u8; 3].split_at(count);
    zeros
}

/// A block of this type and body.
#[tactic(auto, unfolding(crate::specs::Blocks::block))]
fn block_of(kind: u32, body: &[u8]) -> Block
    requires { length body.now ≤ 52 }
    ensures { result.items ≡ block kind body.now }
{
    let len = body.len() as u32 + AROUND_BODY;
    let mut bytes = ArrayVec::new();
    put_u32(&mut bytes, kind);
    put_u32(&mut bytes, len);
    put(&mut bytes, body);
    put_u32(&mut bytes, len);
    bytes
}

/// Puts an option.
#[tactic(auto, unfolding(crate::specs::Blocks::option))]
pub(crate) fn put_option(bytes: &mut Block, code: u16, value: &[u8])
    requires { array_vec_len bytes.old + length value.now + 7 ≤ 64 }
    ensures items { bytes.new.items ≡ bytes.old.items ++ option code value.now }
    ensures len { array_vec_len bytes.new ≤ array_vec_len bytes.old + length value.now + 7 }
{
    put_u16(bytes, code);
    put_u16(bytes, value.len() as u16);
    put(bytes, value);
    put(bytes, zeros(padding(value.len())));
}

/// A word of five bytes at most, and a number behind it.
fn numbered(word: &[u8], number: u16) -> ArrayVec<u8, 16>
    requires { length word.now ≤ 5 }
    ensures name { result.items ≡ word.now ++ decimal number }
    ensures short { array_vec_len result ≤ 10 }
{
    let mut digits = Buffer::new();
    let mut name = ArrayVec::new();
    put(&mut name, word);
    put(&mut name, digits.format(number).as_bytes());
    name
}

/// The interface description block of a GEM port.
#[tactic(auto, unfolding(crate::specs::Blocks::interface_block))]
pub(crate) fn interface_block(gem: u16) -> Block
    ensures { result.items ≡ interface_block gem }
{
    named_interface(&numbered(b"gem ", gem))
}

/// The interface description block of a port.
#[tactic(auto, unfolding(crate::specs::Blocks::port_block))]
pub(crate) fn port_block(port: u16) -> Block
    ensures { result.items ≡ port_block port }
{
    named_interface(&numbered(b"port ", port))
}

/// The interface description block of this name, which has ten bytes at most.
#[tactic(auto, unfolding(crate::specs::Blocks::named_interface))]
fn named_interface(name: &[u8]) -> Block
    requires { length name.now ≤ 10 }
    ensures { result.items ≡ named_interface name.now }
{
    let mut body = ArrayVec::new();
    put_u16(&mut body, ETHERNET);
    put_u16(&mut body, 0);
    put_u32(&mut body, 0);
    put_option(&mut body, NAME, name);
    put_option(&mut body, RESOLUTION, &[NANOSECONDS]);
    put_option(&mut body, END, &[]);
    block_of(INTERFACE, &body)
}
