//! Messages that stand for many.
use hex::decode_to_slice;

/// What makes port 257, by its digits: GEM port network CTP 0x0401 of port-ID 1024, an interworking point to it, a mapper of the
/// port that leads there by each priority, and a table of the port; last an entry of the table for untagged frames, which pushes a
/// tag of VLAN 100.
pub const PORT_257: [&str; 5] = [
    "0001440a010c04010400800103",
    "0002440a010a05010401050601",
    "0003440a00820601010105010501050105010501050105010501010001",
    "0004440a00ab0701020101",
    "0005480a00ab07010400f8000000f8000000000f000000000324",
];

/// The 48 bytes of a message that begins with these hexadecimal digits, 80 at most: zeros follow up to byte 40, and the trailer. It
/// is all zeros but for the trailer where they are no digits, or an odd number of them.
pub fn message(digits: &str) -> [u8; 48] {
    let mut bytes = [0; 48];
    let len = (digits.len() / 2).min(40);
    let _ = decode_to_slice(digits, &mut bytes[..len]);
    bytes[43] = 0x28;
    bytes
}
