//! Frames that stand for many.
/// No tag, and the start of an IPv4 packet.
pub const UNTAGGED: [u8; 16] = [2, 0, 0, 0, 0, 1, 2, 0, 0, 0, 0, 2, 0x08, 0x00, 0x45, 0x00];

/// A service tag of VLAN 100 and priority 5 round a customer's tag of VLAN 200 and priority 2.
pub const DOUBLE: [u8; 24] = [
    2, 0, 0, 0, 0, 1, 2, 0, 0, 0, 0, 2, 0x88, 0xa8, 0xa0, 0x64, 0x81, 0x00, 0x40, 0xc8, 0x08, 0x00,
    0x45, 0x00,
];
