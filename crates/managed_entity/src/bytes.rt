//! Attributes as bytes, the highest first.
ghost use Rattle.std.specs.Prelude.{◌≡◌, [], ◌∷◌, length};
ghost use Rattle.byteorder.specs.Endian.{big_bytes};

use arrayvec::ArrayVec;
use tag_view::DscpMap;

/// The bytes of one attribute.
pub type Bytes = ArrayVec<u8, 24>;

/// The bytes of a number of one byte.
pub fn one(x: u8) -> Bytes
    ensures { result.items ≡ x ∷ [] }
{
    let mut bytes = ArrayVec::new();
    bytes.push(x);
    bytes
}

/// The bytes of a number of two bytes.
pub(crate) fn two(x: u16) -> Bytes
    ensures { result.items ≡ big_bytes 2 x }
{
    let [high, low] = x.to_be_bytes();
    let mut bytes = ArrayVec::new();
    bytes.push(high);
    bytes.push(low);
    bytes
}

/// The bytes of a number of four bytes.
pub(crate) fn four(x: u32) -> Bytes
    ensures { result.items ≡ big_bytes 4 x }
{
    let [first, second, third, last] = x.to_be_bytes();
    let mut bytes = ArrayVec::new();
    bytes.push(first);
    bytes.push(second);
    bytes.push(third);
    bytes.push(last);
    bytes
}

/// The number that one byte spells.
pub fn byte(bytes: &[u8]) -> u8
    requires { length bytes.now ≡ 1 }
    ensures { result ∷ [] ≡ bytes.now }
{
    bytes[0]
}

/// The number that two bytes spell.
pub(crate) fn number(bytes: &[u8]) -> u16
    requires { length bytes.now ≡ 2 }
    ensures { big_bytes 2 result ≡ bytes.now }
{
    u16::from_be_bytes([bytes[0], bytes[1]])
}

/// The bytes of a DSCP to P-bit mapping.
pub(crate) fn whole(map: &DscpMap) -> Bytes
    ensures value { result.items ≡ map.now.0 }
    ensures len { length result.items ≡ 24 }
{
    ArrayVec::from(map.0)
}

/// The DSCP to P-bit mapping that 24 bytes are.
pub(crate) fn dscp_map(bytes: &[u8]) -> DscpMap
    requires { length bytes.now ≡ 24 }
    ensures { result.0 ≡ bytes.now }
{
    let mut map = [0; 24];
    map.copy_from_slice(bytes);
    DscpMap(map)
}
