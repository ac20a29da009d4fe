//! Digits of many bytes.
use script_digits::{read_digits, write_digits};
use std::process::Abort;
use test_fixtures::{holds, same};

/// Compares what two characters are read as.
fn compare_pair(rt: &impl Abort, pair: [u8; 2], wanted: Option<u32>) {
    let mut bytes = [0x5a];
    let read = read_digits(&pair, &mut bytes);
    same!(rt; read, wanted.is_some(), "{pair:?}");
    same!(rt; u32::from(bytes[0]), wanted.unwrap_or(0x5a), "{pair:?}");
}

/// The digits of a byte, as the table of digits in RFC 4648, section 8, has them, but in lower case.
fn compare_digits_of(rt: &impl Abort, byte: u8) {
    let table = b"0123456789abcdef";
    let mut digits = [b'?'; 2];
    write_digits(&[byte], &mut digits);
    same!(rt; digits[0], table[usize::from(byte / 16)], "{byte}");
    same!(rt; digits[1], table[usize::from(byte % 16)], "{byte}");
}

#[test]
fn each_character_is_a_digit_where_std_says_so_and_each_byte_has_two(rt: HostRuntime) {
    for character in 0..=255 {
        compare_digits_of(&rt, character);
        let value = char::from(character).to_digit(16);
        compare_pair(
            &rt,
            [character, b'0'],
            value.map(|value| value.min(15) * 16),
        );
        compare_pair(
            &rt,
            [b'F', character],
            value.map(|value| 240 + value.min(15)),
        );
    }
}

/// The examples of RFC 4648, section 10, and the same in lower case.
const EXAMPLES: [(&[u8], &[u8], &[u8]); 7] = [
    (b"", b"", b""),
    (b"f", b"66", b"66"),
    (b"fo", b"666F", b"666f"),
    (b"foo", b"666F6F", b"666f6f"),
    (b"foob", b"666F6F62", b"666f6f62"),
    (b"fooba", b"666F6F6261", b"666f6f6261"),
    (b"foobar", b"666F6F626172", b"666f6f626172"),
];

/// Compares the first bytes, as many as wanted, with those that digits are read as.
fn compare_read(rt: &impl Abort, digits: &[u8], wanted: &[u8]) {
    let mut room = [0; 6];
    let bytes = &mut room[..wanted.len().min(6)];
    holds!(rt; read_digits(digits, bytes), "{digits:?}");
    same!(rt; &*bytes, wanted, "{digits:?}");
}

/// Compares the digits that bytes are written as.
fn compare_written(rt: &impl Abort, bytes: &[u8], wanted: &[u8]) {
    let mut room = [b'?'; 12];
    if 2 * bytes.len() <= 12 {
        let digits = &mut room[..2 * bytes.len()];
        write_digits(bytes, digits);
        same!(rt; &*digits, wanted, "{bytes:?}");
    }
}

#[test]
fn digits_are_read_of_either_case_and_written_in_lower_case(rt: HostRuntime) {
    for (bytes, upper, lower) in EXAMPLES {
        compare_read(&rt, upper, bytes);
        compare_read(&rt, lower, bytes);
        compare_written(&rt, bytes, lower);
    }
    compare_read(&rt, b"aAbBfF", &[0xaa, 0xbb, 0xff]);
}

#[test]
fn what_is_refused_leaves_the_bytes(rt: HostRuntime) {
    for (digits, count) in [
        (&b""[..], 1),
        (b"0", 0),
        (b"0", 1),
        (b"00", 0),
        (b"00", 2),
        (b"000", 1),
        (b"0000", 1),
        (b"0g", 1),
        (b"g0", 1),
        (b"0x", 1),
        (b" 0", 1),
        (b"00 0", 2),
        (b"\xb00", 1),
    ] {
        let mut bytes = [1, 2, 3];
        holds!(rt;
            !read_digits(digits, &mut bytes[..count]),
            "{digits:?} into {count}"
        );
        same!(rt; bytes, [1, 2, 3], "{digits:?} into {count}");
    }
}
