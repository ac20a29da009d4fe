//! A frame in words.
use crate::output::Output;
use arrayvec::ArrayVec;
use itoa::Buffer;
use std::alloc::AllocError;
use text_words::{Mistake, Why, Word, Words, number_at_most, put_digits, read_number, read_tpid};

/// The words of a frame.
const WORDS: &[&str] = &["dst", "src", "tag", "type", "dscp", "length", "payload"];

/// The words for types. The last is none, since it has blanks; it is said among those that are allowed.
const TYPES: &[&str] = &[
    "ipv4",
    "ipv6",
    "arp",
    "pppoe-discovery",
    "pppoe-session",
    "eapol",
    "a number as 0x0800",
];

/// Their numbers, in the same order.
const TYPE_NUMBERS: [u16; 6] = [IPV4, IPV6, 0x0806, 0x8863, 0x8864, 0x888e];

/// The type of IPv4 packets.
pub(crate) const IPV4: u16 = 0x0800;

/// The type of IPv6 packets.
pub(crate) const IPV6: u16 = 0x86dd;

/// The most bytes of a frame, for which a line of a script has room whatever its port.
const MOST: u16 = 9_990;

/// The address that a frame goes to where none is said.
const DESTINATION: [u8; 6] = [2, 0, 0, 0, 0, 1];

/// The address that a frame comes from where none is said.
const SOURCE: [u8; 6] = [2, 0, 0, 0, 0, 2];

/// What words say of a frame so far.
#[derive(Drop)]
struct FrameAsked<'a> {
    destination: Option<[u8; 6]>,
    source: Option<[u8; 6]>,
    /// The bytes of its tags, the outermost first.
    tags: ArrayVec<u8, 64>,
    ethertype: Option<u16>,
    dscp: Option<u8>,
    /// The column of the word that says the DSCP.
    dscp_at: usize,
    length: Option<u16>,
    /// The column of the length.
    length_at: usize,
    /// The digits of what stands behind the type.
    payload: Option<Word<'a>>,
}

/// The byte of two digits.
fn byte_of(word: Word<'_>) -> Option<u8> {
    match word.text {
        [high, low] => {
            let high = char::from(*high).to_digit(16)?;
            let low = char::from(*low).to_digit(16)?;
            u8::try_from(16 * high + low).ok()
        }
        _ => None,
    }
}

/// An address, six bytes with colons between them.
fn read_address(word: Word<'_>) -> Result<[u8; 6], Mistake<'_>> {
    let bad = word.mistake(Why::Unexpected {
        found: word.text,
        expected: "six bytes with colons between them, as in 02:00:00:00:00:01",
    });
    let mut address = [0; 6];
    let mut rest = word;
    for place in 0..5 {
        let (front, behind) = rest.split_at_byte(b':').ok_or(bad)?;
        address[place] = byte_of(front).ok_or(bad)?;
        rest = behind;
    }
    address[5] = byte_of(rest).ok_or(bad)?;
    Ok(address)
}

/// The four bytes of a tag `TPID:PRIORITY:DEI:VID`.
fn read_tag(word: Word<'_>) -> Result<[u8; 4], Mistake<'_>> {
    let bad = word.mistake(Why::Unexpected {
        found: word.text,
        expected: "TPID:PRIORITY:DEI:VID, as in 8100:5:0:100",
    });
    let (tpid, rest) = word.split_at_byte(b':').ok_or(bad)?;
    let (priority, rest) = rest.split_at_byte(b':').ok_or(bad)?;
    let (eligible, vid) = rest.split_at_byte(b':').ok_or(bad)?;
    let tpid = read_tpid(tpid)?;
    let priority = number_at_most(priority, "a priority", 7)?;
    let eligible = number_at_most(eligible, "a DEI", 1)?;
    let vid = number_at_most(vid, "a VID", 4095)?;
    let control = priority << 13 | eligible << 12 | vid;
    let ([a, b], [c, d]) = (tpid.to_be_bytes(), control.to_be_bytes());
    Ok([a, b, c, d])
}

/// A type, by its word or its number.
fn read_type(word: Word<'_>) -> Result<u16, Mistake<'_>> {
    if read_number(word.text).is_some() {
        return number_at_most(word, "a type", u16::MAX);
    }
    let place = word.one_of(TYPES)?;
    Ok(TYPE_NUMBERS.get(place).copied().unwrap_or(0))
}

/// The word for a type, or None where it has none.
pub(crate) fn type_word(ethertype: u16) -> Option<&'static str> {
    let place = TYPE_NUMBERS.iter().position(|number| *number == ethertype)?;
    TYPES.get(place).copied()
}

/// The two bytes with which a packet of a type begins that has this DSCP (RFC 2474, section 3), or None where the type has no DSCP.
pub(crate) fn begun_packet(ethertype: u16, dscp: u8) -> Option<[u8; 2]> {
    match ethertype {
        IPV4 => Some([0x45, dscp << 2]),
        IPV6 => Some([0x60 | dscp >> 2, dscp << 6]),
        _ => None,
    }
}

fn read_dscp(word: Word<'_>) -> Result<u8, Mistake<'_>> {
    let dscp = number_at_most(word, "a DSCP", 63)?;
    Ok(u8::try_from(dscp).unwrap_or(0))
}

impl<'a> FrameAsked<'a> {
    /// Takes `NAME=VALUE`.
    fn take(&mut self, word: Word<'a>) -> Result<(), Mistake<'a>> {
        let Some((name, value)) = word.split_value() else {
            return Err(word.no_such(WORDS));
        };
        match name.one_of(WORDS)? {
            0 => name.put_into(&mut self.destination, read_address(value)?),
            1 => name.put_into(&mut self.source, read_address(value)?),
            2 => self.take_tag(value),
            3 => name.put_into(&mut self.ethertype, read_type(value)?),
            4 => {
                self.dscp_at = name.column;
                name.put_into(&mut self.dscp, read_dscp(value)?)
            }
            5 => {
                self.length_at = value.column;
                let length = number_at_most(value, "the length of a frame", MOST)?;
                name.put_into(&mut self.length, length)
            }
            _ => name.put_into(&mut self.payload, value),
        }
    }

    /// Takes a tag, behind those before it.
    fn take_tag(&mut self, value: Word<'a>) -> Result<(), Mistake<'a>> {
        let tag = read_tag(value)?;
        match self.tags.try_extend_from_slice(&tag) {
            Ok(()) => Ok(()),
            Err(_) => Err(value.mistake(Why::Rule {
                words: "a frame in words has at most 16 tags",
            })),
        }
    }

    /// What goes against a rule in what it says of the DSCP.
    fn bad_dscp(&self, words: &'static str) -> Mistake<'a> {
        Mistake {
            column: self.dscp_at,
            why: Why::Rule { words },
        }
    }

    /// The two bytes of its DSCP, behind the type, if it says one.
    fn packet(&self, ethertype: u16) -> Result<Option<[u8; 2]>, Mistake<'a>> {
        let Some(dscp) = self.dscp else {
            return Ok(None);
        };
        if self.payload.is_some() {
            return Err(self.bad_dscp(
                "the payload says the DSCP itself, so dscp doesn't stand beside it",
            ));
        }
        match begun_packet(ethertype, dscp) {
            Some(bytes) => Ok(Some(bytes)),
            None => Err(self.bad_dscp("only a frame of type ipv4 or ipv6 has a DSCP")),
        }
    }
}

/// The port of a frame, which stands next.
pub(crate) fn read_port_word(
    words: &mut Words<'_>,
    output: &mut Output,
) -> Result<Option<u16>, AllocError> {
    let Some(word) = output.mistakes.take(words.expect("the number of a port"))? else {
        return Ok(None);
    };
    output
        .mistakes
        .take(number_at_most(word, "a port", u16::MAX))
}

/// Puts the digits of the payload, if there is one, or the mistake in them.
fn put_payload(payload: Option<Word<'_>>, output: &mut Output) -> Result<(), AllocError> {
    let Some(payload) = payload else {
        return Ok(());
    };
    match put_digits(Words::within(payload), &mut output.script)? {
        Some(mistake) => output.mistakes.put(&mistake),
        None => Ok(()),
    }
}

/// Puts the zeros of a frame whose bytes begin at a place of the script, up to its length.
fn put_zeros(asked: &FrameAsked<'_>, begin: usize, output: &mut Output) -> Result<(), AllocError> {
    let found = output.script.len().saturating_sub(begin) / 2;
    let Some(length) = asked.length.map(usize::from) else {
        return Ok(());
    };
    if found > length {
        return output.mistakes.put(&Mistake {
            column: asked.length_at,
            why: Why::Count {
                found,
                unit: "bytes in what is said of the frame",
                expected: "no more than its length",
            },
        });
    }
    for _ in found..length {
        output.script.extend_from_slice(b"00")?;
    }
    Ok(())
}

/// Puts what words say of a frame, behind its port. The line ends in front of the column `end`.
fn put_asked(end: usize, asked: &FrameAsked<'_>, output: &mut Output) -> Result<(), AllocError> {
    let Some(ethertype) = asked.ethertype else {
        return output.mistakes.put(&Mistake {
            column: end,
            why: Why::Missing { expected: "type=" },
        });
    };
    let packet = output.mistakes.take(asked.packet(ethertype))?.flatten();
    let begin = output.script.len();
    output.put_bytes(&asked.destination.unwrap_or(DESTINATION))?;
    output.put_bytes(&asked.source.unwrap_or(SOURCE))?;
    output.put_bytes(&asked.tags)?;
    output.put_bytes(&ethertype.to_be_bytes())?;
    if let Some(bytes) = packet {
        output.put_bytes(&bytes)?;
    }
    put_payload(asked.payload, output)?;
    put_zeros(asked, begin, output)
}

/// Puts the front of the line of a frame, up to its bytes.
pub(crate) fn put_front(port: u16, output: &mut Output) -> Result<(), AllocError> {
    let mut digits = Buffer::new();
    output.script.extend_from_slice(b"f ")?;
    output
        .script
        .extend_from_slice(digits.format(port).as_bytes())?;
    output.script.push(b' ')?;
    Ok(())
}

/// `frame PORT NAME=VALUE ..`, behind its first word.
pub(crate) fn put_frame<'a>(words: Words<'a>, output: &mut Output) -> Result<(), AllocError> {
    let mut words = words;
    let Some(port) = read_port_word(&mut words, output)? else {
        return Ok(());
    };
    let mut asked = FrameAsked {
        destination: None,
        source: None,
        tags: ArrayVec::new(),
        ethertype: None,
        dscp: None,
        dscp_at: 0,
        length: None,
        length_at: 0,
        payload: None,
    };
    for word in words {
        let taken = asked.take(word);
        output.mistakes.take(taken)?;
    }
    if !output.mistakes.is_clean() {
        return Ok(());
    }
    put_front(port, output)?;
    put_asked(words.end(), &asked, output)
}
