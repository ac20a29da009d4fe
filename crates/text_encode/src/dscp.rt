//! A DSCP to P-bit mapping in words.
use text_words::{Mistake, Why, Word, number_at_most};

/// The priority of each DSCP.
#[derive(Clone, Copy)]
struct Priorities {
    priorities: [u8; 64],
    /// How many DSCPs the range has that gives each, 0 where none does.
    spans: [u16; 64],
}

/// The DSCPs `N` or `N-M`, from the first to the last.
fn read_range(word: Word<'_>) -> Result<(u16, u16), Mistake<'_>> {
    let Some((first, last)) = word.split_at_byte(b'-') else {
        let only = number_at_most(word, "a DSCP", 63)?;
        return Ok((only, only));
    };
    let range = (
        number_at_most(first, "a DSCP", 63)?,
        number_at_most(last, "a DSCP", 63)?,
    );
    if range.0 > range.1 {
        return Err(word.mistake(Why::Unexpected {
            found: word.text,
            expected: "two DSCPs, the lower first",
        }));
    }
    Ok(range)
}

impl Priorities {
    /// Gives the DSCPs of `N:P` or `N-M:P` the priority, also those of a wider range before.
    fn take<'a>(&mut self, word: Word<'a>) -> Result<(), Mistake<'a>> {
        let Some((range, priority)) = word.split_at_byte(b':') else {
            return Err(word.mistake(Why::Unexpected {
                found: word.text,
                expected: "DSCP:PRIORITY or DSCP-DSCP:PRIORITY",
            }));
        };
        let (first, last) = read_range(range)?;
        let priority = number_at_most(priority, "a priority", 7)?;
        let width = last.saturating_sub(first).saturating_add(1);
        for dscp in usize::from(first)..usize::from(last) + 1 {
            let (Some(slot), Some(span)) = (self.priorities.get_mut(dscp), self.spans.get_mut(dscp))
            else {
                continue;
            };
            if *span != 0 && *span <= width {
                return Err(word.mistake(Why::Twice { found: word.text }));
            }
            *span = width;
            *slot = u8::try_from(priority).unwrap_or(0);
        }
        Ok(())
    }
}

/// The 24 bits of eight priorities, the first the highest.
fn bits_of(priorities: &[u8]) -> u32 {
    let mut bits = 0u32;
    for priority in priorities {
        bits = bits << 3 | u32::from(*priority & 7);
    }
    bits
}

/// The 24 bytes of 64 priorities, three bits each.
fn packed(priorities: &[u8; 64]) -> [u8; 24] {
    let mut bytes = [0; 24];
    for (group, part) in priorities.chunks(8).enumerate() {
        let bits = bits_of(part).to_be_bytes();
        for place in 0..3 {
            if let Some(byte) = bytes.get_mut(3 * group + place) {
                *byte = bits[place + 1];
            }
        }
    }
    bytes
}

/// The 24 bytes of a mapping in words: `46:5,8-15:1`. The DSCPs that it doesn't name have priority 0.
pub(crate) fn read_mapping(word: Word<'_>) -> Result<[u8; 24], Mistake<'_>> {
    let mut found = Priorities {
        priorities: [0; 64],
        spans: [0; 64],
    };
    let mut rest = word;
    for _ in 0..word.text.len() {
        let Some((first, behind)) = rest.split_at_byte(b',') else {
            break;
        };
        found.take(first)?;
        rest = behind;
    }
    found.take(rest)?;
    Ok(packed(&found.priorities))
}
