//! How frames are to end, in words.
use frame_expectation::WantedEnding;
use frame_meaning::Reason;
use text_rules::rule_at;
use text_words::{Mistake, Word, Words, number_at_most, read_number};

/// The words for how frames are to end.
const WORDS: &[&str] = &["any", "leave", "drop", "gem"];

/// The number of the last reason to drop a frame.
const LAST_REASON: u16 = 9;

/// The reason of a number.
fn read_reason(word: Word<'_>) -> Result<Reason, Mistake<'_>> {
    let number = number_at_most(word, "a reason to drop a frame", LAST_REASON)?;
    let reason = Reason::of(u8::try_from(number).unwrap_or(0));
    match reason {
        None | Some(Reason::Runt) | Some(Reason::CutTag) => Err(rule_at(
            word.column,
            "a reason is 3 to 9: expectations speak of frames that can be read, which aren't dropped for another",
        )),
        Some(reason) => Ok(reason),
    }
}

/// `drop` or `drop REASON`, behind its first word.
fn read_drop<'a>(words: &mut Words<'a>) -> Result<WantedEnding, Mistake<'a>> {
    let mut ahead = *words;
    match ahead.next() {
        Some(word) if read_number(word.text).is_some() => {
            *words = ahead;
            Ok(WantedEnding::DroppedFor(read_reason(word)?))
        }
        _ => Ok(WantedEnding::Dropped),
    }
}

/// `gem PORT-ID`, behind its first word.
fn read_gem<'a>(words: &mut Words<'a>) -> Result<WantedEnding, Mistake<'a>> {
    let word = words.expect("the port-ID of a GEM port")?;
    Ok(WantedEnding::Gem(number_at_most(word, "a GEM port", u16::MAX)?))
}

/// How frames are to end, by the words that stand next, if these say it. Words of a treatment alone leave it open.
pub(crate) fn read_ending<'a>(words: &mut Words<'a>) -> Result<WantedEnding, Mistake<'a>> {
    let mut ahead = *words;
    let word = ahead.expect("any, leave, drop, gem, or a treatment")?;
    let Some(place) = word.place_in(WORDS) else {
        return Ok(WantedEnding::Any);
    };
    *words = ahead;
    match place {
        0 => Ok(WantedEnding::Any),
        1 => Ok(WantedEnding::Leave),
        2 => read_drop(words),
        _ => read_gem(words),
    }
}
