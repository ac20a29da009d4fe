//! The expectation that a line says.
use crate::ending::read_ending;
use crate::filter::FilterAsked;
use crate::treating::TreatmentAsked;
use frame_expectation::{Expectation, FrameFilter, WantedEnding, WantedTreatment};
use std::alloc::AllocError;
use text_rules::{rule_at, take_word};
use text_words::{Mistakes, Word, Words, number_at_most};

/// What is to become of frames.
#[derive(Clone, Copy)]
struct Wanted {
    ending: WantedEnding,
    treatment: WantedTreatment,
}

/// Takes the words of a filter, up to the arrow, whose column is given, or None where there is none: then all words are taken.
fn take_filter(
    words: &mut Words<'_>,
    filter: &mut FilterAsked,
    mistakes: &mut Mistakes,
) -> Result<Option<usize>, AllocError> {
    let all = *words;
    for word in all {
        let _ = words.next();
        if word.is("->") {
            return Ok(Some(word.column));
        }
        take_word(filter, word, mistakes)?;
    }
    Ok(None)
}

/// The filter that words asked for, which end in front of a column; or None where it has a mistake, which is added, or where one of them had, as
/// the number of mistakes before them shows.
fn whole_filter(
    asked: &FilterAsked,
    end: usize,
    before: u64,
    mistakes: &mut Mistakes,
) -> Result<Option<FrameFilter>, AllocError> {
    if mistakes.count() > before {
        return Ok(None);
    }
    mistakes.take(asked.filter(end))
}

/// What is to become of frames, by the words behind the arrow; or None where they have a mistake, which is added.
fn read_wanted(words: Words<'_>, mistakes: &mut Mistakes) -> Result<Option<Wanted>, AllocError> {
    let (mut words, mut asked) = (words, TreatmentAsked::NEW);
    let before = mistakes.count();
    let ending = mistakes.take(read_ending(&mut words))?;
    for word in words {
        take_word(&mut asked, word, mistakes)?;
    }
    let Some(ending) = ending else {
        return Ok(None);
    };
    if mistakes.count() > before {
        return Ok(None);
    }
    let treatment = mistakes.take(asked.treatment(ending))?;
    Ok(treatment.map(|treatment| Wanted { ending, treatment }))
}

/// The expectation that a line says, of which these words stand behind its first, or None where it has mistakes, which are added.
pub(crate) fn read_line(
    first: Word<'_>,
    words: Words<'_>,
    mistakes: &mut Mistakes,
) -> Result<Option<Expectation>, AllocError> {
    let (mut words, mut asked) = (words, FilterAsked::NEW);
    let port = mistakes.take(number_at_most(first, "a port", u16::MAX))?;
    let before = mistakes.count();
    let Some(end) = take_filter(&mut words, &mut asked, mistakes)? else {
        mistakes.put(&rule_at(
            words.end(),
            "behind the filter stand -> and how its frames end: any, leave, drop or gem",
        ))?;
        return Ok(None);
    };
    let filter = whole_filter(&asked, end, before, mistakes)?;
    let wanted = read_wanted(words, mistakes)?;
    let (Some(port), Some(filter), Some(wanted)) = (port, filter, wanted) else {
        return Ok(None);
    };
    Ok(Some(Expectation {
        port,
        filter,
        ending: wanted.ending,
        treatment: wanted.treatment,
    }))
}
