//! The word that may have been meant.
use crate::choices::Choices;
use std::alloc::{AllocError, Global};
use strsim::osa_distance;

/// The most words that are compared.
const MOST_CHOICES: usize = 64;

/// How many letters of a word of so many may be wrong where it is still near.
fn most_edits(length: usize) -> usize {
    match length {
        0..=2 => 0,
        3..=4 => 1,
        _ => 2,
    }
}

/// The word of fewest edits, if one is near: of up to four letters one may differ, of more two. The first of several.
pub(crate) fn nearest(
    alloc: Global,
    found: &[u8],
    choices: Choices,
) -> Result<Option<&'static str>, AllocError> {
    let Ok(found) = str::from_utf8(found) else {
        return Ok(None);
    };
    let mut least = most_edits(found.len());
    let mut near = None;
    for place in 0..MOST_CHOICES {
        let Some(word) = choices.get(place) else {
            break;
        };
        let edits = osa_distance(alloc, found, word)?;
        if edits < least || edits == least && near.is_none() {
            least = edits;
            near = Some(word);
        }
    }
    Ok(near)
}
