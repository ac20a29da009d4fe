//! How a filter and a treatment take their words, one by one.
use std::alloc::AllocError;
use text_words::{Mistake, Mistakes, Why, Word};

/// What goes against a rule at a column.
pub fn rule_at<'a>(column: usize, words: &'static str) -> Mistake<'a> {
    Mistake {
        column,
        why: Why::Rule { words },
    }
}

/// That a word doesn't stand there, whose column is given if it does.
pub fn check_alone<'a>(column: Option<usize>, words: &'static str) -> Result<(), Mistake<'a>> {
    match column {
        Some(column) => Err(rule_at(column, words)),
        None => Ok(()),
    }
}

/// What words ask, of which some stand in the parentheses of `outer(..)` or `inner(..)`.
pub trait Asked {
    /// What the words in parentheses ask of a tag.
    type Tag: Copy;

    /// Takes a word that is no group.
    fn take_own<'a>(&mut self, word: Word<'a>) -> Result<(), Mistake<'a>>;

    /// What the words in parentheses ask.
    fn read_tag(inside: Word<'_>, mistakes: &mut Mistakes) -> Result<Self::Tag, AllocError>;

    /// Puts what is asked of the tag of this name.
    fn put_tag<'a>(&mut self, name: Word<'a>, tag: Self::Tag) -> Result<(), Mistake<'a>>;
}

/// Takes a word of a filter or a treatment, or `outer(..)` or `inner(..)`, and the mistakes in it.
pub fn take_word<A: Asked>(
    asked: &mut A,
    word: Word<'_>,
    mistakes: &mut Mistakes,
) -> Result<(), AllocError> {
    match word.split_group() {
        Some((name, inside)) => take_group(asked, name, inside, mistakes),
        None => {
            let taken = asked.take_own(word);
            mistakes.take(taken)?;
            Ok(())
        }
    }
}

/// Takes `outer(..)` or `inner(..)`, or the mistake in its parentheses.
fn take_group<'a, A: Asked>(
    asked: &mut A,
    name: Word<'a>,
    inside: Result<Word<'a>, Mistake<'a>>,
    mistakes: &mut Mistakes,
) -> Result<(), AllocError> {
    let Some(inside) = mistakes.take(inside)? else {
        return Ok(());
    };
    let tag = A::read_tag(inside, mistakes)?;
    let taken = asked.put_tag(name, tag);
    mistakes.take(taken)?;
    Ok(())
}
