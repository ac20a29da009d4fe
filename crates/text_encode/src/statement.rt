//! What a line says, by its first word.
use script_lines::first_line;
use text_words::{Mistake, Word, Words, without_mark};

/// What a line says, by its first word.
#[derive(Clone, Copy)]
pub(crate) enum Statement {
    Create,
    Delete,
    Set,
    Get,
    GetNext,
    Upload,
    UploadNext,
    Reset,
    Entry,
    RemoveEntry,
    Frame,
    /// `o HEX`
    Message,
    /// `f PORT HEX`
    FrameBytes,
    /// `raw HEX`
    Raw,
}

/// The words with which a line may begin.
const FIRST_WORDS: &[&str] = &[
    "create",
    "delete",
    "set",
    "get",
    "get-next",
    "upload",
    "upload-next",
    "reset",
    "entry",
    "remove-entry",
    "frame",
    "o",
    "f",
    "raw",
];

/// What they say, in the same order.
const STATEMENTS: [Statement; 14] = [
    Statement::Create,
    Statement::Delete,
    Statement::Set,
    Statement::Get,
    Statement::GetNext,
    Statement::Upload,
    Statement::UploadNext,
    Statement::Reset,
    Statement::Entry,
    Statement::RemoveEntry,
    Statement::Frame,
    Statement::Message,
    Statement::FrameBytes,
    Statement::Raw,
];

/// The words of them with which a line of a script begins too.
const IN_DIGITS: &[&str] = &["o", "f"];

/// Whether a text is in words, by the first word that isn't in a remark: one of those with which a line may begin, but none with which
/// a line of a script does.
pub fn is_in_words(text: &[u8]) -> bool {
    let mut rest = without_mark(text);
    for _ in 0..text.len() {
        if rest.is_empty() {
            break;
        }
        let (line, behind) = first_line(rest);
        let content = line.strip_suffix(b"\r").unwrap_or(line);
        if let Some(word) = Words::of(content).next() {
            return word.place_in(FIRST_WORDS).is_some() && word.place_in(IN_DIGITS).is_none();
        }
        rest = behind;
    }
    false
}

impl Statement {
    /// What a line says that begins with this word.
    pub(crate) fn of(word: Word<'_>) -> Result<Statement, Mistake<'_>> {
        let place = word.one_of(FIRST_WORDS)?;
        Ok(STATEMENTS.get(place).copied().unwrap_or(Statement::Raw))
    }
}
