//! The words of a command line in other forms than its grammar has them: a port in hexadecimal digits, and the files that a command reads
//! behind an option.
use std::alloc::{AllocError, Global};

/// The options with a number that may be hexadecimal.
const NUMBERED: &[&str] = &["--port", "--id"];

/// The option of a trace.
const TRACE: &str = "--trace";

/// The commands whose files stand without an option, and the option that each may have.
const OVER_FILES: &[(&str, &str)] = &[
    ("replay", "--script"),
    ("decode", "--script"),
    ("encode", "--text"),
    ("judge", "--history"),
    ("mib", TRACE),
    ("rules", TRACE),
    ("explain", TRACE),
    ("forward", TRACE),
    ("run", TRACE),
    ("lint", TRACE),
    ("graph", TRACE),
    ("cover", TRACE),
    ("diff", TRACE),
    ("hitless", TRACE),
    ("expect", TRACE),
    ("migrate", TRACE),
];

/// What becomes of a word.
#[derive(Drop)]
enum Form {
    /// It stands as it is.
    Same,
    /// The grammar has this in its place.
    Usual(String),
    /// The grammar has nothing in its place.
    Nothing,
}

/// The text `FRONT` and `REST` joined.
fn joined(alloc: Global, front: &str, rest: &str) -> Result<Form, AllocError> {
    let mut text = String::new(alloc);
    text.push_str(front)?;
    text.push_str(rest)?;
    Ok(Form::Usual(text))
}

/// The number that `0x` and hexadecimal digits spell, or None where a word is something else.
fn hexadecimal(word: &str) -> Option<u32> {
    let digits = word.strip_prefix("0x")?;
    if digits
        .as_bytes()
        .iter()
        .all(|byte| byte.is_ascii_hexdigit())
    {
        u32::from_str_radix(digits, 16).ok()
    } else {
        None
    }
}

/// A number, with this in front, where it is hexadecimal.
fn number_form(alloc: Global, front: &str, value: &str) -> Result<Form, AllocError> {
    let Some(number) = hexadecimal(value) else {
        return Ok(Form::Same);
    };
    let mut text = String::new(alloc);
    write!(text, "{front}{number}")?;
    Ok(Form::Usual(text))
}

/// A number behind an equals sign.
fn given_number(alloc: Global, word: &str) -> Result<Form, AllocError> {
    for option in NUMBERED {
        if let Some(rest) = word.strip_prefix(option)
            && let Some(value) = rest.strip_prefix("=")
            && hexadecimal(value).is_some()
        {
            let mut front = String::new(alloc);
            write!(front, "{option}=")?;
            return number_form(alloc, front.as_str(), value);
        }
    }
    Ok(Form::Same)
}

/// Whether a word is this one.
fn is_word(word: &str, wanted: &str) -> bool {
    word == wanted
}

/// A file without its option. One that begins with a hyphen, as an option does, gets its folder in front.
fn file_alone(alloc: Global, file: &str) -> Result<Form, AllocError> {
    let is_option = file.starts_with('-') && !is_word(file, "-");
    joined(alloc, if is_option { "./" } else { "" }, file)
}

/// A file behind the option that it may have, where its command has it without.
fn file_form(alloc: Global, command: &str, word: &str) -> Result<Form, AllocError> {
    for (name, option) in OVER_FILES {
        if *name != command {
            continue;
        }
        if is_word(word, option) {
            return Ok(Form::Nothing);
        }
        if let Some((given, file)) = word.split_once("=")
            && is_word(given, option)
        {
            return file_alone(alloc, file);
        }
    }
    Ok(Form::Same)
}

/// What the grammar has in place of a word of a command, which stands behind another.
fn form_of(alloc: Global, command: &str, before: &str, word: &str) -> Result<Form, AllocError> {
    if NUMBERED.contains(&before) {
        return number_form(alloc, "", word);
    }
    match given_number(alloc, word)? {
        Form::Same => file_form(alloc, command, word),
        form => Ok(form),
    }
}

/// How many words are in front of those of a command: the program's name and the command's.
const IN_FRONT: usize = 2;

/// Whether a word is the option of a trace, alone or with its value.
fn names_trace(word: &str) -> bool {
    word.strip_prefix(TRACE)
        .is_some_and(|rest| rest.is_empty() || rest.starts_with('='))
}

/// Splits words behind the option of a trace that they begin with, if they do, and its value.
fn split_trace(words: &[String]) -> (&[String], &[String]) {
    let count = match words.first() {
        Some(word) if is_word(word.as_str(), TRACE) => 2,
        Some(word) if names_trace(word.as_str()) => 1,
        _ => 0,
    };
    words.split_at(words.len().min(count))
}

/// Adds words, lent.
fn lend<'w>(lent: &mut Vec<&'w str>, words: &'w [String]) -> Result<(), AllocError> {
    for word in words {
        lent.push(word.as_str())?;
    }
    Ok(())
}

/// The commands behind whose trace another word may stand without an option.
const BEHIND_TRACE: &[&str] = &["explain", "expect"];

/// The words in the order of the grammar: of `explain` the trace that an option names stands in front of the frame, of `expect` in front of the
/// file.
fn ordered<'w>(alloc: Global, words: &'w [String]) -> Result<Vec<&'w str>, AllocError> {
    let (front, given) = words.split_at(words.len().min(IN_FRONT));
    let named = match front.get(1) {
        Some(command) if BEHIND_TRACE.contains(&command.as_str()) => {
            given.iter().position(|word| names_trace(word.as_str()))
        }
        _ => None,
    };
    let (before, from) = given.split_at(named.unwrap_or(0).min(given.len()));
    let (trace, behind) = split_trace(from);
    let mut lent = Vec::with_capacity(alloc, words.len())?;
    lend(&mut lent, front)?;
    lend(&mut lent, trace)?;
    lend(&mut lent, before)?;
    lend(&mut lent, behind)?;
    Ok(lent)
}

/// The words of a command line, the program's name first, as the grammar has them: a port or an identifier is decimal, and the files of
/// a command stand without an option.
pub fn usual_words(alloc: Global, words: &[String]) -> Result<Vec<String>, AllocError> {
    let ordered = ordered(alloc, words)?;
    let mut usual = Vec::new(alloc);
    let command = ordered.get(1).map_or("", |word| *word);
    let mut before = "";
    for (place, text) in ordered.iter().enumerate() {
        let form = if place < IN_FRONT {
            Form::Same
        } else {
            form_of(alloc, command, before, text)?
        };
        match form {
            Form::Same => {
                let mut same = String::new(alloc);
                same.push_str(text)?;
                usual.push(same)?;
            }
            Form::Usual(other) => usual.push(other)?,
            Form::Nothing => {}
        }
        before = text;
    }
    Ok(usual)
}
