//! Texts of values that say more than one thing.
ghost use Rattle.std.specs.Prelude.{◌≡◌, ◌≢◌, ◌≤◌, [], IfNone, IfSome};
ghost use Rattle.command_words.specs.Numbered.{IsLeftByInRange, IsLeftFile, IsNumberedFile};
ghost use Rattle.command_words.specs.declared.numbered.LeftFile.{LeftFile};
ghost use Rattle.command_words.specs.declared.numbered.NumberedFile.{NumberedFile};

/// The number of a port, and the file with its frames.
#[derive(Clone, Copy)]
pub struct NumberedFile<'a> {
    /// The number of the port or GEM port.
    pub number: u16,
    /// The name of the file.
    pub file: &'a str,
}

/// The number and the file that a text names, as `257=up.pcap`: a number of 16 bits in decimal digits in front of the first `=`, and
/// behind that the name of a file, which isn't empty. None where it doesn't.
pub fn read_numbered<'a>(text: &'a str) -> Option<NumberedFile<'a>>
    ensures some { IfSome result (IsNumberedFile text.now) }
    ensures none { IfNone result ((words : NumberedFile) → IsNumberedFile text.now words
        → words.number ≤ 65535 → ⊥) }
{
    let (digits, file) = text.split_once('=')?;
    if file.is_empty() {
        return None;
    }
    match digits.parse() {
        Ok(number) => Some(NumberedFile { number, file }),
        Err(_) => None,
    }
}

/// How the GEM port is known by which the frames of a capture left.
#[derive(Clone, Copy)]
pub enum LeftBy {
    /// It is this one.
    Gem(u16),
    /// The capture doesn't show it.
    Any,
    /// The interface of each record is named for it.
    Interface,
}

/// A file with frames that left, and how their GEM ports are known.
#[derive(Clone, Copy)]
pub struct LeftFile<'a> {
    /// How the GEM ports are known.
    pub by: LeftBy,
    /// The name of the file.
    pub file: &'a str,
}

/// A file of frames that left, if it has a name.
fn left_by<'a>(by: LeftBy, name: &'a str) -> Option<LeftFile<'a>>
    ensures some { IfSome result (λ words. (words ≡ record { by = by; file = name.entry })
        × (name.entry.now ≢ [])) }
    ensures none { IfNone result (name.entry.now ≡ []) }
{
    if name.is_empty() {
        return None;
    }
    Some(LeftFile { by, file: name })
}

/// The capture of frames that left which a text names: `1024=gem.pcap` with the number of the GEM port, `any=out.pcap` where it isn't seen, or
/// `left.pcapng`, without an equals sign, where the interfaces are named for it. None where it names none.
pub fn read_left<'a>(text: &'a str) -> Option<LeftFile<'a>>
    ensures some { IfSome result (IsLeftFile text.now) }
    ensures none { IfNone result ((words : LeftFile) → IsLeftFile text.now words
        → IsLeftByInRange words.by → ⊥) }
{
    let Some((front, file)) = text.split_once('=') else {
        return left_by(LeftBy::Interface, text);
    };
    if front == "any" {
        return left_by(LeftBy::Any, file);
    }
    let numbered = read_numbered(text)?;
    Some(LeftFile {
        by: LeftBy::Gem(numbered.number),
        file: numbered.file,
    })
}

/// The type of a tag in hexadecimal digits, with or without `0x` before them, as `9100`. None where it is none of 16 bits.
pub fn read_tpid(text: &str) -> Option<u16> {
    let digits = text.strip_prefix("0x").unwrap_or(text);
    u16::from_str_radix(digits, 16).ok()
}
