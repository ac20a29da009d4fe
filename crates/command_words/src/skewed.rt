//! By how much the clock of a capture deviates.

/// A file, and what is added to its times.
#[derive(Clone, Copy)]
pub struct SkewedFile<'a> {
    /// The name of the file.
    pub file: &'a str,
    /// What is added, in nanoseconds.
    pub nanoseconds: i64,
}

/// Whether a text is decimal digits, at least one.
fn is_decimal(text: &str) -> bool {
    !text.is_empty() && text.as_bytes().iter().all(|byte| byte.is_ascii_digit())
}

/// How many nanoseconds the last digit behind the point of a number of milliseconds counts, where there are so many of them.
fn unit_of(digits: usize) -> Option<i64> {
    match digits {
        1 => Some(100_000),
        2 => Some(10_000),
        3 => Some(1_000),
        4 => Some(100),
        5 => Some(10),
        6 => Some(1),
        _ => None,
    }
}

/// The nanoseconds that the digits behind the point of a number of milliseconds are: one to six.
fn read_part(text: &str) -> Option<i64> {
    if !is_decimal(text) {
        return None;
    }
    let unit = unit_of(text.len())?;
    let digits: u32 = text.parse().ok()?;
    Some(i64::from(digits).saturating_mul(unit))
}

/// The nanoseconds that a number of milliseconds without a sign is: digits of a number of 32 bits, and behind a point at most six more.
fn read_milliseconds(text: &str) -> Option<i64> {
    let (whole, part) = text.split_once('.').unwrap_or((text, "0"));
    if !is_decimal(whole) {
        return None;
    }
    let milliseconds: u32 = whole.parse().ok()?;
    let behind = read_part(part)?;
    Some(
        i64::from(milliseconds)
            .saturating_mul(1_000_000)
            .saturating_add(behind),
    )
}

/// The same, behind a sign or none.
fn read_signed(text: &str) -> Option<i64> {
    match text.strip_prefix('-') {
        Some(digits) => Some(0i64.saturating_sub(read_milliseconds(digits)?)),
        None => read_milliseconds(text.strip_prefix('+').unwrap_or(text)),
    }
}

/// The file and the milliseconds that a text names, as `gem.pcap=-3.1`: the name of a file, which isn't empty, in front of the last `=`, and
/// behind that a decimal number with a sign or none, of at most six digits behind the point, whose front is one of 32 bits. None where it
/// names none.
pub fn read_skewed<'a>(text: &'a str) -> Option<SkewedFile<'a>> {
    let (file, number) = text.rsplit_once('=')?;
    if file.is_empty() {
        return None;
    }
    Some(SkewedFile {
        file,
        nanoseconds: read_signed(number)?,
    })
}
