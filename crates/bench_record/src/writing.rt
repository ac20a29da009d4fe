//! A history as a text.
ghost use Rattle.std.specs.Prelude.{◌≡◌, ◌≤◌, ◌++◌, ◌-◌, ◌∷◌, [], OnErr, OnOk, Some, codes, length, map, replicate, slice_index_or};
ghost use Rattle.std.specs.Fmt.{decimal};
ghost use Rattle.std.specs.Io.KnownBytes.{Appends};
ghost use Rattle.hex.specs.Hex.{encode_lower};
ghost use Rattle.std.specs.List.{flat_map};
ghost use Rattle.bench_record.specs.Text.{bytes_of, dots_of, event_shown, gem_of, head_of, line_of, lines_of, names_of, numbers_of, remark_of, remarks_of, seconds, tail_of, text_of, timed_shown};
ghost use Rattle.text_writing.specs.Written.{AppendsPart};

use crate::captured::Source;
use crate::event::{RecordedEvent, TimedEvent};
use arrayvec::ArrayVec;
use bench_history::{Extent, SeenGem};
use itoa::Buffer;
use script_digits::write_digits;
use std::io::Write;
use text_writing::{WriteFault, write_whole};

/// What stands in front of the digits: at most `g 4294967295 65535 `.
type Head = ArrayVec<u8, 32>;

/// How many bytes have their digits written at once.
const PIECE: usize = 256;

/// A letter, and a number behind it.
fn numbered(letter: u8, number: u32) -> Head
    ensures text { result.items ≡ letter ∷ 32 ∷ decimal number }
    ensures short { length result.items ≤ 12 }
{
    let mut head = ArrayVec::new();
    let mut digits = Buffer::new();
    let _ = head.try_extend_from_slice(&[letter, b' ']);
    let _ = head.try_extend_from_slice(digits.format(number).as_bytes());
    head
}

/// The head of a frame that was sent into a port.
fn entered_head(port: u16) -> Head
    ensures { result.items ≡ codes "f " ++ decimal port ++ 32 ∷ [] }
{
    let mut head = ArrayVec::new();
    let mut digits = Buffer::new();
    let _ = head.try_extend_from_slice(b"f ");
    let _ = head.try_extend_from_slice(digits.format(port).as_bytes());
    let _ = head.try_extend_from_slice(b" ");
    head
}

/// A GEM port, if it was seen.
fn gem_word(gem: SeenGem) -> Head
    ensures text { result.items ≡ gem_of gem }
    ensures short { length result.items ≤ 5 }
{
    let mut word = ArrayVec::new();
    match gem {
        SeenGem::Port(gem) => {
            let mut digits = Buffer::new();
            let _ = word.try_extend_from_slice(digits.format(gem).as_bytes());
        }
        SeenGem::Any => {
            let _ = word.try_extend_from_slice(b"any");
        }
    }
    word
}

/// A letter, and behind it a GEM port, if it was seen.
fn gem_head(letter: u8, gem: SeenGem) -> Head
    ensures { result.items ≡ letter ∷ 32 ∷ gem_of gem ++ 32 ∷ [] }
{
    let mut head = ArrayVec::new();
    let _ = head.try_extend_from_slice(&[letter, b' ']);
    let _ = head.try_extend_from_slice(&gem_word(gem));
    let _ = head.try_extend_from_slice(b" ");
    head
}

/// The head of a frame of a number that left.
fn left_head(number: u32, gem: SeenGem) -> Head
    ensures { result.items
        ≡ codes "g " ++ decimal number ++ 32 ∷ [] ++ gem_of gem ++ 32 ∷ [] }
{
    let mut head = numbered(b'g', number);
    let _ = head.try_extend_from_slice(b" ");
    let _ = head.try_extend_from_slice(&gem_word(gem));
    let _ = head.try_extend_from_slice(b" ");
    head
}

/// A head without numbers.
fn plain_head(text: [u8; 2]) -> Head
    ensures { result.items ≡ text }
{
    let mut head = ArrayVec::new();
    let _ = head.try_extend_from_slice(&text);
    head
}

/// What stands in front of the digits of an event's line.
fn head_of(event: &RecordedEvent<'_>) -> Head
    ensures { result.items ≡ head_of (event_shown event.now) }
{
    match event {
        RecordedEvent::Sent { .. } => plain_head(*b"o "),
        RecordedEvent::Replied { .. } => plain_head(*b"r "),
        RecordedEvent::Entered { port, .. } => entered_head(*port),
        RecordedEvent::Left { gem, number, .. } => left_head(*number, *gem),
        RecordedEvent::LeftOneOf { gem, .. } => gem_head(b'a', *gem),
        RecordedEvent::Strayed { gem, .. } => gem_head(b's', *gem),
        RecordedEvent::Lost { number } => numbered(b'l', *number),
        RecordedEvent::Waited { replies } => numbered(b'w', *replies),
    }
}

/// The bytes that a line spells.
fn bytes_of<'a>(event: &RecordedEvent<'a>) -> &'a [u8]
    ensures { result.now ≡ bytes_of (event_shown event.now) }
{
    match event {
        RecordedEvent::Sent { message } => message,
        RecordedEvent::Replied { reply } => reply,
        RecordedEvent::Entered { frame, .. }
        | RecordedEvent::Left { frame, .. }
        | RecordedEvent::LeftOneOf { frame, .. }
        | RecordedEvent::Strayed { frame, .. } => frame,
        RecordedEvent::Lost { .. } | RecordedEvent::Waited { .. } => &[],
    }
}

/// What stands behind the digits of a frame: two dots where it had more bytes.
fn dots_of(event: &RecordedEvent<'_>) -> &'static [u8]
    ensures { result.now ≡ dots_of (event_shown event.now) }
{
    match event {
        RecordedEvent::Entered {
            extent: Extent::Front,
            ..
        }
        | RecordedEvent::Left {
            extent: Extent::Front,
            ..
        }
        | RecordedEvent::LeftOneOf {
            extent: Extent::Front,
            ..
        }
        | RecordedEvent::Strayed {
            extent: Extent::Front,
            ..
        } => b"..",
        _ => b"",
    }
}

/// Writes one text and then another.
fn write_both<W: Write>(writer: &mut W, first: &[u8], second: &[u8]) -> Result<(), WriteFault>
    ensures ok { OnOk result
        (Appends (W.contents writer.old) (W.contents writer.new) (first.now ++ second.now)) }
    ensures err { OnErr result
        (AppendsPart (W.contents writer.old) (W.contents writer.new) (first.now ++ second.now)) }
{
    write_whole(writer, first)?;
    write_whole(writer, second)
}

/// Writes the number of a frame behind a space.
fn write_number<W: Write>(writer: &mut W, number: u32) -> Result<(), WriteFault>
    ensures ok { OnOk result
        (Appends (W.contents writer.old) (W.contents writer.new) (32 ∷ decimal number)) }
    ensures err { OnErr result
        (AppendsPart (W.contents writer.old) (W.contents writer.new) (32 ∷ decimal number)) }
{
    let mut digits = Buffer::new();
    write_both(writer, b" ", digits.format(number).as_bytes())
}

/// Writes the numbers of frames, each behind a space.
fn write_numbers<W: Write>(writer: &mut W, numbers: &[u32]) -> Result<(), WriteFault>
    ensures ok { OnOk result (Appends (W.contents writer.old) (W.contents writer.new)
        (flat_map (λ n. 32 ∷ decimal n) numbers.now)) }
    ensures err { OnErr result (AppendsPart (W.contents writer.old) (W.contents writer.new)
        (flat_map (λ n. 32 ∷ decimal n) numbers.now)) }
{
    for number in numbers {
        write_number(writer, *number)?;
    }
    Ok(())
}

/// The numbers of the frames of which one left.
fn numbers_of<'e>(event: &'e RecordedEvent<'_>) -> &'e [u32]
    ensures { flat_map (λ n. 32 ∷ decimal n) result.now ≡ numbers_of (event_shown event.now) }
{
    match event {
        RecordedEvent::LeftOneOf { numbers, .. } => numbers,
        _ => &[],
    }
}

/// Writes what stands behind the digits of an event's line.
fn write_tail<W: Write>(writer: &mut W, event: &RecordedEvent<'_>) -> Result<(), WriteFault>
    ensures ok { OnOk result (Appends (W.contents writer.old) (W.contents writer.new)
        (tail_of (event_shown event.now))) }
    ensures err { OnErr result (AppendsPart (W.contents writer.old) (W.contents writer.new)
        (tail_of (event_shown event.now))) }
{
    write_whole(writer, dots_of(event))?;
    write_numbers(writer, numbers_of(event))
}

/// Writes the digits of a piece of bytes.
fn write_piece<W: Write>(writer: &mut W, bytes: &[u8]) -> Result<(), WriteFault>
    requires { length bytes.now ≤ 256 }
    ensures ok { OnOk result
        (Appends (W.contents writer.old) (W.contents writer.new) (encode_lower bytes.now)) }
    ensures err { OnErr result
        (AppendsPart (W.contents writer.old) (W.contents writer.new) (encode_lower bytes.now)) }
{
    let mut room = [0; 2 * PIECE];
    let digits = &mut room[..2 * bytes.len()];
    write_digits(bytes, digits);
    write_whole(writer, digits)
}

/// Writes the digits of bytes, piece by piece.
fn write_bytes<W: Write>(writer: &mut W, bytes: &[u8]) -> Result<(), WriteFault>
    ensures ok { OnOk result
        (Appends (W.contents writer.old) (W.contents writer.new) (encode_lower bytes.now)) }
    ensures err { OnErr result
        (AppendsPart (W.contents writer.old) (W.contents writer.new) (encode_lower bytes.now)) }
{
    let mut rest = bytes;
    while !rest.is_empty() {
        let (piece, behind) = rest.split_at(rest.len().min(PIECE));
        write_piece(writer, piece)?;
        rest = behind;
    }
    Ok(())
}

/// Writes what stands in front of the digits of an event's line, and the digits.
fn write_front<W: Write>(writer: &mut W, event: &RecordedEvent<'_>) -> Result<(), WriteFault>
    ensures ok { OnOk result (Appends (W.contents writer.old) (W.contents writer.new)
        (head_of (event_shown event.now) ++ encode_lower (bytes_of (event_shown event.now)))) }
    ensures err { OnErr result (AppendsPart (W.contents writer.old) (W.contents writer.new)
        (head_of (event_shown event.now) ++ encode_lower (bytes_of (event_shown event.now)))) }
{
    write_whole(writer, &head_of(event))?;
    write_bytes(writer, bytes_of(event))
}

/// Writes what stands behind the digits of an event's line, and ends it.
fn write_rest<W: Write>(writer: &mut W, event: &RecordedEvent<'_>) -> Result<(), WriteFault>
    ensures ok { OnOk result (Appends (W.contents writer.old) (W.contents writer.new)
        (tail_of (event_shown event.now) ++ 10 ∷ [])) }
    ensures err { OnErr result (AppendsPart (W.contents writer.old) (W.contents writer.new)
        (tail_of (event_shown event.now) ++ 10 ∷ [])) }
{
    write_tail(writer, event)?;
    write_whole(writer, b"\n")
}

/// Writes the line of an event.
fn write_line<W: Write>(writer: &mut W, event: &RecordedEvent<'_>) -> Result<(), WriteFault>
    ensures ok { OnOk result (Appends (W.contents writer.old) (W.contents writer.new)
        (line_of (event_shown event.now))) }
    ensures err { OnErr result (AppendsPart (W.contents writer.old) (W.contents writer.new)
        (line_of (event_shown event.now))) }
{
    write_front(writer, event)?;
    write_rest(writer, event)
}

/// The zeros that are missing where digits should be nine.
fn zeros_behind(digits: usize) -> &'static [u8]
    ensures { result.now ≡ replicate (9 - digits) 48 }
{
    b"000000000".split_at(digits.min(9)).1
}

/// A time in seconds, with nine digits behind the point.
fn seconds(time: u64) -> ArrayVec<u8, 64>
    ensures text { result.items ≡ seconds time }
    ensures short { length result.items ≤ 50 }
{
    let mut text = ArrayVec::new();
    let mut whole = Buffer::new();
    let mut behind = Buffer::new();
    let digits = behind.format(time % 1_000_000_000).as_bytes();
    let _ = text.try_extend_from_slice(whole.format(time / 1_000_000_000).as_bytes());
    let _ = text.try_extend_from_slice(b".");
    let _ = text.try_extend_from_slice(zeros_behind(digits.len()));
    let _ = text.try_extend_from_slice(digits);
    text
}

/// What stands behind the name of a capture in a remark.
fn place_of(place: usize, time: u64) -> ArrayVec<u8, 128>
    ensures { result.items
        ≡ codes " record " ++ decimal place ++ codes " " ++ seconds time ++ codes " s\n" }
{
    let mut text = ArrayVec::new();
    let mut digits = Buffer::new();
    let _ = text.try_extend_from_slice(b" record ");
    let _ = text.try_extend_from_slice(digits.format(place).as_bytes());
    let _ = text.try_extend_from_slice(b" ");
    let _ = text.try_extend_from_slice(&seconds(time));
    let _ = text.try_extend_from_slice(b" s\n");
    text
}

/// The name of a capture, or nothing where it has none.
fn name_of<'n>(names: &[&'n [u8]], capture: usize) -> &'n [u8]
    ensures { result.now ≡ slice_index_or (map (λ name. name.now) names.now) capture [] }
{
    match names.get(capture) {
        Some(name) => name,
        None => &[],
    }
}

/// Writes the remark of where an event was seen, in captures of these names.
fn write_source<W: Write>(
    writer: &mut W,
    names: &[&[u8]],
    time: u64,
    source: Source,
) -> Result<(), WriteFault>
    ensures ok { OnOk result (Appends (W.contents writer.old) (W.contents writer.new)
        (remark_of (map (λ name. name.now) names.now) time (Some source))) }
    ensures err { OnErr result (AppendsPart (W.contents writer.old) (W.contents writer.new)
        (remark_of (map (λ name. name.now) names.now) time (Some source))) }
{
    write_both(writer, b"# ", name_of(names, source.capture))?;
    write_whole(writer, &place_of(source.place, time))
}

/// Writes that remark, if the event was seen in a captured frame.
fn write_remark<W: Write>(
    writer: &mut W,
    names: &[&[u8]],
    event: &TimedEvent<'_>,
) -> Result<(), WriteFault>
    ensures ok { OnOk result (Appends (W.contents writer.old) (W.contents writer.new)
        (remark_of (map (λ name. name.now) names.now) event.now.time event.now.source)) }
    ensures err { OnErr result (AppendsPart (W.contents writer.old) (W.contents writer.new)
        (remark_of (map (λ name. name.now) names.now) event.now.time event.now.source)) }
{
    match event.source {
        Some(source) => write_source(writer, names, event.time, source),
        None => write_whole(writer, b""),
    }
}

/// Writes what remarks say of an event, if they are asked for.
fn write_remarks<W: Write>(
    writer: &mut W,
    names: Option<&[&[u8]]>,
    event: &TimedEvent<'_>,
) -> Result<(), WriteFault>
    ensures ok { OnOk result (Appends (W.contents writer.old) (W.contents writer.new)
        (remarks_of (names_of names.entry) event.now.time event.now.source)) }
    ensures err { OnErr result (AppendsPart (W.contents writer.old) (W.contents writer.new)
        (remarks_of (names_of names.entry) event.now.time event.now.source)) }
{
    match names {
        Some(names) => write_remark(writer, names, event),
        None => write_whole(writer, b""),
    }
}

/// Writes the lines of an event, the remark of where it was seen among them, if remarks are asked for.
fn write_lines<W: Write>(
    writer: &mut W,
    names: Option<&[&[u8]]>,
    timed: &TimedEvent<'_>,
) -> Result<(), WriteFault>
    ensures ok { OnOk result (Appends (W.contents writer.old) (W.contents writer.new)
        (lines_of (names_of names.entry) (timed_shown timed.now))) }
    ensures err { OnErr result (AppendsPart (W.contents writer.old) (W.contents writer.new)
        (lines_of (names_of names.entry) (timed_shown timed.now))) }
{
    write_remarks(writer, names, timed)?;
    write_line(writer, &timed.event)
}

/// Writes events as the lines of a history, in lower case, each ended by a line feed, and the line `e` behind them: the observation ended
/// there. So these are events of captures that were read to their ends; a history of others is cut, and no call writes one.
///
/// With the names of the captures, a remark above each event that was seen in a captured frame says where: `# FILE record N TIME s`. No
/// name has a line feed.
///
/// It takes no memory: the digits of a frame are written in pieces of at most 256 bytes. A line takes three writes or more, so the
/// writer should gather what it is given, as a `BufWriter` does. The first write that fails or takes no byte ends it: then a front of
/// the text is written.
pub fn write_history<W: Write>(
    events: &[TimedEvent<'_>],
    names: Option<&[&[u8]]>,
    writer: &mut W,
) -> Result<(), WriteFault>
    ensures ok { OnOk result (Appends (W.contents writer.old) (W.contents writer.new)
        (text_of (names_of names.entry) (map timed_shown events.now))) }
    ensures err { OnErr result (AppendsPart (W.contents writer.old) (W.contents writer.new)
        (text_of (names_of names.entry) (map timed_shown events.now))) }
{
    for timed in events {
        write_lines(writer, names, timed)?;
    }
    write_whole(writer, b"e\n")
}
