//! One turn of reading on: a record or a block is taken from the bytes that are held, or more bytes are wanted.
ghost use Rattle.std.specs.Prelude.{◌≡◌, ◌<◌, [], false, true, List, ℕ, Ok, length};
ghost use Rattle.bench_pcapng.specs.Passing.{shown_length};
ghost use Rattle.bench_capture.specs.Formats.{FewKept};
ghost use Rattle.bench_capture.specs.Windows.{IsTurn, held};
ghost use Rattle.bench_capture.specs.declared.window.Window.{Window};

use crate::fault::{NextFrameFault, ReadFault};
use crate::format::Format;
use crate::span::Span;
use crate::window::Window;
use std::io::ErrorKind;

/// What a turn came to.
#[derive(Clone, Copy)]
pub(crate) enum Turn {
    /// A frame, which is a part of the window's buffer.
    Frame(Span),
    /// A block without a frame was passed.
    Passed,
    /// The end of the file.
    End,
    /// More bytes have to be read first.
    Wants,
}

/// The turn where no bytes are held: the end of the file, if that is between two records or blocks.
fn turn_without_bytes(format: &Format, ended: bool) -> Result<Turn, ReadFault>
    ensures turn { (window : Window) (rest : List ℕ) → held window ≡ [] → (ended ≡ true → rest ≡ [])
        → IsTurn format.now window rest result format.now window }
    ensures wants { result ≡ Ok Turn.Wants → ended ≡ false }
{
    if !ended {
        return Ok(Turn::Wants);
    }
    match format.fault_at_end() {
        Some(fault) => Err(ReadFault::Capture(fault)),
        None => Ok(Turn::End),
    }
}

/// Takes the record or block at the front of the bytes that are held, which are all that is left where `ended`.
pub(crate) fn take_turn(
    format: &mut Format,
    window: &mut Window,
    ended: bool,
) -> Result<Turn, ReadFault>
    requires { FewKept format.old }
    ensures turn { (rest : List ℕ) → (ended ≡ true → rest ≡ [])
        → IsTurn format.old window.old rest result format.new window.new }
    ensures wants { result ≡ Ok Turn.Wants → ended ≡ false }
    ensures kept { FewKept format.new }
    ensures room { result ≡ Ok Turn.Wants → length (held window.new) < shown_length }
{
    let bytes = window.as_slice();
    if bytes.is_empty() {
        return turn_without_bytes(format, ended);
    }
    if format.is_full() {
        return Err(ReadFault::Unreadable(ErrorKind::FileTooLarge));
    }
    match format.take(bytes) {
        Ok(taken) => {
            let before = window.start;
            window.take(taken.length);
            Ok(match taken.frame {
                Some(span) => Turn::Frame(Span {
                    start: before + span.start,
                    ..span
                }),
                None => Turn::Passed,
            })
        }
        Err(NextFrameFault::NoMemory) => Err(ReadFault::NoMemory),
        Err(NextFrameFault::Capture(fault)) => {
            if ended || format.is_enough(bytes) {
                return Err(ReadFault::Capture(fault));
            }
            match format.let_go(bytes) {
                Some(gap) => {
                    window.cut(gap);
                    Ok(Turn::Passed)
                }
                None => Ok(Turn::Wants),
            }
        }
    }
}
