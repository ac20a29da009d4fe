//! Events with the bytes that their digits spell.
use bench_history::{Event, Extent, SeenGem};
use script_lines::MOST_SPELLED;

/// An event with its bytes, which lie in a buffer.
#[derive(Clone, Copy, Debug, PartialEq, Eq)]
pub(crate) enum Shown<'a> {
    Sent(&'a [u8]),
    Replied(&'a [u8]),
    Excused(&'a [u8]),
    Entered(u16, Extent, &'a [u8]),
    Left(u32, SeenGem, Extent, &'a [u8]),
    /// With the first three frames of those of which it is one.
    LeftOneOf(SeenGem, Extent, &'a [u8], [Option<u32>; 3]),
    Strayed(SeenGem, Extent, &'a [u8]),
    Dropped(u32),
    Lost(u32),
    Waited(Option<u32>),
    Ended,
    Nothing,
}

/// An event with its bytes.
pub(crate) fn show<'b>(event: &Event<'_>, buffer: &'b mut [u8; MOST_SPELLED]) -> Shown<'b> {
    match event {
        Event::Sent { message } => Shown::Sent(message.read(buffer)),
        Event::Replied { reply } => Shown::Replied(reply.read(buffer)),
        Event::Excused { reply } => Shown::Excused(reply.read(buffer)),
        Event::Entered {
            port,
            extent,
            frame,
        } => Shown::Entered(*port, *extent, frame.read(buffer)),
        Event::Left {
            gem,
            extent,
            number,
            frame,
        } => Shown::Left(*number, *gem, *extent, frame.read(buffer)),
        Event::LeftOneOf { gem, extent, among } => {
            let mut numbers = among.numbers();
            let first = [
                numbers.take_least(),
                numbers.take_least(),
                numbers.take_least(),
            ];
            Shown::LeftOneOf(*gem, *extent, among.frame().read(buffer), first)
        }
        Event::Strayed { gem, extent, frame } => {
            Shown::Strayed(*gem, *extent, frame.read(buffer))
        }
        Event::Dropped { number } => Shown::Dropped(*number),
        Event::Lost { number } => Shown::Lost(*number),
        Event::Waited { replies } => Shown::Waited(*replies),
        Event::Ended => Shown::Ended,
        Event::Nothing => Shown::Nothing,
    }
}
