//! What a reply stands for.

/// What a reply of a history stands for. Requests are those that want an answer, by their numbers from 0.
#[derive(Clone, Copy)]
pub enum Standing {
    /// The answer to a request of the events.
    Answers(usize),
    /// The same once more, for a repeat of the request.
    Repeats(usize),
    /// The answer to a request before the first event.
    OfStart(usize),
    /// Nothing: it isn't there.
    Absent,
}
