//! What a judgement is told with.

/// What a judgement is told with, beside what was found.
#[derive(Clone, Copy)]
pub struct Told {
    /// Whether a history without an end line may be a pass.
    pub allow_unfinished: bool,
    /// How many requests were accepted of a script that was carried out before the history, if one was.
    pub start: Option<usize>,
}
