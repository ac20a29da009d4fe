//! How classes are shown.

/// How classes are shown.
#[derive(Clone, Copy, Debug, PartialEq, Eq)]
pub enum Form {
    /// As lines: the port, the class and the frame of each.
    Lines,
    /// As a script whose frames come in one by one, each below a remark with its class.
    Script,
    /// As one object of JSON.
    Json,
}
