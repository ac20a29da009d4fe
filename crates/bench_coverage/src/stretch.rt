//! A stretch of versions, and which of its classes were tried.
use frame_classes::ClassExample;

/// Versions in a row by which a port means the same for every frame, and which of its classes were tried by one of them.
#[derive(Drop)]
pub struct Stretch {
    /// The port.
    pub port: u16,
    /// The first of the versions: a number of accepted requests, without those that were carried out before the first line.
    pub version: usize,
    /// The classes of the frames that come in at the port, in order, each with a frame that has it.
    pub classes: Vec<ClassExample>,
    /// For each class, by its place, whether a frame that was judged by one of the versions has it.
    pub tried: Vec<bool>,
}
