//! The numbers by which calls from C say that they did nothing. The faults of a message are -1 to -4.

/// No unit stands in the cell.
pub const CLOSED: i32 = -16;

/// A unit stands in the cell already.
pub const OPEN: i32 = -17;

/// The room is too small for the text; how many bytes it has was said.
pub const SMALL: i32 = -19;

/// A request for memory was refused.
pub const NO_MEMORY: i32 = -20;

/// A line is bad; its number was said.
pub const BAD_LINE: i32 = -21;

/// A flag that has no meaning is set.
pub const FLAGS: i32 = -22;

/// A line of the script before a history is bad; its number was said.
pub const BAD_START: i32 = -23;

/// A line of the trace after a change is bad; its number was said.
pub const BAD_AFTER: i32 = -24;

/// A change is to begin behind the line where it ends.
pub const BACKWARD: i32 = -25;
