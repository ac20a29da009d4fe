//! Which instance a step touches.

/// What a step changed among the instances of the classes 130, 171, 266 and 268.
#[derive(Clone, Copy, Debug, PartialEq, Eq)]
pub enum Touch {
    /// No instance of them.
    Nothing,
    /// No other instance of them than this one, which was created, deleted or set.
    One {
        /// The number of its class.
        class: u16,
        /// Its number in the class.
        instance: u16,
    },
    /// All of them went: a MIB reset.
    All,
}
