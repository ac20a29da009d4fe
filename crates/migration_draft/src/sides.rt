//! What a way is looked for between.
use mib_state::Mib;
use migration_check::{Aim, Wanted};
use omci_msg::Request;

/// What a way is looked for between.
#[derive(Clone, Copy)]
pub struct Sides<'a> {
    /// The requests that lead to the configuration before.
    pub earlier: &'a [Request],
    /// That configuration.
    pub before: &'a Mib,
    /// The one that is to be reached.
    pub goal: &'a Mib,
    /// What is to be reached of it.
    pub aim: Aim,
    /// Whether two mappers, or two tables, may name one port for a moment.
    pub ties: bool,
    /// The transaction correlation identifier of the first request; those of the others follow.
    pub identifier: u16,
}

impl<'a> Sides<'a> {
    /// What is to be reached.
    pub fn wanted(&self) -> Wanted<'a> {
        Wanted {
            goal: self.goal,
            aim: self.aim,
        }
    }
}
