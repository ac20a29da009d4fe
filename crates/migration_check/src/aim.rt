//! What a migration has to reach.
use mib_state::Mib;

/// What a migration has to reach of the configuration that it is to lead to.
#[derive(Clone, Copy, Debug, PartialEq, Eq)]
pub enum Aim {
    /// Its instances: the same stands under each number of each class. The MIB data sync may be another.
    Instances,
    /// What frames see: none is seen otherwise, at any port. Other instances may stand.
    Frames,
}

/// What a migration is to lead to.
#[derive(Clone, Copy)]
pub struct Wanted<'a> {
    /// The configuration.
    pub goal: &'a Mib,
    /// What has to be reached of it.
    pub aim: Aim,
}
