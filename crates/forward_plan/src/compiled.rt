//! How much of a plan was compiled.

/// How many tables and how many mappers were compiled.
#[derive(Clone, Copy, Debug, PartialEq, Eq)]
pub struct Compiled {
    /// The instances of extended VLAN tagging operation configuration data, each with its index and treatments.
    pub tables: u16,
    /// The instances of the 802.1p mapper service profile, each with its routes.
    pub mappers: u16,
}

impl Compiled {
    /// Neither a table nor a mapper.
    pub(crate) const NOTHING: Compiled = Compiled {
        tables: 0,
        mappers: 0,
    };
}
