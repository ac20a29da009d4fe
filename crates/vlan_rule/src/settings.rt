//! What a table's rules are applied with.
use tag_view::DscpMap;

/// The settings of a table, beside its entries (G.988, 9.3.13).
#[derive(Clone, Copy, Debug, PartialEq, Eq)]
pub struct TableSettings {
    /// The TPID that filters ask for, and that frames are read with beside 0x8100 and 0x88A8.
    pub input_tpid: u16,
    /// The TPID of tags that are added with it.
    pub output_tpid: u16,
    /// The priorities that are copied from a frame's DSCP.
    pub dscp_map: DscpMap,
}
