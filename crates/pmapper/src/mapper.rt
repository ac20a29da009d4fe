//! The 802.1p mapper service profile, class 130.

use tag_view::DscpMap;

/// An 802.1p mapper service profile, which gives the frames of a port to GEM ports by their priority (ITU-T G.988,
/// clause 9.3.10). The fields are its attributes in ascending order.
#[derive(Clone, Copy, Debug, PartialEq, Eq)]
pub struct Mapper {
    /// The port, where the TP type is 1.
    pub tp_pointer: u16,
    /// The GEM interworking termination point of each P-bit priority, 0 first; 0xFFFF: none.
    pub interwork_tp_pointers: [u16; 8],
    /// 0: a frame without a tag has the priority of its DSCP; 1: the default one.
    pub unmarked_frame_option: u8,
    /// The DSCP to P-bit mapping.
    pub dscp_map: DscpMap,
    pub default_p_bit_assumption: u8,
    /// 1: the TP pointer is to a PPTP Ethernet UNI.
    pub tp_type: u8,
}
