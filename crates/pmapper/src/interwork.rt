//! The GEM interworking termination point, class 266.

/// A GEM interworking termination point, which leads frames to a GEM port (ITU-T G.988, clause 9.2.4). The fields are its
/// attributes in ascending order; only the first has an effect on forwarding.
#[derive(Clone, Copy, Debug, Default, PartialEq, Eq)]
pub struct Interwork {
    /// The GEM port network CTP that it is connected to.
    pub gem_port_pointer: u16,
    pub interworking_option: u8,
    pub service_profile_pointer: u16,
    pub interworking_tp_pointer: u16,
    pub pptp_counter: u8,
    pub operational_state: u8,
    pub gal_profile_pointer: u16,
    pub gal_loopback_configuration: u8,
}
