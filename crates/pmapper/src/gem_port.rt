//! The GEM port network CTP, class 268.

/// A GEM port network CTP, the termination of one GEM port (ITU-T G.988, clause 9.2.3). The fields are its attributes in
/// ascending order; only the port-ID and the direction have an effect on forwarding.
#[derive(Clone, Copy, Debug, Default, PartialEq, Eq)]
pub struct GemPort {
    /// The port-ID that frames carry.
    pub port_id: u16,
    pub t_cont_pointer: u16,
    /// 1: upstream, 2: downstream, 3: both.
    pub direction: u8,
    pub traffic_management_pointer_upstream: u16,
    pub traffic_descriptor_pointer_upstream: u16,
    pub uni_counter: u8,
    pub priority_queue_pointer_downstream: u16,
    pub encryption_state: u8,
    pub traffic_descriptor_pointer_downstream: u16,
    pub encryption_key_ring: u8,
}
