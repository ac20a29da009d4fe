//! Ethernet frames (IEEE 802.1Q, clause 9) as slices of their bytes: addresses, at most two VLAN
//! tags, and the rest. What a frame is read as is defined in `specs/Frame.antt`. No call takes
//! memory.
#![tactic(auto)]

pub mod dscp_map;
pub mod fault;
pub mod frame;
pub mod laws;
pub mod tag;
pub mod tag_type;
pub mod viewing;

pub use dscp_map::DscpMap;
pub use fault::FrameFault;
pub use frame::FrameView;
pub use laws::law_of_readings;
pub use tag::{MISSING_TAG, MISSING_WORD, Tag};
pub use tag_type::{CUSTOMER_TPID, SERVICE_TPID, is_tag_type};
pub use viewing::view;
