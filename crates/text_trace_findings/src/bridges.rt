//! The ports of bridges that a trace creates. The model has no bridges, so it refuses them.
use crate::trace::{TraceFault, TraceFinding};
use mib_state::Mib;
use omci_msg::{Action, Request};
use std::alloc::{AllocError, Global};

/// The class MAC bridge port configuration data (ITU-T G.988, clause 9.3.4).
const BRIDGE_PORT: u16 = 47;

/// The TP type of a bridge port that leads to a PPTP Ethernet UNI.
const TP_UNI: u8 = 1;

/// The TP type of a bridge port that leads to an 802.1p mapper service profile.
const TP_MAPPER: u8 = 3;

/// The TP type of a mapper that a bridge port leads to (clause 9.3.10).
const TP_BRIDGE: u8 = 0;

/// A bridge port that a line creates: its bridge, and what it leads to.
#[derive(Clone, Copy)]
struct BridgePort {
    line: u64,
    bridge: u16,
    tp_type: u8,
    tp: u16,
}

/// The bridge ports that a trace creates.
#[derive(Drop)]
pub(crate) struct Bridges {
    ports: Vec<BridgePort>,
}

impl Bridges {
    /// None.
    pub(crate) fn new(alloc: Global) -> Self {
        Bridges {
            ports: Vec::new(alloc),
        }
    }

    /// Sees a refused request, which may create a port.
    pub(crate) fn see(&mut self, line: u64, request: &Request) -> Result<(), AllocError> {
        if request.action != Action::Create || request.class != BRIDGE_PORT {
            return Ok(());
        }
        let contents = &request.contents;
        self.ports.push(BridgePort {
            line,
            bridge: u16::from_be_bytes([contents[0], contents[1]]),
            tp_type: contents[3],
            tp: u16::from_be_bytes([contents[4], contents[5]]),
        })?;
        Ok(())
    }

    /// The PPTP Ethernet UNI of a bridge.
    fn uni_of(&self, bridge: u16) -> Option<u16> {
        for port in &self.ports {
            if port.bridge == bridge && port.tp_type == TP_UNI {
                return Some(port.tp);
            }
        }
        None
    }

    /// Appends each port that leads to a mapper which hangs on its bridge.
    pub(crate) fn append_bridged(
        &self,
        mib: &Mib,
        found: &mut Vec<TraceFinding>,
    ) -> Result<(), AllocError> {
        for port in &self.ports {
            let mapper = port.tp;
            if port.tp_type == TP_MAPPER && is_bridged(mib, mapper) {
                let line = Some(port.line);
                let uni = self.uni_of(port.bridge);
                let fault = TraceFault::Bridged { mapper, uni };
                found.push(TraceFinding { line, fault })?;
            }
        }
        Ok(())
    }
}

/// Whether there is a mapper of a number, and its TP type is 0.
fn is_bridged(mib: &Mib, number: u16) -> bool {
    match mib.mapper(number) {
        Some(mapper) => mapper.tp_type == TP_BRIDGE,
        None => false,
    }
}
