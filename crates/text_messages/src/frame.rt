//! A frame as text.
use std::alloc::AllocError;
use tag_view::{CUSTOMER_TPID, FrameView, view};
use text_entities::TagWords;

/// Puts how a frame is read, a line each: its length, the addresses, the tags from the outermost on, the type with the DSCP if
/// there is one, and how many bytes follow; or why it can't be read. Tags are those of IEEE 802.1Q, a customer's and a
/// service's.
pub fn put_frame(text: &mut String, bytes: &[u8]) -> Result<(), AllocError> {
    let len = bytes.len();
    writeln!(text, ", {len} bytes")?;
    match view(bytes, CUSTOMER_TPID) {
        Ok(frame) => put_view(text, &frame),
        Err(fault) => writeln!(text, "  {fault}"),
    }
}

/// Puts a frame that was read.
pub fn put_view(text: &mut String, frame: &FrameView<'_>) -> Result<(), AllocError> {
    let (destination, source) = frame.addresses().split_at(6);
    put_address(text, "destination", destination)?;
    put_address(text, "source", source)?;
    for tag in frame.tags() {
        let tag = TagWords(tag);
        writeln!(text, "  tag: {tag}")?;
    }
    let ethertype = frame.ethertype();
    write!(text, "  type: 0x{ethertype:04x}")?;
    if let Some(dscp) = frame.dscp() {
        write!(text, ", DSCP {dscp}")?;
    }
    let behind = frame.rest().len() - 2;
    writeln!(text, ", {behind} bytes behind it")
}

/// Puts an address, its bytes with colons between them.
fn put_address(text: &mut String, front: &str, address: &[u8]) -> Result<(), AllocError> {
    write!(text, "  {front}: ")?;
    let mut separator = "";
    for byte in address {
        write!(text, "{separator}{byte:02x}")?;
        separator = ":";
    }
    text.push_str("\n")
}
