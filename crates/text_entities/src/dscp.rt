//! A DSCP to P-bit mapping in words.
use std::fmt;
use tag_view::DscpMap;

/// A DSCP to P-bit mapping in words: each DSCP whose priority isn't 0, with that, as `DSCP 46 to 5, DSCP 48 to 6`; or
/// `every DSCP to 0`.
#[derive(Clone, Copy)]
pub struct DscpMapWords<'a>(pub &'a DscpMap);

impl fmt::Display for DscpMapWords<'_> {
    fn fmt<W: fmt::Write>(&self, f: &mut fmt::Formatter<W>) -> fmt::Result {
        let mut separator = "";
        for dscp in 0..64 {
            let priority = self.0.get(dscp);
            if priority != 0 {
                write!(f, "{separator}DSCP {dscp} to {priority}")?;
                separator = ", ";
            }
        }
        if separator.is_empty() {
            f.write_str("every DSCP to 0")
        } else {
            Ok(())
        }
    }
}
