//! Why a script isn't carried out, or its requests aren't read.
ghost use Rattle.std.specs.Prelude.{◌≡◌};
ghost use Rattle.script_trace.specs.declared.fault.ScriptFault.TheVariants.{NoMemory};

use std::alloc::AllocError;
use thiserror::Error;

/// Why a script isn't carried out, or its requests aren't read.
#[derive(Clone, Copy, Debug, PartialEq, Eq, Error)]
pub enum ScriptFault {
    /// A line is neither a message nor nothing, nor a frame where frames are passed over: the number, from 1, of the first such line.
    #[error("line {0} is bad")]
    BadLine(u64),
    /// There was no memory.
    #[error("no memory")]
    NoMemory,
}

impl From<AllocError> for ScriptFault {
    ghost from_gives = { λ _ fault. fault ≡ NoMemory };

    fn from(_error: AllocError) -> ScriptFault {
        ScriptFault::NoMemory
    }
}
