//! Why a control couldn't be opened, and why a message had no effect.
ghost use Rattle.std.specs.Prelude.{◌≡◌};
ghost use Rattle.plan_publish.specs.Fault.{number_of_open_fault, number_of_control_fault};

use omci_msg::MsgFault;
use thiserror::Error;

/// Why there is no control. Where several things are so, it is the one that stands first here.
#[derive(Clone, Copy, Debug, PartialEq, Eq, Error)]
pub enum OpenFault {
    /// There are to be so many lanes, and there can be 1 to 16.
    #[error("{0} lanes, expected 1 to 16")]
    Lanes(u16),
    /// There was no memory for the two copies of the plan.
    #[error("no memory")]
    NoMemory,
    /// `left_right` gave no place to a lane, for whatever cause.
    #[error("refused")]
    Refused,
}

impl OpenFault {
    /// The number under which the fault is reported.
    pub fn code(self) -> u8
        ensures { result ≡ number_of_open_fault self }
    {
        match self {
            OpenFault::Lanes(_) => 1,
            OpenFault::NoMemory => 2,
            OpenFault::Refused => 3,
        }
    }
}

/// Why a message had no effect.
#[derive(Clone, Copy, Debug, PartialEq, Eq, Error)]
pub enum ControlFault {
    /// Its bytes are no request.
    #[error("{0}")]
    Msg(MsgFault),
    /// It would be accepted, and there was no memory to keep it until both copies of the plan have absorbed it.
    #[error("no memory")]
    NoMemory,
}

impl ControlFault {
    /// The number under which the fault is reported.
    pub fn code(self) -> u8
        ensures { result ≡ number_of_control_fault self }
    {
        match self {
            ControlFault::Msg(_) => 1,
            ControlFault::NoMemory => 2,
        }
    }
}
