//! The names of actions, results and faults.
use omci_msg::Action;
use std::fmt;

/// An action in words: its name, or its number where it has none.
#[derive(Clone, Copy)]
pub(crate) struct ActionWords(pub(crate) Action);

impl fmt::Display for ActionWords {
    fn fmt<W: fmt::Write>(&self, f: &mut fmt::Formatter<W>) -> fmt::Result {
        match action_name(self.0) {
            Some(name) => f.write_str(name),
            None => write!(f, "unknown action ({})", self.0.code()),
        }
    }
}

/// What an action is called (ITU-T G.988, clause 11.2), or None where it isn't known.
pub fn action_name(action: Action) -> Option<&'static str> {
    match action {
        Action::Create => Some("Create"),
        Action::Delete => Some("Delete"),
        Action::Set => Some("Set"),
        Action::Get => Some("Get"),
        Action::GetNext => Some("Get next"),
        Action::MibUpload => Some("MIB upload"),
        Action::MibUploadNext => Some("MIB upload next"),
        Action::MibReset => Some("MIB reset"),
        Action::Other(_) => other_action_name(action.code()),
    }
}

/// What an action that this unit doesn't carry out is called, by its code.
fn other_action_name(code: u8) -> Option<&'static str> {
    match code {
        11 => Some("Get all alarms"),
        12 => Some("Get all alarms next"),
        16 => Some("Alarm"),
        17 => Some("Attribute value change"),
        18 => Some("Test"),
        19 => Some("Start software download"),
        20 => Some("Download section"),
        21 => Some("End software download"),
        22 => Some("Activate software"),
        23 => Some("Commit software"),
        24 => Some("Synchronize time"),
        25 => Some("Reboot"),
        27 => Some("Test result"),
        28 => Some("Get current data"),
        29 => Some("Set table"),
        _ => None,
    }
}

/// What the result of an answer is called (ITU-T G.988, annex A).
pub fn result_name(code: u8) -> &'static str {
    match code {
        0 => "success",
        1 => "command processing error",
        2 => "command not supported",
        3 => "parameter error",
        4 => "unknown managed entity",
        5 => "unknown managed entity instance",
        6 => "device busy",
        7 => "instance exists",
        9 => "attributes failed or unknown",
        _ => "not a result",
    }
}
