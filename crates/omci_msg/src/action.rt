//! The action that a message asks for or answers (ITU-T G.988, clause 11.2).
ghost use Rattle.std.specs.Prelude.{IsTrue};
ghost use Rattle.omci_msg.specs.Code.{is_other_code};

/// A message type under 32 that none of the named actions has.
#[derive(Clone, Copy, Debug, PartialEq, Eq)]
pub struct OtherCode {
    pub code: u8,
    pub ghost is_other: { IsTrue (is_other_code code) },
}

/// What a message asks for, or what a reply answers.
#[derive(Clone, Copy, Debug, PartialEq, Eq)]
pub enum Action {
    Create,
    Delete,
    Set,
    Get,
    GetNext,
    MibUpload,
    MibUploadNext,
    MibReset,
    Other(OtherCode),
}

impl Action {
    ghost use Rattle.std.specs.Prelude.{◌≡◌, ◌<◌, ◌↔◌, IsSome};
    ghost use Rattle.omci_msg.specs.Message.{action_of, code_of};

    /// The action of a message type, which has five bits: there is none from 32 on.
    #[tactic(auto, unfolding(crate::specs::Message::action_of))]
    pub fn of(code: u8) -> Option<Action>
        ensures value { result ≡ action_of code }
        ensures five_bits { IsSome result ↔ (code < 32) }
    {
        Some(match code {
            4 => Action::Create,
            6 => Action::Delete,
            8 => Action::Set,
            9 => Action::Get,
            13 => Action::MibUpload,
            14 => Action::MibUploadNext,
            15 => Action::MibReset,
            26 => Action::GetNext,
            0..=31 => Action::Other(OtherCode { code }),
            _ => return None,
        })
    }

    /// The message type, without the bits beside it.
    pub fn code(self) -> u8
        ensures value { result ≡ code_of self }
        ensures five_bits { result < 32 }
    {
        match self {
            Action::Create => 4,
            Action::Delete => 6,
            Action::Set => 8,
            Action::Get => 9,
            Action::MibUpload => 13,
            Action::MibUploadNext => 14,
            Action::MibReset => 15,
            Action::GetNext => 26,
            Action::Other(other) => other.code,
        }
    }
}
