//! What holds of the definitions that the contracts cite.
ghost use Rattle.omci_msg.specs.Message.{ActionsAreCodes, SpellingsAreRead};

/// Actions are the numbers under 32: `Action::of` and `Action::code` undo each other.
pub fn law_of_action_codes()
    ensures { ActionsAreCodes }
{}

/// What is written is read: `read` undoes `write_request`, and `read_reply` undoes `write`.
pub fn law_of_spellings()
    ensures { SpellingsAreRead }
{}
