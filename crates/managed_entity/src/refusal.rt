//! Why an action is refused.

use byteorder::{BigEndian, ByteOrder};
use vlan_rule::TableFault;

/// Why an action is refused: the results of ITU-T G.988, annex A, but success.
#[derive(Clone, Copy)]
pub enum Refusal {
    /// Command processing error, 1: there is no room.
    ProcessingError,
    /// Command not supported, 2.
    NotSupported,
    /// Parameter error, 3.
    ParameterError,
    /// Unknown managed entity, 4: the class is unknown.
    UnknownEntity,
    /// Unknown managed entity instance, 5.
    UnknownInstance,
    /// Instance exists, 7.
    InstanceExists,
    /// Attributes failed or unknown, 9: the optional-attribute mask and the attribute execution mask.
    AttributesFailed(u16, u16),
}

impl Refusal {
    ghost use Rattle.std.specs.Prelude.{◌≡◌};
    ghost use Rattle.managed_entity.specs.Answer.{code_of, refused};

    /// The result.
    pub fn code(self) -> u8
        ensures { result ≡ code_of self }
    {
        match self {
            Refusal::ProcessingError => 1,
            Refusal::NotSupported => 2,
            Refusal::ParameterError => 3,
            Refusal::UnknownEntity => 4,
            Refusal::UnknownInstance => 5,
            Refusal::InstanceExists => 7,
            Refusal::AttributesFailed(_, _) => 9,
        }
    }

    /// The contents of the answer: the result, and of attributes that failed the two masks.
    pub fn contents(self) -> [u8; 32]
        ensures { result ≡ refused self }
    {
        let mut contents = [0; 32];
        contents[0] = self.code();
        if let Refusal::AttributesFailed(optional, execution) = self {
            BigEndian::write_u16(&mut contents[1..3], optional);
            BigEndian::write_u16(&mut contents[3..5], execution);
        }
        contents
    }
}

impl From<TableFault> for Refusal {
    ghost use Rattle.std.specs.Prelude.{◌≡◌};
    ghost use Rattle.managed_entity.specs.Set.{refusal_of};

    ghost from_gives = { λ fault refusal. refusal ≡ refusal_of fault };

    fn from(fault: TableFault) -> Self {
        match fault {
            TableFault::Bad(_) => Refusal::ParameterError,
            TableFault::Full => Refusal::ProcessingError,
        }
    }
}
