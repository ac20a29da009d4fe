//! Messages and their replies, by their digits.
ghost use Rattle.std.specs.Prelude.{◌≡◌};

use plan_publish::Control;
use std::process::Abort;
use test_draws::message;
use test_fixtures::same;

/// What makes a port: a GEM port network CTP with port-ID 1024, an interworking point, a mapper of port 257, and a table of it.
pub(crate) const PORT_257: [(&str, &str); 4] = [
    ("0001440a010c04010400800103", "0001240a010c040100"),
    ("0002440a010a05010401050601", "0002240a010a050100"),
    (
        "0003440a00820601010105010501050105010501050105010501010001",
        "0003240a0082060100",
    ),
    ("0004440a00ab0701020101", "0004240a00ab070100"),
];

/// An entry that pushes a tag of VID 100.
pub(crate) const PUSH_VLAN_100: (&str, &str) = (
    "0005480a00ab07010400f8000000f8000000000f000000000324",
    "0005280a00ab070100",
);

/// Asks for what a message says, and hears the reply.
pub(crate) fn ask(rt: &impl Abort, control: &mut Control, asked: &str, reply: &str)
    ensures { control.new.home ≡ control.old.home }
{
    let answer = control.message(&message(asked));
    same!(rt; answer, Ok(Some(message(reply))), "{asked}");
}

/// The same for each pair.
pub(crate) fn ask_all(rt: &impl Abort, control: &mut Control, pairs: &[(&str, &str)])
    ensures { control.new.home ≡ control.old.home }
{
    for (asked, reply) in pairs {
        ask(rt, control, asked, reply);
    }
}

/// Tells what a message says, and hears that no answer was wanted.
pub(crate) fn tell(rt: &impl Abort, control: &mut Control, told: &str)
    ensures { control.new.home ≡ control.old.home }
{
    same!(rt; control.message(&message(told)), Ok(None), "{told}");
}
