//! Messages, read and written. The dialogues (`tests/dialogues/faults.dialogues`) ask the program for their faults.
use omci_msg::{
    Action, Reply, Request, law_of_action_codes, law_of_spellings, read, read_reply, write,
    write_request,
};
use std::test::Fail;
use test_fixtures::same;

/// The creation of instance 0x0401 of class 268, with port id 1024 and direction 3.
const CREATE: [u8; 48] = [
    0x00, 0x01, 0x44, 0x0a, 0x01, 0x0c, 0x04, 0x01, 0x04, 0x00, 0x80, 0x01, 0x03, 0, 0, 0, 0, 0, 0,
    0, 0, 0, 0, 0, 0, 0, 0, 0, 0, 0, 0, 0, 0, 0, 0, 0, 0, 0, 0, 0, 0, 0, 0, 0x28, 0, 0, 0, 0,
];

const CREATE_REQUEST: Request = Request {
    tci: 1,
    action: Action::Create,
    wants_answer: true,
    class: 268,
    instance: 0x0401,
    contents: [
        0x04, 0x00, 0x80, 0x01, 0x03, 0, 0, 0, 0, 0, 0, 0, 0, 0, 0, 0, 0, 0, 0, 0, 0, 0, 0, 0, 0,
        0, 0, 0, 0, 0, 0, 0,
    ],
};

/// A message whose bytes tell its fields apart, and which asks for no answer.
const DISTINCT: [u8; 48] = [
    0x12, 0x34, 0x1a, 0x0a, 0x56, 0x78, 0x9a, 0xbc, 0xd1, 0, 0, 0, 0, 0, 0, 0, 0, 0, 0, 0, 0, 0, 0,
    0, 0, 0, 0, 0, 0, 0, 0, 0, 0, 0, 0, 0, 0, 0, 0, 0xd2, 0, 0, 0, 0x28, 0, 0, 0, 0,
];

const DISTINCT_REQUEST: Request = Request {
    tci: 0x1234,
    action: Action::GetNext,
    wants_answer: false,
    class: 0x5678,
    instance: 0x9abc,
    contents: ENDS,
};

/// Contents whose first and last byte are not zero.
const ENDS: [u8; 32] = [
    0xd1, 0, 0, 0, 0, 0, 0, 0, 0, 0, 0, 0, 0, 0, 0, 0, 0, 0, 0, 0, 0, 0, 0, 0, 0, 0, 0, 0, 0, 0, 0,
    0xd2,
];

/// A reply with the same fields.
const ANSWER: [u8; 48] = [
    0x12, 0x34, 0x3a, 0x0a, 0x56, 0x78, 0x9a, 0xbc, 0xd1, 0, 0, 0, 0, 0, 0, 0, 0, 0, 0, 0, 0, 0, 0,
    0, 0, 0, 0, 0, 0, 0, 0, 0, 0, 0, 0, 0, 0, 0, 0, 0xd2, 0, 0, 0, 0x28, 0, 0, 0, 0,
];

const REPLY: Reply = Reply {
    tci: 0x1234,
    action: Action::GetNext,
    class: 0x5678,
    instance: 0x9abc,
    contents: ENDS,
};

#[test]
fn messages_are_read_and_written(rt: HostRuntime) -> Result<(), Fail> {
    same!(rt; read(&CREATE), Ok(CREATE_REQUEST));
    same!(rt; read(&CREATE[..44]), Ok(CREATE_REQUEST));
    same!(rt; write_request(&CREATE_REQUEST), CREATE);
    same!(rt; read(&DISTINCT), Ok(DISTINCT_REQUEST));
    same!(rt; write_request(&DISTINCT_REQUEST), DISTINCT);
    same!(rt; read_reply(&ANSWER), Ok(REPLY));
    same!(rt; read_reply(&ANSWER[..44]), Ok(REPLY));
    same!(rt; write(&REPLY), ANSWER);
    same!(rt; Action::of(26), Some(Action::GetNext));
    same!(rt; (Action::of(32), Action::of(255)), (None, None));
    law_of_action_codes();
    law_of_spellings();
    Ok(())
}
