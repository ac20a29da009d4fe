//! Bytes that are written whole, and how a look inside ends. The dialogues and `tests/hostile` compare what the program says.
use std::alloc::AllocError;
use std::test::Fail;
use test_fixtures::{Sink, same};
use text_writing::{LookFault, Status, TextFault, WriteFault, report_look, write_whole};

#[test]
fn bytes_are_written_whole_or_to_where_a_write_fails(rt: HostRuntime) -> Result<(), Fail> {
    for (most, room, fails, written, outcome) in [
        (100, 100, true, "answers", Ok(())),
        (1, 7, true, "answers", Ok(())),
        (3, 6, true, "answer", Err(WriteFault)),
        (3, 6, false, "answer", Err(WriteFault)),
        (3, 0, true, "", Err(WriteFault)),
    ] {
        let mut sink = Sink::new(rt.alloc(), most, room, fails);
        same!(rt; write_whole(&mut sink, b"answers"), outcome, "{most} a write, {room} in all");
        same!(rt; sink.bytes.as_slice(), written.as_bytes(), "{most} a write, {room} in all");
        same!(rt; write_whole(&mut sink, b""), Ok(()));
    }
    Ok(())
}

#[test]
fn a_look_inside_ends_with_words_a_number_and_a_status(rt: HostRuntime) -> Result<(), AllocError> {
    for (fault, words, number, status) in [
        (LookFault::BadLine(7), "line 7 is bad\n", 1, Status::Bad),
        (
            LookFault::BadTrace(18_446_744_073_709_551_615),
            "trace line 18446744073709551615 is bad\n",
            2,
            Status::Bad,
        ),
        (LookFault::Read, "read failed\n", 3, Status::Failed),
        (
            LookFault::from(TextFault::Write),
            "write failed\n",
            4,
            Status::Failed,
        ),
        (
            LookFault::from(TextFault::NoMemory),
            "no memory\n",
            5,
            Status::Failed,
        ),
    ] {
        let mut sink = Sink::new(rt.alloc(), 3, 100, true);
        same!(rt; (report_look(&Err(fault), &mut sink), fault.code(), fault.status()), (status, number, status));
        same!(rt; sink.bytes.as_slice(), words.as_bytes());
        same!(rt; report_look(&Ok(()), &mut sink), Status::Done);
        same!(rt; sink.bytes.len(), words.len());
    }
    Ok(())
}

#[test]
fn each_status_has_a_number_of_its_own(rt: HostRuntime) {
    for (status, code) in Status::ALL.iter().zip(&[0, 1, 2, 3, 4, 141]) {
        same!(rt; status.code(), *code);
        same!(rt; Status::of(*code), *status);
    }
    same!(rt; Status::of(5), Status::Failed);
}
