//! The lines and statuses of outcomes.
use crate::asked::holds;
use ea_blocks::{FaultKind, InputFault, ReadFault};
use ea_bytes::StdOut;
use earliest::{AnswerFault, CheckFault, CommandFault, FileFault, FileWord, Outcome, say};
use std::alloc::Global;
use std::test::Fail;

/// Whether an outcome has this line and this status.
fn says(outcome: Outcome, line: &[u8], status: u8) -> bool {
    let mut room = [0u8; 128];
    let mut out = StdOut::new(room.as_mut_slice());
    say(&outcome, &mut out) == status && holds(room.as_slice(), line)
}

#[test]
fn say_lines(rt: HostRuntime) {
    let input = AnswerFault::Input {
        file: FileWord::Gr,
        fault: InputFault {
            line: 3,
            kind: FaultKind::OutOfRange,
        },
    };
    assert!(rt; says(Outcome::Answer(input), b"earliest: gr 3: 6 OutOfRange\n", 1));
    let large = AnswerFault::Read {
        file: FileWord::Ss,
        fault: ReadFault::TooLarge,
    };
    assert!(rt; says(Outcome::Answer(large), b"earliest: ss: 10 TooLarge\n", 1));
    let unread = AnswerFault::Read {
        file: FileWord::Tp,
        fault: ReadFault::ReadFailed,
    };
    assert!(rt; says(Outcome::Answer(unread), b"earliest: tp: 11 ReadFailed\n", 4));
    assert!(rt;
        says(
            Outcome::Unopened(FileWord::Gr),
            b"earliest: gr: 15 OpenFailed\n",
            4
        )
    );
    let written = Outcome::Answer(AnswerFault::Write { written: 7 });
    assert!(rt; says(written, b"earliest: 12 WriteFailed after 7 bytes\n", 4));
    assert!(rt;
        says(
            Outcome::Answer(AnswerFault::BadOption),
            b"earliest: 14 BadOption\n",
            2
        )
    );
    assert!(rt;
        says(
            Outcome::Command(CommandFault::BadOption),
            b"earliest: 14 BadOption\n",
            2
        )
    );
    let memory = Outcome::Answer(AnswerFault::OutOfMemory { written: 9 });
    assert!(rt; says(memory, b"earliest: 13 OutOfMemory\n", 3));
    let not_least = Outcome::Check(CheckFault::NotLeast(3));
    assert!(rt; says(not_least, b"earliest: check 3 NotLeast line 3\n", 5));
    assert!(rt;
        says(
            Outcome::Check(CheckFault::OutOfMemory),
            b"earliest: 13 OutOfMemory\n",
            3
        )
    );
    assert!(rt; says(Outcome::Accepted, b"ok\n", 0));
}

#[test]
fn memory_is_no_fault_of_a_file(rt: HostRuntime) {
    let text = AnswerFault::Input {
        file: FileWord::Gr,
        fault: InputFault {
            line: 0,
            kind: FaultKind::OutOfMemory,
        },
    };
    assert!(rt; says(Outcome::Answer(text), b"earliest: 13 OutOfMemory\n", 3));
    let unread = AnswerFault::Read {
        file: FileWord::P2p,
        fault: ReadFault::OutOfMemory,
    };
    assert!(rt; says(Outcome::Answer(unread), b"earliest: 13 OutOfMemory\n", 3));
}

#[test]
fn a_device_that_is_full(rt: HostRuntime) {
    let mut room = [0u8; 4];
    let mut out = StdOut::new(room.as_mut_slice());
    assert_eq!(rt; say(&Outcome::Unopened(FileWord::P2p), &mut out), 4);
    assert!(rt; room.as_slice() == b"earl".as_slice());
}

/// Whether a fault of a file has this text.
fn shows(alloc: Global, fault: FileFault, text: &str) -> Result<bool, Fail> {
    let shown = format!(in alloc; "{fault}")?;
    Ok(shown.as_str() == text)
}

#[test]
fn faults_of_files_read(rt: HostRuntime) -> Result<(), Fail> {
    for (file, fault, text) in [
        (
            FileWord::Gr,
            ReadFault::TooLarge,
            "gr: there are more bytes than are allowed (10 TooLarge)",
        ),
        (
            FileWord::Ss,
            ReadFault::ReadFailed,
            "ss: the input could not be read (11 ReadFailed)",
        ),
        (
            FileWord::Report,
            ReadFault::OutOfMemory,
            "report: there is not enough memory (13 OutOfMemory)",
        ),
    ] {
        let shown = shows(rt.alloc(), FileFault::Read { file, fault }, text)?;
        assert!(rt; shown, "{text}");
    }
    let memory = "there is not enough memory (13 OutOfMemory)";
    assert!(rt; shows(rt.alloc(), FileFault::OutOfMemory, memory)?);
    Ok(())
}

#[test]
fn faults_of_files_understood(rt: HostRuntime) -> Result<(), Fail> {
    for (file, line, kind, text) in [
        (
            FileWord::Gr,
            0,
            FaultKind::NoProblemLine,
            "gr: the problem line `p ..` is missing (1 NoProblemLine)",
        ),
        (
            FileWord::Ss,
            2,
            FaultKind::SecondProblemLine,
            "ss: line 2: there is a second problem line (2 SecondProblemLine)",
        ),
        (
            FileWord::P2p,
            3,
            FaultKind::UnknownLine,
            "p2p: line 3: lines of this file don't begin with this word (3 UnknownLine)",
        ),
        (
            FileWord::Tp,
            4,
            FaultKind::FieldCount,
            "tp: line 4: the line has too few or too many fields (4 FieldCount)",
        ),
        (
            FileWord::Gr,
            5,
            FaultKind::BadNumber,
            "gr: line 5: a field is not a number (5 BadNumber)",
        ),
        (
            FileWord::Gr,
            6,
            FaultKind::OutOfRange,
            "gr: line 6: a number is out of its range (6 OutOfRange)",
        ),
        (
            FileWord::Ss,
            7,
            FaultKind::TooManyLines,
            "ss: line 7: there are more lines of this sort than were announced (7 TooManyLines)",
        ),
        (
            FileWord::Tp,
            0,
            FaultKind::TooFewLines,
            "tp: there are fewer lines than were announced (8 TooFewLines)",
        ),
        (
            FileWord::P2p,
            1,
            FaultKind::BadKind,
            "p2p: line 1: a kind word is not the one expected here (9 BadKind)",
        ),
        (
            FileWord::Gr,
            0,
            FaultKind::OutOfMemory,
            "gr: there is not enough memory (13 OutOfMemory)",
        ),
    ] {
        let fault = InputFault { line, kind };
        let shown = shows(rt.alloc(), FileFault::Input { file, fault }, text)?;
        assert!(rt; shown, "{text}");
    }
    Ok(())
}

/// Whether a fault of a run has this text.
fn shows_answer(alloc: Global, fault: AnswerFault, text: &str) -> Result<bool, Fail> {
    let shown = format!(in alloc; "{fault}")?;
    Ok(shown.as_str() == text)
}

#[test]
fn faults_of_answers(rt: HostRuntime) -> Result<(), Fail> {
    let bad_number = InputFault {
        line: 9,
        kind: FaultKind::BadNumber,
    };
    for (fault, text) in [
        (
            AnswerFault::Read {
                file: FileWord::Tp,
                fault: ReadFault::TooLarge,
            },
            "tp: there are more bytes than are allowed (10 TooLarge)",
        ),
        (
            AnswerFault::Input {
                file: FileWord::Ss,
                fault: bad_number,
            },
            "ss: line 9: a field is not a number (5 BadNumber)",
        ),
        (
            AnswerFault::BadOption,
            "a departure is beyond the last time (14 BadOption)",
        ),
        (
            AnswerFault::Write { written: 65_536 },
            "the output could not be written after 65536 bytes (12 WriteFailed)",
        ),
        (
            AnswerFault::OutOfMemory { written: 7 },
            "there is not enough memory (13 OutOfMemory)",
        ),
    ] {
        assert!(rt; shows_answer(rt.alloc(), fault, text)?, "{text}");
    }
    Ok(())
}
