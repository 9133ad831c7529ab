//! Texts that no clause specifies.
use crate::asserts::assert_none_wrong;
use ea_blocks::FaultKind;
use ea_load::FileWord;
use ea_messages::*;
use std::io::ErrorKind;

/// Whether a word names the fault of this number and name.
fn names(word: &str, number: &str, name: &str) -> bool {
    match fault_named(word) {
        Some(fault) => fault.number == number && fault.name == name,
        None => false,
    }
}

/// The number of faults.
const COUNT: usize = FAULTS.len();

/// Each fault by its number and its name.
const NAMES: [(&str, &str); 19] = [
    ("1", "NoProblemLine"),
    ("2", "SecondProblemLine"),
    ("3", "UnknownLine"),
    ("4", "FieldCount"),
    ("5", "BadNumber"),
    ("6", "OutOfRange"),
    ("7", "TooManyLines"),
    ("8", "TooFewLines"),
    ("9", "BadKind"),
    ("10", "TooLarge"),
    ("11", "ReadFailed"),
    ("12", "WriteFailed"),
    ("13", "OutOfMemory"),
    ("14", "BadOption"),
    ("15", "OpenFailed"),
    ("check 1", "BadLine"),
    ("check 2", "NotAttained"),
    ("check 3", "NotLeast"),
    ("check 5", "NotCanonical"),
];

/// The index of the first fault whose number or name doesn't find it.
fn unnamed() -> Option<usize> {
    for (place, (number, name)) in NAMES.iter().enumerate() {
        if !names(number, number, name) || !names(name, number, name) {
            return Some(place);
        }
    }
    None
}

/// The index of the first word that names a fault.
fn first_naming(words: &[&str]) -> Option<usize> {
    for (place, word) in words.iter().enumerate() {
        if fault_named(word).is_some() {
            return Some(place);
        }
    }
    None
}

#[test]
fn faults_by_number_and_name(rt: HostRuntime) {
    assert!(rt; COUNT == NAMES.len());
    assert_none_wrong(&rt, unnamed());
    assert!(rt; names("outofrange", "6", "OutOfRange"));
    assert_none_wrong(&rt, first_naming(&["", "0", "16", "4 ", "06", "OutOf"]));
}

/// The first bytes of files, and the guess for them.
const ENCODINGS: [(&[u8], Option<Encoding>); 11] = [
    (b"\x1f\x8b\x08\x00", Some(Encoding::Gzip)),
    (b"\x28\xb5\x2f\xfd\x04", Some(Encoding::Zstd)),
    (b"\xef\xbb\xbfp sp 1 0\n", Some(Encoding::Marked)),
    (b"\xff\xfep\x00 \x00", Some(Encoding::Wide)),
    (b"\xfe\xff\x00p", Some(Encoding::Wide)),
    (b"p\x00 \x00s\x00", Some(Encoding::Wide)),
    (b"p sp 1 0\rc\r", Some(Encoding::OldMac)),
    (b"p sp 1 0\r\nc\r\n", None),
    (b"p sp 1 0\n", None),
    (b"\x1f", None),
    (b"", None),
];

/// The index of the first with another guess.
fn wrong_encoding() -> Option<usize> {
    for (place, (front, encoding)) in ENCODINGS.iter().enumerate() {
        if encoding_of(front) != *encoding {
            return Some(place);
        }
    }
    None
}

#[test]
fn encodings_of_files(rt: HostRuntime) {
    assert_none_wrong(&rt, wrong_encoding());
}

/// A line that is at fault: the file, the fault, the line and the whole text for it.
type Line = (FileWord, FaultKind, &'static [u8], &'static str);

const WANTED: [Line; 32] = [
    (
        FileWord::Gr,
        FaultKind::FieldCount,
        b"a 1 2",
        "an arc needs tail, head and weight: `a U V W`; U and V are nodes, 1 to N of the problem line, and W is 0 to 4294967295",
    ),
    (
        FileWord::Gr,
        FaultKind::OutOfRange,
        b"p sp 0 0",
        "the problem line is `p sp N M`: N nodes, 1 to 67108864, and M arcs, 0 to 268435456",
    ),
    (
        FileWord::Gr,
        FaultKind::UnknownLine,
        b"e 1 2",
        "`e` lines are edges of other formats: write each as an arc `a U V W`, and as two where it goes both ways",
    ),
    (
        FileWord::Gr,
        FaultKind::UnknownLine,
        b"arc 1 2",
        "a network (.gr) has a line `p sp N M`, then M lines `a U V W`; comments begin with c",
    ),
    (
        FileWord::Gr,
        FaultKind::UnknownLine,
        b"",
        "a network (.gr) has a line `p sp N M`, then M lines `a U V W`; comments begin with c",
    ),
    (
        FileWord::Gr,
        FaultKind::BadNumber,
        b"p sp x 0",
        "the problem line is `p sp N M`: N nodes, 1 to 67108864, and M arcs, 0 to 268435456",
    ),
    (
        FileWord::Gr,
        FaultKind::NoProblemLine,
        b"a 1 2 3",
        "the problem line is `p sp N M`: N nodes, 1 to 67108864, and M arcs, 0 to 268435456",
    ),
    (
        FileWord::Gr,
        FaultKind::BadKind,
        b"p edge 3 2",
        "the problem line is `p sp N M`: N nodes, 1 to 67108864, and M arcs, 0 to 268435456",
    ),
    (
        FileWord::Ss,
        FaultKind::OutOfRange,
        b"s 0",
        "a source is a node: `s S`; S is 1 to the network's number of nodes, and 0 is none",
    ),
    (
        FileWord::Ss,
        FaultKind::NoProblemLine,
        b"s 1",
        "the problem line is `p aux sp ss N`: N sources, 0 to 1000000",
    ),
    (
        FileWord::Ss,
        FaultKind::UnknownLine,
        b"q 1 2",
        "a file of sources (.ss) has a line `p aux sp ss N`, then N lines `s S`; comments begin with c",
    ),
    (
        FileWord::P2p,
        FaultKind::BadNumber,
        b"q 1 -2",
        "a pair needs source and target: `q S T`; both are nodes, 1 to the network's number of nodes",
    ),
    (
        FileWord::P2p,
        FaultKind::NoProblemLine,
        b"q 1 2",
        "the problem line is `p aux sp p2p N`: N pairs, 0 to 1000000",
    ),
    (
        FileWord::P2p,
        FaultKind::UnknownLine,
        b"s 1",
        "a file of pairs (.p2p) has a line `p aux sp p2p N`, then N lines `q S T`; comments begin with c",
    ),
    (
        FileWord::Tp,
        FaultKind::NoProblemLine,
        b"t 1 1",
        "the problem line is `p tp K T`: K timetables, 0 to 65535, and T lines `t E J`, 0 to 268435456",
    ),
    (
        FileWord::Tp,
        FaultKind::BadKind,
        b"k 1 never",
        "a timetable is `k J KIND ..`, J counting from 1: plain; every P O; closed B E; rush B E X; speeds P N; trips P N; points P N (see `earliest formats`)",
    ),
    (
        FileWord::Tp,
        FaultKind::OutOfRange,
        b"t 9 1",
        "`t E J` gives arc E timetable J; E is 1 to the network's number of arcs, and J is 0 to K of the problem line",
    ),
    (
        FileWord::Tp,
        FaultKind::OutOfRange,
        b"v 9 1000001",
        "`v T X` is the next step of the timetable of kind speeds, trips or points before it: times T rise, speeds X are at most 1000000, and no T + X is less than the one before (see `earliest formats`)",
    ),
    (
        FileWord::Tp,
        FaultKind::UnknownLine,
        b"x",
        "a file of timetables (.tp) has a line `p tp K T`, then lines `k J KIND ..`, `t E J` and `v T X`; comments begin with c",
    ),
    (
        FileWord::Tp,
        FaultKind::TooFewLines,
        b"t 9 1",
        "a line `v T X` is due here: the timetable of kind speeds, trips or points before it announces N of them, which come before any other line",
    ),
    (
        FileWord::Tp,
        FaultKind::TooManyLines,
        b"v 0 1",
        "no line `v T X` is due here: the timetable before it has all N that it announces, or its kind has none",
    ),
    (
        FileWord::Report,
        FaultKind::UnknownLine,
        b"d 1 2",
        "see `earliest run --help` for the lines of a report",
    ),
    (
        FileWord::Out,
        FaultKind::NoProblemLine,
        b"",
        "see `earliest run --help` for the lines of a report",
    ),
    (
        FileWord::Gr,
        FaultKind::BadKind,
        b"p aux sp ss 1",
        "this looks like a file of sources (.ss), which is the second file: earliest run GR SS",
    ),
    (
        FileWord::Ss,
        FaultKind::BadKind,
        b"p sp 3 2",
        "this looks like a network (.gr), which is the first file: earliest run GR SS",
    ),
    (
        FileWord::Ss,
        FaultKind::BadKind,
        b"p aux sp p2p 2",
        "this looks like a file of pairs (.p2p), which is the second file: earliest pairs GR P2P",
    ),
    (
        FileWord::P2p,
        FaultKind::BadKind,
        b"p tp 3 2",
        "this looks like a file of timetables (.tp), which --tp names: --tp FILE",
    ),
    (
        FileWord::Tp,
        FaultKind::BadKind,
        b"p tp 3 2",
        "the problem line is `p tp K T`: K timetables, 0 to 65535, and T lines `t E J`, 0 to 268435456",
    ),
    (
        FileWord::Ss,
        FaultKind::SecondProblemLine,
        b"p aux sp ss 1",
        "a file has one problem line: two files may have been joined here",
    ),
    (
        FileWord::Gr,
        FaultKind::TooManyLines,
        b"a 1 2 3",
        "there are more lines of this sort than the problem line announces: count them and mend its number",
    ),
    (
        FileWord::Gr,
        FaultKind::TooFewLines,
        b"",
        "there are fewer lines than the problem line announces: the file was cut short, or the number is wrong",
    ),
    (
        FileWord::Gr,
        FaultKind::OutOfMemory,
        b"",
        "there was not enough memory for the file",
    ),
];

/// The index of the first line with another text.
fn wrong_line() -> Option<usize> {
    for (place, (file, kind, line, text)) in WANTED.iter().enumerate() {
        if wanted_of_line(*file, *kind, line) != *text {
            return Some(place);
        }
    }
    None
}

#[test]
fn wanted_lines(rt: HostRuntime) {
    assert_none_wrong(&rt, wrong_line());
}

/// The advice for each guess.
const ADVICE: [(Encoding, &str); 5] = [
    (
        Encoding::Gzip,
        "this looks like a gzip file: zcat it into -, as in `zcat FILE | earliest run - starts.ss`",
    ),
    (
        Encoding::Zstd,
        "this looks like a zstd file: zstdcat it into -, as in `zstdcat FILE | earliest run - starts.ss`",
    ),
    (
        Encoding::Marked,
        "the file begins with a byte-order mark: save it as UTF-8 without one, or as ASCII",
    ),
    (
        Encoding::Wide,
        "this looks like UTF-16: save it as UTF-8 without a byte-order mark, or as ASCII",
    ),
    (
        Encoding::OldMac,
        "its lines end in carriage returns alone, as on old Macs: save it with line feeds",
    ),
];

/// The index of the first guess with another advice.
fn wrong_advice() -> Option<usize> {
    for (place, (encoding, text)) in ADVICE.iter().enumerate() {
        if encoding.advice() != *text {
            return Some(place);
        }
    }
    None
}

#[test]
fn advice_on_encodings(rt: HostRuntime) {
    assert_none_wrong(&rt, wrong_advice());
}

/// The reasons for the system's errors.
const REASONS: [(ErrorKind, &str); 15] = [
    (ErrorKind::NotFound, "there is no such file"),
    (ErrorKind::PermissionDenied, "there is no permission"),
    (ErrorKind::IsADirectory, "it is a directory"),
    (
        ErrorKind::NotADirectory,
        "a part of its path is no directory",
    ),
    (ErrorKind::StorageFull, "no space is left on the device"),
    (ErrorKind::QuotaExceeded, "the quota of the disk is used up"),
    (ErrorKind::FileTooLarge, "the file would be too large"),
    (
        ErrorKind::ReadOnlyFilesystem,
        "the file system can't be written",
    ),
    (ErrorKind::InvalidFilename, "the name is too long"),
    (ErrorKind::InvalidInput, "the name can't be a file's"),
    (ErrorKind::TooManyLinks, "its links lead in a circle"),
    (ErrorKind::FilesystemLoop, "its links lead in a circle"),
    (ErrorKind::BrokenPipe, "nobody reads it any more"),
    (ErrorKind::Other, "the system refuses it"),
    (ErrorKind::TimedOut, "the system refuses it"),
];

/// The index of the first error with another reason.
fn wrong_reason() -> Option<usize> {
    for (place, (kind, text)) in REASONS.iter().enumerate() {
        if reason_of(*kind) != *text {
            return Some(place);
        }
    }
    None
}

#[test]
fn reasons_of_the_system(rt: HostRuntime) {
    assert_none_wrong(&rt, wrong_reason());
}
