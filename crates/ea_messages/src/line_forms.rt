//! The required form of a line, given the line at fault.
use ea_blocks::FaultKind;
use ea_bytes::first_field;
use ea_load::FileWord;

const GR_PROBLEM: &str =
    "the problem line is `p sp N M`: N nodes, 1 to 67108864, and M arcs, 0 to 268435456";

const GR_ARC: &str =
    "an arc needs tail, head and weight: `a U V W`; U and V are nodes, 1 to N of the problem line, and W is 0 to 4294967295";

const GR_EDGE: &str =
    "`e` lines are edges of other formats: write each as an arc `a U V W`, and as two where it goes both ways";

const GR_LINES: &str =
    "a network (.gr) has a line `p sp N M`, then M lines `a U V W`; comments begin with c";

const SS_PROBLEM: &str = "the problem line is `p aux sp ss N`: N sources, 0 to 1000000";

const SS_SOURCE: &str =
    "a source is a node: `s S`; S is 1 to the network's number of nodes, and 0 is none";

const SS_LINES: &str =
    "a file of sources (.ss) has a line `p aux sp ss N`, then N lines `s S`; comments begin with c";

const P2P_PROBLEM: &str = "the problem line is `p aux sp p2p N`: N pairs, 0 to 1000000";

const P2P_PAIR: &str =
    "a pair needs source and target: `q S T`; both are nodes, 1 to the network's number of nodes";

const P2P_LINES: &str =
    "a file of pairs (.p2p) has a line `p aux sp p2p N`, then N lines `q S T`; comments begin with c";

const TP_PROBLEM: &str =
    "the problem line is `p tp K T`: K timetables, 0 to 65535, and T lines `t E J`, 0 to 268435456";

const TP_KIND: &str =
    "a timetable is `k J KIND ..`, J counting from 1: plain; every P O; closed B E; rush B E X; speeds P N; trips P N; points P N (see `earliest formats`)";

const TP_ARC: &str =
    "`t E J` gives arc E timetable J; E is 1 to the network's number of arcs, and J is 0 to K of the problem line";

const TP_VALUE: &str =
    "`v T X` is the next step of the timetable of kind speeds, trips or points before it: times T rise, speeds X are at most 1000000, and no T + X is less than the one before (see `earliest formats`)";

const TP_DUE: &str =
    "a line `v T X` is due here: the timetable of kind speeds, trips or points before it announces N of them, which come before any other line";

const TP_UNDUE: &str =
    "no line `v T X` is due here: the timetable before it has all N that it announces, or its kind has none";

const TP_LINES: &str =
    "a file of timetables (.tp) has a line `p tp K T`, then lines `k J KIND ..`, `t E J` and `v T X`; comments begin with c";

const TIMES_PROBLEM: &str =
    "the problem line is `p aux sp at N`: N times, exactly as many as there are sources or pairs";

const TIMES_TIME: &str =
    "a time is `t D`: a whole number, 0 to 281474976710655, for the source or pair of the same number";

const TIMES_LINES: &str =
    "a file of times has a line `p aux sp at N`, then N lines `t D`, one for each source or pair; comments begin with c";

/// The lines that a file has.
fn lines_of(file: FileWord) -> &'static str {
    match file {
        FileWord::Gr => GR_LINES,
        FileWord::Ss | FileWord::Nodes => SS_LINES,
        FileWord::P2p => P2P_LINES,
        FileWord::Tp => TP_LINES,
        FileWord::Times => TIMES_LINES,
        FileWord::Report | FileWord::Out => "see `earliest run --help` for the lines of a report",
    }
}

/// The problem line of a file.
fn problem_of(file: FileWord) -> &'static str {
    match file {
        FileWord::Gr => GR_PROBLEM,
        FileWord::Ss | FileWord::Nodes => SS_PROBLEM,
        FileWord::P2p => P2P_PROBLEM,
        FileWord::Tp => TP_PROBLEM,
        FileWord::Times => TIMES_PROBLEM,
        FileWord::Report | FileWord::Out => lines_of(file),
    }
}

/// The form of a line whose first field is one letter.
fn shape_of(file: FileWord, letter: u8) -> &'static str {
    match letter {
        b'p' => problem_of(file),
        b'a' if file == FileWord::Gr => GR_ARC,
        b'e' if file == FileWord::Gr => GR_EDGE,
        b's' if file == FileWord::Ss || file == FileWord::Nodes => SS_SOURCE,
        b'q' if file == FileWord::P2p => P2P_PAIR,
        b'k' if file == FileWord::Tp => TP_KIND,
        b't' if file == FileWord::Tp => TP_ARC,
        b't' if file == FileWord::Times => TIMES_TIME,
        b'v' if file == FileWord::Tp => TP_VALUE,
        _ => lines_of(file),
    }
}

/// The form of a line, by its first field.
fn shape_of_line(file: FileWord, line: &[u8]) -> &'static str {
    match first_field(line) {
        Some(([letter], _)) => shape_of(file, *letter),
        _ => lines_of(file),
    }
}

/// The file to which a problem line belongs, if its words say.
fn file_of_problem(line: &[u8]) -> Option<FileWord> {
    let (_, rest) = first_field(line)?;
    let (kind, rest) = first_field(rest)?;
    if kind == b"sp".as_slice() {
        return Some(FileWord::Gr);
    }
    if kind == b"tp".as_slice() {
        return Some(FileWord::Tp);
    }
    let (_, rest) = first_field(rest)?;
    let (kind, _) = first_field(rest)?;
    if kind == b"at".as_slice() {
        Some(FileWord::Times)
    } else if kind == b"ss".as_slice() {
        Some(FileWord::Ss)
    } else if kind == b"p2p".as_slice() {
        Some(FileWord::P2p)
    } else {
        None
    }
}

/// What is said of a kind word other than the required one.
fn kind_wanted(file: FileWord, line: &[u8]) -> &'static str {
    match file_of_problem(line) {
        Some(FileWord::Gr) =>
            "this looks like a network (.gr), which is the first file: earliest run GR SS",
        Some(FileWord::Ss) if file != FileWord::Nodes =>
            "this looks like a file of sources (.ss), which is the second file: earliest run GR SS",
        Some(FileWord::P2p) =>
            "this looks like a file of pairs (.p2p), which is the second file: earliest pairs GR P2P",
        Some(FileWord::Tp) if file != FileWord::Tp =>
            "this looks like a file of timetables (.tp), which --tp names: --tp FILE",
        Some(FileWord::Times) if file != FileWord::Times =>
            "this looks like a file of times, which --departs or --arrives names: --departs FILE",
        _ => shape_of_line(file, line),
    }
}

/// What was required in place of a line at fault; if the line is number 0 and empty, in place of the whole
/// text.
pub fn wanted_of_line(file: FileWord, kind: FaultKind, line: &[u8]) -> &'static str {
    match kind {
        FaultKind::NoProblemLine => problem_of(file),
        FaultKind::SecondProblemLine =>
            "a file has one problem line: two files may have been joined here",
        FaultKind::UnknownLine | FaultKind::FieldCount | FaultKind::OutOfRange => shape_of_line(
            file, line,
        ),
        FaultKind::BadNumber => match first_field(line) {
            Some((b"p", _)) => problem_of(file),
            _ => shape_of_line(file, line),
        },
        FaultKind::TooManyLines => match first_field(line) {
            Some((b"v", _)) => TP_UNDUE,
            _ =>
                "there are more lines of this sort than the problem line announces: count them and mend its number",
        },
        FaultKind::TooFewLines if line.is_empty() =>
            "there are fewer lines than the problem line announces: the file was cut short, or the number is wrong",
        FaultKind::TooFewLines => TP_DUE,
        FaultKind::BadKind => kind_wanted(file, line),
        FaultKind::OutOfMemory => "there was not enough memory for the file",
    }
}
