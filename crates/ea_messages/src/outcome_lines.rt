//! Outcomes as a line and an exit status.
ghost use Rattle.std.specs.Prelude.{◌≡◌, ◌≤◌, IfOk, IfErr, length, option_map};
ghost use Rattle.std.specs.List.{flat_map};
ghost use Rattle.ea_messages.specs.Said;
ghost use Rattle.ea_messages.specs.Said.{IsSaid, IsShown, IsUnshown, asked_text, line_of, status_of, plain_line, file_line, text_line, written_line, check_line, command_line, command_status, answer_line, answer_status, input_line, input_status, read_line, read_status, refused_line, refused_status};

use ea_blocks::{FaultKind, InputFault, ReadFault};
use ea_bytes::ByteOut;
use ea_check::CheckFault;
use ea_load::{AnswerFault, FileWord};
use ea_options::CommandFault;
use ea_report::write_pieces;
use itoa::Buffer;

/// An outcome that the program reports beside a report.
#[derive(Drop)]
pub enum Outcome {
    /// The words are refused.
    Command(CommandFault),
    /// A file can't be opened.
    Unopened(FileWord),
    /// The report is not whole.
    Answer(AnswerFault),
    /// The report that was checked is right.
    Accepted,
    /// The report that was checked is refused.
    Check(CheckFault),
}

/// Writes pieces, as far as the device takes them.
fn put<W: ByteOut>(pieces: &[&[u8]], out: &mut W)
    requires { length pieces.now ≤ 1000 }
    ensures { IsSaid (flat_map (λ piece. piece.now) pieces.now) (W.seen out.old)
        (W.seen out.new) }
{
    let _ = write_pieces(pieces, out);
}

/// Writes a line of one message.
fn put_plain<W: ByteOut>(message: &str, out: &mut W)
    ensures { IsSaid (plain_line message.now) (W.seen out.old)
        (W.seen out.new) }
{
    let pieces = [
        b"earliest: ".as_slice(),
        message.as_bytes(),
        b"\n".as_slice(),
    ];
    put(pieces.as_slice(), out);
}

/// Writes the line of a file.
fn put_file<'a, W: ByteOut>(word: &'a str, number: u8, name: &'a str, out: &mut W)
    ensures { IsSaid (file_line word.now number name.now) (W.seen out.old)
        (W.seen out.new) }
{
    let mut buffer = Buffer::new();
    let pieces = [
        b"earliest: ".as_slice(),
        word.as_bytes(),
        b": ".as_slice(),
        buffer.format(number).as_bytes(),
        b" ".as_slice(),
        name.as_bytes(),
        b"\n".as_slice(),
    ];
    put(pieces.as_slice(), out);
}

/// Writes the line of a fault in a line of a file.
fn put_text<'a, W: ByteOut>(word: &'a str, line: u64, number: u8, name: &'a str, out: &mut W)
    ensures { IsSaid (text_line word.now line number name.now) (W.seen out.old)
        (W.seen out.new) }
{
    let mut line_buffer = Buffer::new();
    let mut buffer = Buffer::new();
    let pieces = [
        b"earliest: ".as_slice(),
        word.as_bytes(),
        b" ".as_slice(),
        line_buffer.format(line).as_bytes(),
        b": ".as_slice(),
        buffer.format(number).as_bytes(),
        b" ".as_slice(),
        name.as_bytes(),
        b"\n".as_slice(),
    ];
    put(pieces.as_slice(), out);
}

/// Writes the line of a report that couldn't be written whole.
fn put_written<W: ByteOut>(written: u128, out: &mut W)
    ensures { IsSaid (written_line written) (W.seen out.old)
        (W.seen out.new) }
{
    let mut buffer = Buffer::new();
    let pieces = [
        b"earliest: 12 WriteFailed after ".as_slice(),
        buffer.format(written).as_bytes(),
        b" bytes\n".as_slice(),
    ];
    put(pieces.as_slice(), out);
}

/// Writes the line of a report that is refused at a line.
fn put_verdict<W: ByteOut>(number: u8, name: &str, line: u64, out: &mut W)
    ensures { IsSaid (check_line number name.now line) (W.seen out.old)
        (W.seen out.new) }
{
    let mut buffer = Buffer::new();
    let mut line_buffer = Buffer::new();
    let pieces = [
        b"earliest: check ".as_slice(),
        buffer.format(number).as_bytes(),
        b" ".as_slice(),
        name.as_bytes(),
        b" line ".as_slice(),
        line_buffer.format(line).as_bytes(),
        b"\n".as_slice(),
    ];
    put(pieces.as_slice(), out);
}

/// Says why words are refused.
fn say_command<W: ByteOut>(fault: &CommandFault, out: &mut W) -> u8
    ensures status { result ≡ command_status fault.now }
    ensures line { IsSaid (command_line fault.now) (W.seen out.old)
        (W.seen out.new) }
{
    match fault {
        CommandFault::Words { help, text } => {
            let pieces = [text.as_bytes()];
            put(pieces.as_slice(), out);
            if *help { 0 } else { 2 }
        }
        CommandFault::BadOption => {
            put_plain("14 BadOption", out);
            2
        }
        CommandFault::OutOfMemory => {
            put_plain("13 OutOfMemory", out);
            3
        }
    }
}

/// Says why a file wasn't read.
fn say_read<W: ByteOut>(file: FileWord, fault: ReadFault, out: &mut W) -> u8
    ensures status { result ≡ read_status fault }
    ensures line { IsSaid (read_line file fault) (W.seen out.old)
        (W.seen out.new) }
{
    match fault {
        ReadFault::TooLarge => {
            put_file(file.word(), fault.number(), fault.name(), out);
            1
        }
        ReadFault::ReadFailed => {
            put_file(file.word(), fault.number(), fault.name(), out);
            4
        }
        ReadFault::OutOfMemory => {
            put_plain("13 OutOfMemory", out);
            3
        }
    }
}

/// Says the fault of a file's text.
fn say_input<W: ByteOut>(file: FileWord, fault: InputFault, out: &mut W) -> u8
    ensures status { result ≡ input_status fault.kind }
    ensures line { IsSaid (input_line file fault.line fault.kind) (W.seen out.old)
        (W.seen out.new) }
{
    let kind = fault.kind;
    if kind == FaultKind::OutOfMemory {
        put_plain("13 OutOfMemory", out);
        3
    } else {
        put_text(file.word(), fault.line, kind.number(), kind.name(), out);
        1
    }
}

/// Says why a report is not whole.
fn say_answer<W: ByteOut>(fault: AnswerFault, out: &mut W) -> u8
    ensures status { result ≡ answer_status fault }
    ensures line { IsSaid (answer_line fault) (W.seen out.old)
        (W.seen out.new) }
{
    match fault {
        AnswerFault::Read { file, fault } => say_read(file, fault, out),
        AnswerFault::Input { file, fault } => say_input(file, fault, out),
        AnswerFault::BadOption => {
            put_plain("14 BadOption", out);
            2
        }
        AnswerFault::Write { written } => {
            put_written(written, out);
            4
        }
        AnswerFault::OutOfMemory { .. } => {
            put_plain("13 OutOfMemory", out);
            3
        }
    }
}

/// Says why a report is refused.
fn say_check<W: ByteOut>(fault: CheckFault, out: &mut W) -> u8
    ensures status { result ≡ refused_status fault }
    ensures line { IsSaid (refused_line fault) (W.seen out.old)
        (W.seen out.new) }
{
    let number = fault.number();
    let name = fault.name();
    match fault {
        CheckFault::OutOfMemory => {
            put_plain("13 OutOfMemory", out);
            3
        }
        CheckFault::BadLine(line)
        | CheckFault::NotAttained(line)
        | CheckFault::NotLeast(line)
        | CheckFault::NotCanonical(line) => {
            put_verdict(number, name, line, out);
            5
        }
    }
}

impl Outcome {
    /// The text that was asked for: `ok`, or clap's text for `--help` and the like. None if the outcome is a
    /// fault.
    pub fn asked_text(&self) -> Option<&str>
        ensures { option_map (λ text. text.now) result ≡ asked_text self.now }
    {
        match self {
            Outcome::Accepted => Some("ok\n"),
            Outcome::Command(CommandFault::Words { help: true, text }) => Some(text.as_str()),
            _ => None,
        }
    }
}

/// Writes a text that was asked for, without taking memory.
///
/// Fails with `Write` if a write failed, took none of the bytes left, or was interrupted for the 1,001st
/// time. The fault has the number of bytes written, the first of the text.
pub fn show<W: ByteOut>(text: &str, out: &mut W) -> Result<(), AnswerFault>
    ensures ok { IfOk result (λ done. IsShown text.now (W.seen out.old) (W.seen out.new)) }
    ensures err { IfErr result (IsUnshown text.now (W.seen out.old) (W.seen out.new)) }
{
    let pieces = [text.as_bytes()];
    match write_pieces(pieces.as_slice(), out) {
        Ok(_) => Ok(()),
        Err(fault) => Err(AnswerFault::Write {
            written: fault.written,
        }),
    }
}

/// Writes the line of an outcome, as far as the device takes it, without taking memory. Returns the exit
/// status: 0 for success or help, 1 if a file's text is at fault, 2 for the words, 3 if memory was refused, 4
/// if a file or the output failed, 5 if a report is refused.
pub fn say<W: ByteOut>(outcome: &Outcome, out: &mut W) -> u8
    ensures status { result ≡ status_of outcome.now }
    ensures line { IsSaid (line_of outcome.now) (W.seen out.old)
        (W.seen out.new) }
{
    match outcome {
        Outcome::Command(fault) => say_command(fault, out),
        Outcome::Unopened(file) => {
            put_file(file.word(), 15, "OpenFailed", out);
            4
        }
        Outcome::Answer(fault) => say_answer(*fault, out),
        Outcome::Accepted => {
            let pieces = [b"ok\n".as_slice()];
            put(pieces.as_slice(), out);
            0
        }
        Outcome::Check(fault) => say_check(*fault, out),
    }
}
