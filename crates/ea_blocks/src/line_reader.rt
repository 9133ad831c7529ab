//! Reading texts line by line.
ghost use Rattle.std.specs.Prelude.{◌≡◌, ◌<◌, ◌≤◌, ◌+◌, ◌^◌, ℕ, List, IfOk, Result, MatchOption, map, length, take};
ghost use Rattle.std.specs.Str.Lines.{strip_carriage_return};
ghost use Rattle.ea_blocks.specs.Fault.{Gives};
ghost use Rattle.ea_blocks.specs.Reading.{GivesLine, ReadsAll, ReadsFront, lines_after, text_after};
ghost use Rattle.ea_bytes.specs.Text.{fields_of, field_lines};
ghost use Rattle.ea_blocks.specs.declared.fault.FaultKind.{FaultKind as FaultKindType};
ghost use Rattle.ea_blocks.specs.Borrowed.{texts_now};

use crate::fault::{FaultKind, InputFault, fault_in};
use ea_bytes as text;
use std::alloc::Global;

/// A reader of a text, line by line.
pub trait LineReader: Drop {
    /// The result of reading the whole text.
    type Text;

    /// What a text denotes.
    ghost Denoted: { Type 0 };

    ghost view: { Self.Text → Denoted };

    /// What the lines so far say.
    ghost State: { Type 0 };

    ghost state: { Self → State };

    /// The state after one more line, or that line's fault.
    ghost step: { State → List (List ℕ) → Result State FaultKindType };

    /// Reads the fields of one more line.
    fn read_fields(&mut self, fields: &[&[u8]]) -> Result<(), FaultKind>
        ensures { GivesLine (λ _. state self.new) result
            (step (state self.old) (texts_now fields.now)) };

    /// Fast path: reads the first line of a text if it is in the plain form of most lines of the file.
    /// Returns None otherwise.
    fn read_plain<'a>(&mut self, _text: &'a [u8]) -> Option<Result<&'a [u8], FaultKind>>
        ensures { MatchOption result (state self.new ≡ state self.old)
            (λ read. ReadsFront step _text.entry.now (state self.old) (state self.new) read) }
    {
        None
    }

    /// What the text denotes if it ends here, or its fault.
    ghost end: { State → Result Denoted FaultKindType };

    /// Ends the text.
    fn finish(self) -> Result<Self::Text, FaultKind>
        ensures { GivesLine view result (end (state self)) };

    /// No line needs more than its first seven fields.
    ghost front: { (before : State) (fields : List (List ℕ)) → step before (take 7 fields)
        ≡ step before fields };
}

/// Reads one more line.
fn read_line<R: LineReader>(alloc: Global, reader: &mut R, line: &[u8]) -> Result<(), FaultKind>
    ensures { GivesLine (λ _. R.state reader.new) result
        (R.step (R.state reader.old) (fields_of (strip_carriage_return line.now))) }
{
    let fields = text::fields(alloc, text::without_return(line));
    reader.read_fields(fields.as_slice())
}

/// Reads the first line of a text, and returns the bytes after it.
pub fn read_front<'a, R: LineReader>(
    alloc: Global,
    reader: &mut R,
    text: &'a [u8],
) -> Result<&'a [u8], FaultKind>
    requires { 0 < length text.now }
    ensures { ReadsFront R.step text.entry.now (R.state reader.old) (R.state reader.new) result }
{
    if let Some(read) = reader.read_plain(text) {
        return read;
    }
    let (line, rest) = text::first_line(text);
    match read_line(alloc, reader, line) {
        Ok(()) => Ok(rest),
        Err(kind) => Err(kind),
    }
}

/// Reads all lines of a text after this many lines before it. Returns the number of lines before what
/// follows.
pub fn read_lines<R: LineReader>(
    alloc: Global,
    reader: &mut R,
    before: u64,
    text: &[u8],
) -> Result<u64, InputFault>
    requires few { before + length text.now < 2 ^ 64 }
    ensures { ReadsAll R.step R.state before reader.old reader.new text.now result }
{
    let mut line = before;
    let mut rest = text;
    while !rest.is_empty() {
        line += 1;
        match read_front(alloc, reader, rest) {
            Ok(after) => rest = after,
            Err(kind) => return Err(fault_in(line, kind)),
        }
    }
    Ok(line)
}

/// Reads a whole text.
pub fn read_text<R: LineReader>(alloc: Global, start: R, text: &[u8]) -> Result<R::Text, InputFault>
    ensures { Gives R.view result (text_after R.step R.end (R.state start) (field_lines text.now)) }
{
    let mut reader = start;
    match read_lines(alloc, &mut reader, 0, text) {
        Err(fault) => Err(fault),
        Ok(_) => match reader.finish() {
            Ok(read) => Ok(read),
            Err(kind) => Err(fault_in(0, kind)),
        },
    }
}
