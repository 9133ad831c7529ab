//! What a report is written to: a stream, or a file that is put in its place when it is whole.
ghost use Rattle.std.specs.Prelude.{◌≤◌, IfOk, length};

use crate::target::{Goal, goal_of};
use ea_bytes::{ByteOut, Counts, Device, DeviceFault, fault_of, no_faults};
use std::fs::{self, File};
use std::io::{self, ErrorKind, Write};

/// The device that takes a report, and what its fault may be explained by.
#[derive(Drop)]
pub struct Output {
    goal: Goal,
    counts: Counts,
    /// How many bytes it took.
    pub(crate) written: u128,
    /// Why the last write failed.
    pub(crate) refusal: Option<ErrorKind>,
}

impl Output {
    fn to(goal: Goal) -> Output {
        Output {
            goal,
            counts: no_faults(),
            written: 0,
            refusal: None,
        }
    }

    /// Standard output.
    pub fn standard(rt: &HostRuntime) -> Output {
        Output::to(Goal::Output(rt.stdout()))
    }

    /// The file of a name, or standard output if none is named or the name is `-`.
    pub(crate) fn open(rt: &HostRuntime, name: Option<&str>) -> Result<Output, ErrorKind> {
        match name {
            None | Some("-") => Ok(Output::standard(rt)),
            Some(name) => Ok(Output::to(goal_of(rt, name)?)),
        }
    }

    /// Whether the reader of the output has gone.
    pub fn is_left(&self) -> bool {
        self.refusal == Some(ErrorKind::BrokenPipe)
    }

    /// Puts a whole report in its place. If that fails, the part file stays.
    pub(crate) fn put_in_place(&mut self, rt: &HostRuntime) -> Result<(), ErrorKind> {
        match &mut self.goal {
            Goal::Part { file, part, name } => put(rt, file, part, name),
            Goal::InPlace { file, begun } => match emptied(file, begun) {
                Ok(()) => Ok(()),
                Err(error) => Err(error.kind()),
            },
            Goal::Output(_) | Goal::Errors(_) | Goal::Stream(_) => Ok(()),
        }
    }

    /// The part file, if there is one.
    pub(crate) fn part(&self) -> Option<&str> {
        match &self.goal {
            Goal::Part { part, .. } => Some(part.as_str()),
            _ => None,
        }
    }

    /// Leaves the named file as it was.
    pub(crate) fn leave(&self, rt: &HostRuntime) {
        if let Goal::Part { part, .. } = &self.goal {
            let _ = fs::remove_file(rt, part.as_str());
        }
    }
}

/// Gives a part file that the system has taken whole the name of the file, or else copies it there.
fn put(rt: &HostRuntime, file: &File, part: &str, name: &str) -> Result<(), ErrorKind> {
    if let Err(error) = file.sync_all() {
        return Err(error.kind());
    }
    if fs::rename(rt, part, name).is_ok() {
        return Ok(());
    }
    match copied_over(rt, part, name) {
        Ok(()) => {
            let _ = fs::remove_file(rt, part);
            Ok(())
        }
        Err(error) => Err(error.kind()),
    }
}

/// Writes the bytes of a file over those of an existing one, which keeps its owner and its permissions.
fn copied_over(rt: &HostRuntime, part: &str, name: &str) -> io::Result<()> {
    let mut from = File::open(rt, part)?;
    let mut to = File::options().write(true).truncate(true).open(rt, name)?;
    io::copy(&mut from, &mut to)?;
    to.sync_all()
}

/// Empties a file that is written in place, before its first bytes.
fn emptied(file: &File, begun: &mut bool) -> io::Result<()> {
    if !*begun {
        file.set_len(0)?;
        *begun = true;
    }
    Ok(())
}

/// Writes bytes to their stream or file.
fn write_to(goal: &mut Goal, buf: &[u8]) -> io::Result<usize>
    ensures { IfOk result (λ count. count ≤ length buf.now) }
{
    match goal {
        Goal::Output(out) => out.write(buf),
        Goal::Errors(out) => out.write(buf),
        Goal::Stream(file) => file.write(buf),
        Goal::InPlace { file, begun } => {
            emptied(file, begun)?;
            file.write(buf)
        }
        Goal::Part { file, .. } => file.write(buf),
    }
}

impl Device for Output {
    ghost use Rattle.std.specs.Prelude.{None};
    ghost use Rattle.ea_bytes.specs.Device.{Seen};

    ghost seen = { λ o. record { bytes = None; failed = o.counts.failures; interrupted = o.counts.interruptions } };

    fn failures(&self) -> u64 {
        self.counts.failures
    }

    fn interruptions(&self) -> u64 {
        self.counts.interruptions
    }
}

impl ByteOut for Output {
    fn write(&mut self, buf: &[u8]) -> Result<usize, DeviceFault> {
        match write_to(&mut self.goal, buf) {
            Ok(count) if count > 0 || buf.is_empty() => {
                self.written = self.written.saturating_add(count as u128);
                Ok(count)
            }
            Ok(_) => Err(self.counts.count(DeviceFault::Failed)),
            Err(error) => {
                self.refusal = Some(error.kind());
                Err(self.counts.count(fault_of(&error)))
            }
        }
    }
}
