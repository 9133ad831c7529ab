//! The effect of each command, given its files.
ghost use Rattle.ea_options.specs.Limits.{HasLimits};
ghost use Rattle.ea_messages.specs.Named.{HasFiles};
ghost use Rattle.earliest.specs.Performed.{IsPerformed, performed_on};

use crate::answers::{answer_watched, pairs_watched};
use crate::checks::check_watched;
use ea_base::Watch;
use ea_bytes::{ByteIn, ByteOut};
use ea_check::CheckFault;
use ea_load::AnswerFault;
use ea_messages::Opened;
use ea_options::Command;
use ea_rank_command::rank_watched;
use ea_report::Totals;
use std::alloc::Global;
use std::thread::Threads;

/// The result of a command that was carried out.
#[derive(Clone, Copy)]
pub enum Performed {
    /// The report of a run or of pairs was written.
    Reported(Totals),
    /// Rank errors were written.
    Ranked,
    /// A report was checked.
    Checked(Result<(), CheckFault>),
}

/// Carries out a command with these files: a run by `answer`, pairs by `answer_pairs`, rank errors by
/// `rank_report` and a check by `check_report`, each with the command's options. Fails as that call does.
/// Calls the watch with the number of problems done; the output doesn't depend on it.
pub fn perform<H: Threads + Sync, R: ByteIn, W: ByteOut, V: Watch>(
    alloc: Global,
    rt: &H,
    command: &Command<'_>,
    files: &mut Opened<R>,
    out: &mut W,
    watch: &mut V,
) -> Result<Performed, AnswerFault>
    requires limits { HasLimits command.now }
    requires files { HasFiles command.now files.old.report }
    ensures { IsPerformed command.now (performed_on R.seen files.old files.new)
        (W.seen out.old) (W.seen out.new) result }
{
    match command {
        Command::Run { options, .. } => {
            let gr = &mut files.gr;
            match answer_watched(
                alloc,
                rt,
                gr,
                &mut files.starts,
                &mut files.others,
                options,
                out,
                watch,
            ) {
                Ok(totals) => Ok(Performed::Reported(totals)),
                Err(fault) => Err(fault),
            }
        }
        Command::Pairs { options, .. } => {
            let gr = &mut files.gr;
            match pairs_watched(
                alloc,
                rt,
                gr,
                &mut files.starts,
                &mut files.others,
                options,
                out,
                watch,
            ) {
                Ok(totals) => Ok(Performed::Reported(totals)),
                Err(fault) => Err(fault),
            }
        }
        Command::Rank { options, .. } => {
            let gr = &mut files.gr;
            let tp = &mut files.others.tp;
            match rank_watched(alloc, gr, &mut files.starts, tp, options, out, watch) {
                Ok(()) => Ok(Performed::Ranked),
                Err(fault) => Err(fault),
            }
        }
        Command::Check { options, .. } => {
            let gr = &mut files.gr;
            match &mut files.report {
                Some(report) => {
                    match check_watched(
                        alloc,
                        rt,
                        gr,
                        &mut files.starts,
                        &mut files.others,
                        options,
                        report,
                        watch,
                    ) {
                        Ok(verdict) => Ok(Performed::Checked(verdict)),
                        Err(fault) => Err(fault),
                    }
                }
                None => unreachable!(),
            }
        }
        Command::Stored | Command::Explain { .. } | Command::Formats => unreachable!(),
    }
}
