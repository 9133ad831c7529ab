//! Reports of problems that one thread answers.
ghost use Rattle.std.specs.Prelude.{◌≡◌, ◌≤◌, ◌<◌, ◌+◌, ◌*◌, ◌^◌, Some};
ghost use Rattle.ea_base.specs.declared.limits.TheConstants.{MOST_STARTS};
ghost use Rattle.ea_load.specs.Faults;
ghost use Rattle.ea_batch.specs.Arrays.{CanReport, HasSentNothing, KeepsArrays, StaysAided};
ghost use Rattle.ea_batch.specs.Reportable.{IsReportable};
ghost use Rattle.ea_batch.specs.Sending.{SendsReport};
ghost use Rattle.ea_batch.specs.Solved.{Solves};
ghost use Rattle.ea_report.specs.Asked.{chosen_by, shape_of};

use crate::one_search::search;
use crate::search_road::SearchRoad;
use crate::searching::{Aids, Searching};
use crossbeam_deque::Worker;
use ea_bytes::ByteOut;
use ea_load::AnswerFault;
use ea_paths::Answer;
use ea_report::{ReportOptions, WriteFault, WriteFaultKind, write_problem};
use ea_road::Query;
use std::alloc::Global;

/// What was sent so far, and the arrays of the last search by one thread.
#[derive(Drop)]
pub struct Progress<'a> {
    /// The number of bytes sent.
    pub written: u128,
    /// The last search, whose arrays the next one reuses.
    pub search: Option<Searching>,
    /// What searches may use.
    pub aids: Aids<'a>,
    /// A queue for the memory of sent texts, if others make texts.
    pub(crate) used: Option<Worker<Vec<u8>>>,
}

impl<'a> Progress<'a> {
    /// Nothing sent yet. The memory of sent texts goes to `used`, if others make texts.
    pub fn begin(aids: Aids<'a>, used: Option<Worker<Vec<u8>>>) -> Progress<'a>
        ensures { HasSentNothing aids.entry result }
    {
        Progress {
            written: 0,
            search: None,
            aids,
            used,
        }
    }
}

/// The fault of a call, from the fault of one problem's report and the number of bytes sent before.
pub(crate) fn fault_after(before: u128, fault: WriteFault) -> AnswerFault
    requires { before + fault.written < 2 ^ 128 }
    ensures { result ≡ Faults.fault_after before fault }
{
    let written = before + fault.written;
    match fault.kind {
        WriteFaultKind::WriteFailed => AnswerFault::Write { written },
        WriteFaultKind::OutOfMemory => AnswerFault::OutOfMemory { written },
    }
}

impl Progress<'_> {
    /// Writes the report of an answered problem.
    pub fn write<W: ByteOut>(
        &mut self,
        alloc: Global,
        road: &SearchRoad<'_>,
        query: &Query,
        answer: &Answer,
        shown: ReportOptions<'_>,
        out: &mut W,
    ) -> Result<(), AnswerFault>
        requires reportable { IsReportable road.now (shape_of shown) query.now }
        requires room { self.old.written ≤ MOST_STARTS * 2 ^ 90 }
        requires solves { Solves (chosen_by shown) shown.style.walks road.now query.now answer.now }
        ensures sends { SendsReport (shape_of shown.entry) road.now query.now
            (W.seen out.old) (W.seen out.new) self.old.written self.new.written result }
        ensures kept { KeepsArrays self.old self.new }
    {
        match write_problem(alloc, road.network(), query, answer, shown, out) {
            Ok(written) => {
                self.written += written;
                Ok(())
            }
            Err(fault) => Err(fault_after(self.written, fault)),
        }
    }

    /// Keeps the arrays of a search for the next one.
    pub(crate) fn keep_search(&mut self, found: Searching)
        ensures { self.new ≡ record self.old { search = Some found } }
    {
        drop(self.search.replace(found));
    }

    /// Finds the answer of a problem by one thread, on the arrays of the last search, and writes its report.
    pub fn report_alone<W: ByteOut>(
        &mut self,
        alloc: Global,
        road: &SearchRoad<'_>,
        query: &Query,
        shown: ReportOptions<'_>,
        out: &mut W,
    ) -> Result<(), AnswerFault>
        requires reportable { IsReportable road.now (shape_of shown) query.now }
        requires can { CanReport road.now shown.style.walks self.old }
        ensures sends { SendsReport (shape_of shown.entry) road.now query.now
            (W.seen out.old) (W.seen out.new) self.old.written self.new.written result }
        ensures aided { StaysAided road.now shown.entry.style.walks self.old self.new }
    {
        let last = self.search.take();
        match search(alloc, road, self.aids, query, shown, last) {
            Ok(found) => {
                let sent = self.write(alloc, road, query, found.answer(), shown, out);
                self.keep_search(found);
                sent
            }
            Err(_) => Err(AnswerFault::OutOfMemory {
                written: self.written,
            }),
        }
    }
}
