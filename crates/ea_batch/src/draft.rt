//! Drafts: reports of problems that several threads make before their turn.
ghost use Rattle.std.specs.Prelude.{◌≡◌, [], IfSome, Some, slice_get};
ghost use Rattle.ea_road.specs.Queries.{Asking};
ghost use Rattle.ea_batch.specs.Arrays.{IsAided};
ghost use Rattle.ea_batch.specs.Drafts.{AreDraftsAt, IsDraftOf, MayMake};
ghost use Rattle.ea_batch.specs.Reportable.{IsReportable};
ghost use Rattle.ea_batch.specs.Solved.{Serves};
ghost use Rattle.ea_report.specs.Asked.{shape_of};

use crate::one_search::search;
use crate::search_road::SearchRoad;
use crate::searching::{Aids, Searching};
use crate::sheet::Sheet;
use crossbeam_deque::{Steal, Stealer, Worker};
use ea_report::{ReportOptions, write_problem};
use ea_road::Query;
use std::alloc::{AllocError, Global};

/// The draft of a problem.
#[derive(Drop)]
pub(crate) enum Draft {
    /// None: there is no such problem, memory was refused, or an earlier problem was too long.
    Nothing,
    /// The text of its report.
    Text(Vec<u8>),
    /// The search with its answer, since the text is too long to be kept.
    Answer(Searching),
}

/// How drafts are made.
#[derive(Clone, Copy)]
pub(crate) struct Plan {
    /// The number of problems that a thread takes at once.
    pub part: usize,
    /// The most problems that are taken before the first of them is sent.
    pub ahead: usize,
    /// The bytes that are reserved for a report at first.
    pub room: usize,
    /// The most bytes of a report that are kept.
    pub most: usize,
}

/// Problems on a road, and how their drafts are made.
#[derive(Clone, Copy)]
pub(crate) struct Job<'a> {
    pub alloc: Global,
    pub road: &'a SearchRoad<'a>,
    /// What searches may use.
    pub aids: Aids<'a>,
    pub queries: &'a [Query],
    /// What the reports show.
    pub shown: ReportOptions<'a>,
    pub plan: Plan,
    /// The source of memory from texts that were sent.
    pub spare: &'a Stealer<Vec<u8>>,
}

/// A queue for the memory of texts that were sent, and its other end. Fails only if memory is refused.
pub(crate) fn memory_of_texts(
    alloc: Global,
) -> Result<(Worker<Vec<u8>>, Stealer<Vec<u8>>), AllocError> {
    let used = Worker::new_lifo(alloc, 16)?;
    let spare = used.stealer()?;
    Ok((used, spare))
}

/// Memory for a text: that of a text that was sent, else new memory, or none yet if that is refused.
fn take_memory(job: Job<'_>) -> Vec<u8> {
    match job.spare.steal() {
        Steal::Success(memory) => memory,
        _ => match Vec::with_capacity(job.alloc, job.plan.room) {
            Ok(memory) => memory,
            Err(_) => Vec::new(job.alloc),
        },
    }
}

/// Makes the draft of a problem on the arrays of the last search, if there was one. They stay in `last`
/// unless they become the draft. A text reuses the memory of an earlier one.
fn make_draft(job: Job<'_>, query: &Query, last: &mut Option<Searching>) -> Draft
    requires reportable { IsReportable job.road.now (shape_of job.shown) query.now }
    requires aided { IsAided job.road.now job.shown.style.walks last.old job.aids }
    ensures draft { IsDraftOf (shape_of job.entry.shown) job.entry.road.now query.now result }
    ensures search { IfSome last.new (Serves job.entry.road.now.network job.entry.shown.style.walks) }
{
    let Job {
        alloc,
        road,
        aids,
        plan,
        shown,
        ..
    } = job;
    let found = match search(alloc, road, aids, query, shown, last.take()) {
        Ok(found) => found,
        Err(_) => return Draft::Nothing,
    };
    let mut sheet = Sheet::over(take_memory(job), plan.most);
    match write_problem(
        alloc,
        road.network(),
        query,
        found.answer(),
        shown,
        &mut sheet,
    ) {
        Ok(_) => {
            drop(last.replace(found));
            Draft::Text(sheet.text)
        }
        Err(_) => Draft::Answer(found),
    }
}

/// Makes the draft of the problem with this number, from 0, if there is one. Except for the first of a part,
/// only if arrays are left.
fn make_draft_at(job: Job<'_>, at: usize, is_first: bool, last: &mut Option<Searching>) -> Draft
    requires { MayMake job last.old }
    ensures draft { (query : Asking) → slice_get job.entry.queries.now at ≡ Some query
        → IsDraftOf (shape_of job.entry.shown) job.entry.road.now query result }
    ensures search { IfSome last.new (Serves job.entry.road.now.network job.entry.shown.style.walks) }
{
    match job.queries.get(at) {
        Some(query) => {
            if is_first || last.is_some() {
                make_draft(job, query, last)
            } else {
                Draft::Nothing
            }
        }
        None => Draft::Nothing,
    }
}

/// Drafts of the problems from one on, counted from 0, in their order.
#[derive(Drop)]
pub(crate) struct Made {
    pub from: usize,
    pub drafts: Vec<Draft>,
}

/// Problems from one up to but excluding another, counted from 0.
#[derive(Clone, Copy)]
pub(crate) struct Span {
    pub from: usize,
    pub to: usize,
}

/// Makes the drafts of problems in their order, on the arrays of the last search, if there was one. Stops
/// after a draft that is too long to be kept, or if memory for the list is refused.
pub(crate) fn make_drafts(job: Job<'_>, span: Span, last: &mut Option<Searching>) -> Made
    requires { MayMake job last.old }
    ensures drafts { AreDraftsAt (shape_of job.entry.shown) job.entry.road.now
        job.entry.queries.now result.from result.drafts.items }
    ensures search { IfSome last.new (Serves job.entry.road.now.network job.entry.shown.style.walks) }
{
    let mut made = Made {
        from: span.from,
        drafts: room_for(job, span),
    };
    for at in span.from..span.to {
        let draft = make_draft_at(job, at, at == span.from, last);
        if let Err(refused) = made.drafts.push(draft) {
            drop(refused);
            return made;
        }
    }
    made
}

/// A list with room for the drafts of problems, or without room if memory is refused.
fn room_for(job: Job<'_>, span: Span) -> Vec<Draft>
    ensures { result.items ≡ [] }
{
    match Vec::with_capacity(job.alloc, span.to.saturating_sub(span.from)) {
        Ok(drafts) => drafts,
        Err(_) => Vec::new(job.alloc),
    }
}
