//! How threads that make reports share the problems.

use crate::draft::{Job, Span};
use std::sync::atomic::AtomicUsize;
use std::sync::atomic::Ordering::SeqCst;

/// Which problems are taken, how far sending is, and how many threads make reports. It saves time only: no
/// output depends on it, since a missing draft is made at its turn.
#[derive(Drop)]
pub(crate) struct Round {
    /// The first problem that is not taken.
    next: AtomicUsize,
    /// The first problem whose report isn't sent.
    sent: AtomicUsize,
    /// How many threads other than the sending one make reports.
    making: AtomicUsize,
}

impl Round {
    /// No problem is taken, and no thread makes reports.
    pub(crate) fn new() -> Round {
        Round {
            next: AtomicUsize::new(0),
            sent: AtomicUsize::new(0),
            making: AtomicUsize::new(0),
        }
    }

    /// This many threads make reports from now on.
    pub(crate) fn begin(&self, threads: usize) {
        self.making.store(threads, SeqCst);
    }

    /// One of them ends.
    pub(crate) fn leave(&self) {
        self.making.fetch_sub(1, SeqCst);
    }

    /// Whether only the sending thread is left to make reports.
    pub(crate) fn is_left(&self) -> bool {
        self.making.load(SeqCst) == 0
    }

    /// Records that the reports of all problems before this one are sent.
    pub(crate) fn tell_sent(&self, sent: usize) {
        self.sent.store(sent, SeqCst);
    }

    /// Marks all problems as taken.
    pub(crate) fn stop(&self) {
        self.next.store(usize::MAX / 2, SeqCst);
    }

    /// Whether no problem is left to take.
    pub(crate) fn is_over(&self, job: Job<'_>) -> bool {
        self.next.load(SeqCst) >= job.queries.len()
    }

    /// Takes the next problems: none if all are taken, or if too many before them are still to be sent.
    pub(crate) fn take(&self, job: Job<'_>) -> Option<Span> {
        let count = job.queries.len();
        let most = self.sent.load(SeqCst).saturating_add(job.plan.ahead);
        if self.next.load(SeqCst) >= most.min(count) {
            return None;
        }
        let from = self.next.fetch_add(job.plan.part, SeqCst);
        if from >= count {
            return None;
        }
        let to = from.saturating_add(job.plan.part).min(count);
        Some(Span { from, to })
    }
}
