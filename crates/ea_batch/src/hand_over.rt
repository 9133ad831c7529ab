//! Passing drafts from the threads that make them to the one that sends them.
ghost use Rattle.ea_batch.specs.Drafts.{AreDraftsAt, IsFit, IsFor};
ghost use Rattle.ea_report.specs.Asked.{shape_of};
ghost use Rattle.std.specs.Prelude.{IfSome};

use crate::draft::{Job, Made};
use crossbeam_deque::protocol::{Outcome, Protocol};
use crossbeam_deque::{Steal, Stealer, Worker};
use std::alloc::Global;
use std::marker::{Brand, PhantomData};

/// Names, for contracts, the drafts of the problem with a number, from 0.
pub(crate) trait Asks: Send + Sync {
    ghost use Rattle.std.specs.Prelude.{ℕ};
    ghost use Rattle.ea_batch.specs.declared.draft.Draft.{Draft};

    ghost fits: { ℕ → Draft → Type 0 };
}

// A placeholder until a call picks its problems.
impl Asks for Brand {
    ghost fits = { λ number draft. ⊥ };
}

/// The condition on passed drafts: they belong to the problems that are asked.
pub(crate) struct Fitting<J>(PhantomData<J>);

impl<J: Asks> Protocol<Made, ()> for Fitting<J> {
    ghost use Rattle.std.specs.Prelude.{All};
    ghost use Rattle.ea_batch.specs.Drafts.{IsFit};

    ghost holds = { λ items views. All (IsFit J.fits) items };

    ghost first = { tt };

    ghost guest = { tt };
}

/// The giver learns nothing.
struct Gives;

impl Outcome<Made, ()> for Gives {
    ghost then = { λ before items after. Unit {0} };
}

/// The taker learns that the drafts belong to the problems.
struct Gets<J>(PhantomData<J>);

impl<J: Asks> Outcome<Made, ()> for Gets<J> {
    ghost use Rattle.std.specs.Prelude.{All};
    ghost use Rattle.ea_batch.specs.Drafts.{IsFit};

    ghost then = { λ before items after. All (IsFit J.fits) items };
}

/// The end at which a thread leaves its drafts.
pub(crate) type Giver<J> = Worker<Made, Global, (), Fitting<J>>;

/// The end at which another thread finds them.
pub(crate) type Taker<J> = Stealer<Made, Global, (), Fitting<J>>;

/// Leaves drafts of a job for the sending thread. Returns false if memory was refused.
pub(crate) fn give<J: Asks>(giver: &mut Giver<J>, job: Job<'_>, made: Made) -> bool
    requires named { IsFor J.fits job }
    requires drafts { AreDraftsAt (shape_of job.shown) job.road.now job.queries.now
        made.from made.drafts.items }
{
    giver.push_as::<Gives>(made).is_ok()
}

/// Takes drafts of a job that were left there, if there are any.
pub(crate) fn get<J: Asks>(taker: &Taker<J>, job: Job<'_>) -> Option<Made>
    requires named { IsFor J.fits job }
    ensures { IfSome result (λ made. AreDraftsAt (shape_of job.entry.shown) job.entry.road.now
        job.entry.queries.now made.from made.drafts.items) }
{
    let mut pass = taker.pass();
    match taker.steal_as::<Gets<J>>(&mut pass) {
        Steal::Success(made) => Some(made),
        Steal::Empty | Steal::Retry => None,
    }
}
