//! Laws of rank errors, as functions that do nothing.
ghost use Rattle.ea_rank.specs.QueueLaws.{KeepKeys, CountSmallerKeys, TellMissingKeys};

/// A rank error is the number of smaller keys in the queue; a key that isn't there has none.
pub fn ranks_count_smaller_keys()
    ensures smaller { CountSmallerKeys }
    ensures missing { TellMissingKeys }
{}

/// If each pop has a rank error, there are as many rank errors as pops, and the pushed keys are the popped
/// ones and those in the queue, as multisets.
pub fn queues_keep_keys()
    ensures { KeepKeys }
{}
