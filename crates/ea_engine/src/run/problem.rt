//! The problem of a run.

use ea_road::Known;
use std::marker::Brand;

/// Names, for contracts, the problem of a run: its network, the answers of its travel times, and its query.
/// `Known` names the pairs that some walk from a source attains.
pub trait Posed {
    ghost use Rattle.ea_engine.specs.Problems.{Problem};

    ghost problem: { Problem };
}

// A placeholder until a call picks its problem.
impl Posed for Brand {
    ghost use Rattle.ea_engine.specs.Problems.{no_problem};

    ghost problem = { no_problem };
}
