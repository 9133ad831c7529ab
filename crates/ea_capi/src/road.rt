//! Roads of C: made from texts or lists, laid out, prepared, turned round, counted, freed.

pub mod arc_lists;
pub mod laid_out;
pub mod prepared;
pub mod roads;
pub mod turned;
