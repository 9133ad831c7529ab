//! Tests of labels and heaps, for one thread and shared.
#![tactic(auto)]

#[cfg(test)]
mod asserts;
#[cfg(test)]
mod heaps;
#[cfg(test)]
mod labels;
#[cfg(test)]
mod pools;
#[cfg(test)]
mod refused;
