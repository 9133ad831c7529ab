//! Tests of runs by several workers.
#![tactic(auto)]

#[cfg(test)]
mod asserts;
#[cfg(test)]
mod batched;
#[cfg(test)]
mod company;
#[cfg(test)]
mod counted;
#[cfg(test)]
mod drawn;
#[cfg(test)]
mod gated;
#[cfg(test)]
mod heaped;
#[cfg(test)]
mod homed;
#[cfg(test)]
mod large;
#[cfg(test)]
mod late;
#[cfg(test)]
mod left;
#[cfg(test)]
mod met;
#[cfg(test)]
mod pairs;
#[cfg(test)]
mod ran;
#[cfg(test)]
mod random;
#[cfg(test)]
mod ranked;
#[cfg(test)]
mod refused;
#[cfg(test)]
mod same;
#[cfg(test)]
mod sources;
