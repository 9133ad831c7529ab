//! Tests of these calls where memory is refused.
#![tactic(auto)]

#[cfg(test)]
mod answers;
#[cfg(test)]
mod checks;
#[cfg(test)]
mod counts;
#[cfg(test)]
mod devices;
#[cfg(test)]
mod given;
#[cfg(test)]
mod held;
#[cfg(test)]
mod ranks;
#[cfg(test)]
mod words;
