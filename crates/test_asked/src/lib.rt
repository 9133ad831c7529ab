//! Tests of searches for some nodes: answers compared with those of plain searches, and how much is looked at.
#![tactic(auto)]

#[cfg(test)]
mod answers;
#[cfg(test)]
mod compared;
#[cfg(test)]
mod counted;
#[cfg(test)]
mod random;
