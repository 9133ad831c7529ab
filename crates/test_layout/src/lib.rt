//! Tests of layouts: answers of random networks compared with those of plain searches.
#![tactic(auto)]

#[cfg(test)]
mod answers;
#[cfg(test)]
mod compared;
#[cfg(test)]
mod large;
#[cfg(test)]
mod random;
