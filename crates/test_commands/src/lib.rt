//! Tests of the calls that the program makes: worked examples, failing devices.
#![tactic(auto)]

#[cfg(test)]
mod asked;
#[cfg(test)]
mod checked_and_ranked;
#[cfg(test)]
mod devices;
#[cfg(test)]
mod progress;
#[cfg(test)]
mod reports;
#[cfg(test)]
mod said;
#[cfg(test)]
mod same_bytes;
#[cfg(test)]
mod statistics;
