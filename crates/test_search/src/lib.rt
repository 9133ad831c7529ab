//! Tests of networks, travel times, and searches of one thread.
#![tactic(auto)]

#[cfg(test)]
mod alone;
#[cfg(test)]
mod asked;
#[cfg(test)]
mod asserts;
#[cfg(test)]
mod constants;
#[cfg(test)]
mod latest;
#[cfg(test)]
mod latest_at_random;
#[cfg(test)]
mod networks;
#[cfg(test)]
mod refused;
#[cfg(test)]
mod roads;
#[cfg(test)]
mod searched;
#[cfg(test)]
mod slow_walks;
#[cfg(test)]
mod steps;
#[cfg(test)]
mod traps;
