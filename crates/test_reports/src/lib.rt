//! Tests of reports, their checker, and rank errors.
#![tactic(auto)]

#[cfg(test)]
mod asserts;
#[cfg(test)]
mod checked;
#[cfg(test)]
mod large;
#[cfg(test)]
mod ranks;
#[cfg(test)]
mod reports;
#[cfg(test)]
mod streamed;
#[cfg(test)]
mod turning;
