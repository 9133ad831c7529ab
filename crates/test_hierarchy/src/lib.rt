//! Tests of prepared roads: bounds and least arrivals compared with those of plain searches.
#![tactic(auto)]

#[cfg(test)]
mod asked;
#[cfg(test)]
mod bounds;
#[cfg(test)]
mod near;
#[cfg(test)]
mod orders;
#[cfg(test)]
mod pairs;
#[cfg(test)]
mod random;
#[cfg(test)]
mod streets;
