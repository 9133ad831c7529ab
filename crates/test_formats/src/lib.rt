//! Tests of what is read: texts, the files, the command line, explanations.
#![tactic(auto)]

#[cfg(test)]
mod asserts;
#[cfg(test)]
mod explained;
#[cfg(test)]
mod readers;
#[cfg(test)]
mod streams;
#[cfg(test)]
mod table_pieces;
#[cfg(test)]
mod texts;
#[cfg(test)]
mod words;
