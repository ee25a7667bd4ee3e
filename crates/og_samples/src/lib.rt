//! Short tests of calls that no script can make: the texts and numbers of days, sets of days, the days on
//! which something holds of points and periods, values and their cells, copies of a query, relations and the
//! gluing of two rows, spans that overlap, phases of several workers, and devices: std's readers and writers,
//! files in memory and of a folder. And the traits of rows and of joins at small types, with the proofs that
//! these keep their laws.
//!
//! What a script with its output can say is a case (docs/CASES.md), and what a contract says is proved.
#![tactic(auto)]

#[cfg(test)]
mod answers;
#[cfg(test)]
mod candidates;
#[cfg(test)]
mod conditions;
#[cfg(test)]
mod copies;
#[cfg(test)]
mod days;
#[cfg(test)]
mod devices;
#[cfg(test)]
mod files;
pub mod joins;
#[cfg(test)]
mod listing;
#[cfg(test)]
mod phases;
#[cfg(test)]
mod relations;
pub mod rows;
#[cfg(test)]
mod sets;
#[cfg(test)]
mod texts;
#[cfg(test)]
mod values;
