//! The tests of `jp_command`: the rows of the table, and what runs do at the limits and where reads and writes
//! fail. They stand in a crate of their own, so that their proofs do not prove `jp_command` once more.
#![tactic(auto)]

#[cfg(test)]
mod counts;
#[cfg(test)]
mod decimals;
#[cfg(test)]
mod devices;
#[cfg(test)]
mod explained;
#[cfg(test)]
mod failures;
#[cfg(test)]
mod forms;
#[cfg(test)]
mod found;
#[cfg(test)]
mod limits;
#[cfg(test)]
mod prefixes;
#[cfg(test)]
mod raw;
#[cfg(test)]
mod rows;
#[cfg(test)]
mod scripts;
#[cfg(test)]
mod sources;
#[cfg(test)]
mod statuses;
#[cfg(test)]
mod table;
#[cfg(test)]
mod texts;
#[cfg(test)]
mod usage;
