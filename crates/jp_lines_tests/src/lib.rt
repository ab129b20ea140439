//! The tests of `jp_lines`: runs over lines of every kind, and where reads, writes and flushes fail. They stand in a
//! crate of their own, so that their proofs do not prove `jp_lines` once more.
#![tactic(auto)]

#[cfg(test)]
mod cells;
#[cfg(test)]
mod columns;
#[cfg(test)]
mod decimals;
#[cfg(test)]
mod devices;
#[cfg(test)]
mod explained;
#[cfg(test)]
mod expressions;
#[cfg(test)]
mod files;
#[cfg(test)]
mod handing_on;
#[cfg(test)]
mod inputs;
#[cfg(test)]
mod keep;
#[cfg(test)]
mod limits;
#[cfg(test)]
mod programs;
#[cfg(test)]
mod refusals;
#[cfg(test)]
mod runs;
#[cfg(test)]
mod tallies;
#[cfg(test)]
mod words;
