//! The tests of the libraries below the programs, and of `jsonpath`: each public function once, beside what it must
//! answer. They stand in a crate of their own, so that their proofs do not prove the libraries once more.
#![tactic(auto)]

#[cfg(test)]
mod callers;
#[cfg(test)]
mod canon;
#[cfg(test)]
mod check;
#[cfg(test)]
mod decimals;
#[cfg(test)]
mod document;
#[cfg(test)]
mod evaluate;
#[cfg(test)]
mod exact;
#[cfg(test)]
mod explain;
#[cfg(test)]
mod finding;
#[cfg(test)]
mod flat;
#[cfg(test)]
mod held;
#[cfg(test)]
mod iregexp;
#[cfg(test)]
mod json;
#[cfg(test)]
mod matching;
#[cfg(test)]
mod misread_decimals;
#[cfg(test)]
mod nested;
#[cfg(test)]
mod numbers;
#[cfg(test)]
mod query;
#[cfg(test)]
mod reading;
#[cfg(test)]
mod select;
#[cfg(test)]
mod sentences;
