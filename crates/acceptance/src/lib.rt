//! What was agreed on: rows of calls beside their answers, and the tests of single requests, over the public calls of the
//! crates below.
//!
//! [`surface`] calls each public function that was agreed on at its written types, and matches each public enum without a
//! wildcard, so that a change of shape fails there. Scripts and descriptors beside what the program prints of them are
//! rows of `tests/`.
#![tactic(auto)]

pub mod surface;
#[cfg(test)]
mod tests;
