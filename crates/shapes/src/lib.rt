//! Names for what a list of numbers is a list of, for the definitions of all crates. There is no code.
#![tactic(auto)]
