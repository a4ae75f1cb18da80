//! The program `kbsim`: runs a script on a simulated keyboard, prints the keyboard's descriptors, and prints the fields of a
//! report descriptor.
//!
//! It keeps nothing between two runs, and guarantees what `kbsim` and `parse_lines` do, which it calls over the text of a file
//! or of standard input, and over standard output; standard error says what a fault is. Its
//! arguments, its files and its exit status are only tested. `bin/kbsim` calls it.
#![tactic(auto)]

mod parsing;
mod program;
mod running;
mod source;
mod tell;

use std::process::ExitCode;

fn main(rt: HostRuntime) -> ExitCode {
    ExitCode::from(program::status(&rt))
}
