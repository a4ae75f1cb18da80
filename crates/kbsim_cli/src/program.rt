//! What the program does and the status that it ends with.

ghost use Rattle.std.specs.Prelude.{◌≡◌, ◌≢◌, ◌<◌, ◌≤◌, ◌⊎◌, IfOk, IfErr, OnOk, OnErr};
ghost use Rattle.clap.specs.Words.{kind_of};

use crate::parsing::{parse_from, print_descriptors};
use crate::running::run_from;
use crate::tell::tell_output;
use clap::Error;
use clap::error::ErrorKind;
use command_line::{Request, read};
use std::rt::{Env, Files};
use std::{env, io};

/// The status of a subcommand that was done, and of help.
const DONE: u8 = 0;

/// The status of a subcommand that met a fault.
const FAULT: u8 = 1;

/// The status of a refused command line.
const REFUSED: u8 = 2;

/// Does what the command line asks for. The answer is the program's exit status.
pub fn status<R: Env + AllocGlobal + Files + Input + Print + Eprint>(rt: &R) -> u8
    ensures { result ≤ 2 }
{
    let words = match words(rt) {
        Ok(words) => words,
        Err(status) => return status,
    };
    match read(rt.alloc(), words.as_slice()) {
        Ok(
            Request::Run {
                pages,
                source,
                explain,
            },
        ) => status_of(run_from(rt, pages, source, explain)),
        Ok(Request::Describe) => status_of(print_descriptors(rt)),
        Ok(Request::Parse { source }) => status_of(parse_from(rt, source)),
        Err(error) => refuse(rt, &error),
    }
}

/// The status of a subcommand that ended so.
fn status_of<E: Drop>(ended: Result<(), E>) -> u8
    ensures done { OnOk ended (result ≡ DONE) }
    ensures fault { OnErr ended (result ≡ FAULT) }
    ensures either { (result ≡ DONE) ⊎ (result ≡ FAULT) }
{
    match ended {
        Ok(()) => DONE,
        Err(_) => FAULT,
    }
}

/// The words of the command line, the program's name first. The error is the exit status.
fn words<R: Env + AllocGlobal + Print + Eprint>(rt: &R) -> Result<Vec<String>, u8>
    ensures { IfErr result (λ status. (status ≡ FAULT) ⊎ (status ≡ REFUSED)) }
{
    let words = match env::args(rt) {
        Ok(words) => words,
        Err(error) if error.kind() == io::ErrorKind::OutOfMemory => return Err(no_memory(rt)),
        Err(_) => {
            let _ = eprintln!(rt; "error: the command line is not text");
            return Err(REFUSED);
        }
    };
    words.collect(rt.alloc()).map_err(|_| no_memory(rt))
}

/// Says why there is nothing to do, or shows the help or the version that was asked for.
fn refuse<R: Print + Eprint>(rt: &R, error: &Error) -> u8
    ensures memory { kind_of error.now ≡ ErrorKind.OutOfMemory → result ≡ FAULT }
    ensures shown { (kind_of error.now ≡ ErrorKind.DisplayHelp) ⊎ (kind_of error.now ≡ ErrorKind.DisplayVersion)
        → (result ≡ DONE) ⊎ (result ≡ FAULT) }
    ensures refused { kind_of error.now ≢ ErrorKind.OutOfMemory → kind_of error.now ≢ ErrorKind.DisplayHelp
        → kind_of error.now ≢ ErrorKind.DisplayVersion → result ≡ REFUSED }
{
    if error.kind() == ErrorKind::OutOfMemory {
        return no_memory(rt);
    }
    let printed = error.print(rt);
    if error.use_stderr() {
        REFUSED
    } else if printed.is_ok() {
        DONE
    } else {
        tell_output(rt);
        FAULT
    }
}

fn no_memory<R: Print>(rt: &R) -> u8
    ensures { result ≡ FAULT }
{
    let _ = println!(rt; "fault memory");
    FAULT
}
