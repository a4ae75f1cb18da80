//! The command line of the program `kbsim`: what its words ask for, or why they are refused, and the texts of its help.
//!
//! Nothing is kept. It guarantees that each command line is answered, without a panic; what it answers is only tested.
//! `kbsim_cli` calls it.
#![tactic(auto)]

use clap::{Arg, ArgAction, ArgMatches, Command, Error, value_parser};
use std::alloc::{AllocError, Global};
use std::convert::AsStr;

/// The number of pages where the command line names none, and as a word.
const PAGES: usize = 2;

const PAGES_WORD: &str = "2";

const VERSION: &str = "0.2.0";

const RUN_HELP: &str = "\
Runs a script on a simulated keyboard whose flash is blank:

  kbsim run FILE
  kbsim run < FILE
  kbsim run --explain FILE

A script is lines of words. Each line is events of the keyboard, or a look at
it, and prints one line: its number and the answer. `scan` and `scans` press
keys, `poll` asks for a report, which the host reads, `setup`, `out` and `in`
are packets on endpoint 0, `reset` is a bus reset, `work` and `workfault` are
steps of the flash work, `cut` and `cutwork` cut the power, `entry`, `slot` and
`leds` look at the keymap, the flash and the LEDs, `set` is a whole transfer
that sets an entry, and `fetch` one of the report descriptor. A line that begins
with # is a comment.

Layers are 0 to 3, keys 0 to 95, slots 0 to 511; codes are 4 hex digits. The
whole script, at most 1048576 bytes, is checked before its first line is run.

With --explain standard error says in a sentence beside each answer what it
means: the reason of a stall, the name of a request, the usages of a report, the
operation that a step of the flash work made. Standard output is the same.

The line of a fault, as `fault line 2: bad number`, is the last one on standard
output. docs/simulator.md has the language.";

const DESCRIBE_HELP: &str = "\
Prints the keyboard's device, configuration and report descriptors, each on a
line of its own: its name, and its bytes as hex digits in lower case.
`kbsim parse` reads the digits of the last one.";

const PARSE_HELP: &str = "\
Reads a HID report descriptor, and prints a line for each of its fields:

  kbsim parse FILE
  kbsim parse < FILE

The text is hex digits in either case, two a byte, at most 1048576 bytes in all;
spaces, tabs and line ends are dropped. A line is

  KIND ID BIT SIZE COUNT MIN MAX FORM USAGES

as in

  input 1 8 1 161 0 1 variable 00070004-000700a4

This is a field of the input report with ID 1 (0 where there are no IDs). It
begins at bit 8 after the ID byte and has 161 places of 1 bit, whose values are
0 to 1. It is variable: each place is a usage of its own. A place of an `array`
holds the number of a usage in the list. The usages are 04h to A4h of page 07h.
Ranges and single usages are joined by commas, and - says that there are none.

A fault is the only line: `fault hex` where the text is not pairs of hex digits,
`fault parse N at OFFSET` for fault N of the descriptor, at the item with that
offset in bytes, `fault too long`, `fault input` or `fault memory`.
docs/simulator.md has more, docs/formats.md the numbers of faults.";

const STATUS_HELP: &str = "\
Exit status:
  0  all was done
  1  a fault, whose line is the last one on standard output, or the output
     was refused
  2  the command line was refused";

/// What stands behind the help of the whole program.
const PROGRAM_HELP: &str = "\
Plain Rust, which cargo builds, has more: `read` and `write` of HID reports,
`run --image` and `--save`, and `parse` of other texts, with items and details.

Exit status:
  0  all was done
  1  a fault, whose line is the last one on standard output, or the output
     was refused
  2  the command line was refused";

/// What a text is read from.
#[derive(Clone, Copy)]
pub enum Source<'a> {
    /// Standard input, as without a word and with `-`.
    StandardInput,
    /// The file with this path.
    File(&'a str),
}

/// What the command line asks for.
#[derive(Clone, Copy)]
pub enum Request<'a> {
    /// To run a script on a blank flash of so many pages, 2 to 8, and where `explain` is set to say
    /// what each answer means.
    Run {
        pages: usize,
        source: Source<'a>,
        explain: bool,
    },
    /// To print the keyboard's descriptors.
    Describe,
    /// To print the fields of a report descriptor.
    Parse {
        source: Source<'a>,
    },
}

/// What the words of a command line ask for, the program's name first. The error has the text of
/// the refusal, or of the help or version that was asked for.
pub fn read<'a, S: AsStr>(alloc: Global, words: &'a [S]) -> Result<Request<'a>, Error> {
    let matches = kbsim(alloc)?.try_get_matches_from(words)?;
    Ok(asked(&matches))
}

/// What was asked for, by what was found on the command line.
fn asked<'a>(matches: &ArgMatches<'a>) -> Request<'a> {
    if matches.subcommand_matches("describe").is_some() {
        return Request::Describe;
    }
    if let Some(parse) = matches.subcommand_matches("parse") {
        return Request::Parse {
            source: source_of(parse.get_str("file")),
        };
    }
    let run = matches.subcommand_matches("run");
    let pages = run
        .and_then(|run| run.get_one::<usize>("pages"))
        .unwrap_or(PAGES);
    let source = source_of(run.and_then(|run| run.get_str("file")));
    let explain = match run {
        Some(run) => run.get_flag("explain"),
        None => false,
    };
    Request::Run {
        pages,
        source,
        explain,
    }
}

/// What is read where this word is given for it.
fn source_of<'a>(word: Option<&'a str>) -> Source<'a> {
    match word {
        None | Some("-") => Source::StandardInput,
        Some(path) => Source::File(path),
    }
}

fn kbsim<'a>(alloc: Global) -> Result<Command<'a>, AllocError> {
    let commands = vec![in alloc; run(alloc)?, describe(alloc), parse(alloc)?]?;
    program(alloc)?.subcommands(commands)
}

fn program<'a>(alloc: Global) -> Result<Command<'a>, AllocError> {
    Command::new(alloc, "kbsim")
        .version(VERSION)
        .about("A simulated keyboard whose keymap is kept in flash")
        .after_long_help(PROGRAM_HELP)
        .subcommand_required(true)
        .bin_name("kbsim")
}

fn run<'a>(alloc: Global) -> Result<Command<'a>, AllocError> {
    let args = vec![in alloc; pages(alloc), explain(alloc), file(alloc)]?;
    described(alloc, "run", "Runs a script", RUN_HELP, STATUS_HELP).args(args)
}

fn pages<'a>(alloc: Global) -> Arg<'a> {
    Arg::new(alloc, "pages")
        .long("pages")
        .value_name("N")
        .help("How many pages the flash has")
        .value_parser(value_parser!(usize).range(2..=8))
        .default_value(PAGES_WORD)
}

fn explain<'a>(alloc: Global) -> Arg<'a> {
    Arg::new(alloc, "explain")
        .long("explain")
        .help("Says on standard error what each answer means")
        .action(ArgAction::SetTrue)
}

/// The text that is read.
fn file<'a>(alloc: Global) -> Arg<'a> {
    Arg::new(alloc, "file").value_name("FILE").help(
        "What is read; standard input without it, or where it is -",
    )
}

fn describe<'a>(alloc: Global) -> Command<'a> {
    described(
        alloc,
        "describe",
        "Prints the keyboard's descriptors",
        DESCRIBE_HELP,
        STATUS_HELP,
    )
}

fn parse<'a>(alloc: Global) -> Result<Command<'a>, AllocError> {
    let about = "Prints the fields of a report descriptor";
    described(alloc, "parse", about, PARSE_HELP, STATUS_HELP).arg(file(alloc))
}

/// A command with the texts of its help: in a line, at length, and of its exit statuses.
fn described<'a>(
    alloc: Global,
    name: &'a str,
    line: &'a str,
    text: &'a str,
    statuses: &'a str,
) -> Command<'a> {
    Command::new(alloc, name)
        .about(line)
        .long_about(text)
        .after_long_help(statuses)
}
