//! A whole script: its lines, checked.

ghost use Rattle.std.specs.Prelude.{◌≡◌, ◌≤◌, MatchOption, IfOk, IfErr, OnOk, []};
ghost use Rattle.std.specs.Str.Lines.{lines};
ghost use Rattle.script.specs.Scripts.{words_in, Script, IsRefusal};
ghost use Rattle.script.specs.Statements.{IsFault, Says};

use crate::lines::Lines;
use crate::statement::Statement;
use crate::words::Words;
use crate::{LineFault, ScriptError};
use std::alloc::Global;

/// A line of a script that says something.
#[derive(Debug, Drop, PartialEq, Eq)]
pub struct Line<'t> {
    /// The place of the line in its script, counted from 1.
    pub number: usize,
    /// What the line says.
    pub statement: Statement<'t>,
}

/// What the lines of a script say to a device with a flash of this many pages. The caller gives at
/// most 256 pages. `Line` names the first line with a fault. `Memory` comes where a line that says
/// something finds no room, before any line with a fault.
pub fn read_lines(alloc: Global, pages: usize, text: &[u8]) -> Result<Vec<Line<'_>>, ScriptError>
    requires { pages ≤ 256 }
    ensures read { IfOk result (λ said. Script pages 1 (lines text.now) said.items) }
    ensures refused { IfErr result (λ e. IsRefusal pages (lines text.now) e) }
{
    let mut said = Vec::new(alloc);
    push_lines(pages, text, &mut said)?;
    Ok(said)
}

/// Adds what the lines of a script say to a list that is empty.
fn push_lines<'t>(pages: usize, text: &'t [u8], said: &mut Vec<Line<'t>>) -> Result<(), ScriptError>
    requires few_pages { pages ≤ 256 }
    requires empty { said.old.items ≡ [] }
    ensures read { OnOk result (Script pages 1 (lines text.now) said.new.items) }
    ensures refused { IfErr result (λ e. IsRefusal pages (lines text.now) e) }
{
    let mut number = 0;
    for line in Lines::new(text) {
        number += 1;
        match read_line(pages, line) {
            Ok(None) => {}
            Ok(Some(statement)) => {
                if said.push(Line { number, statement }).is_err() {
                    return Err(ScriptError::Memory);
                }
            }
            Err(fault) => return Err(ScriptError::Line {
                line: number,
                fault,
            }),
        }
    }
    Ok(())
}

/// What a line says; `None` for a comment, which begins with `#`, and for a line without words.
fn read_line(pages: usize, line: &[u8]) -> Result<Option<Statement<'_>>, LineFault>
    requires { pages ≤ 256 }
    ensures said { IfOk result (λ said. MatchOption said
        (words_in line.now ≡ [])
        (λ s. Says pages s (words_in line.now))) }
    ensures faulty { IfErr result (λ f. IsFault pages (words_in line.now) f) }
{
    if line.first() == Some(&b'#') {
        return Ok(None);
    }
    Statement::read(pages, Words::new(line))
}
