//! Running a script.

ghost use Rattle.std.specs.Prelude.{◌≡◌, ◌≢◌, ◌<◌, ◌≤◌, ℕ, List, [], ◌++◌, slice_index, length, take, Some, ◌↔◌, ◌⊎◌, IfOk, IfErr, IfSome, OnOk, IsTrue};
ghost use Rattle.layers.specs.Standard.{standard};
ghost use Rattle.std.specs.Int.NonZero.{non_zero_u16_get};
ghost use Rattle.std.specs.Str.Lines.{lines};
ghost use Rattle.std.specs.Io.KnownBytes.{Appends};
ghost use Rattle.text_io.specs.Printers.{Prints, given, printed, printer_writer};
ghost use Rattle.text_io.specs.Readers.{longest};
ghost use Rattle.flash_model.specs.Image.{page_count};
ghost use Rattle.flash_model.specs.Sim.{SimValue};
ghost use Rattle.world.specs.representation.Relation.{Refines};
ghost use Rattle.kbsim.specs.Outputs.{set_report, blank, IsFlashWork, LineRuns, IsRepeated, IsRefusedSet, IsTakenSet, IsRun, IsOutput, IsBegun, GoesOn, Takes, IsPassed};
ghost use Rattle.kbsim.specs.Prints.{fault_line, printed_line};
ghost use Rattle.kbsim.specs.Scripts.{IsEarly, IsSound, IsRunFault};
ghost use Rattle.script.specs.Scripts.{Script};

use crate::action::event_of;
use crate::fetch::fetch;
use crate::flash::blank_flash;
use crate::outcome::Outcome;
use crate::print::{FaultLine, PrintedLine};
use crate::sink::{Silent, Sink, tell_step};
use crate::spare::Spare;
use crate::{Answer, Event, RunError, Work, World};
use arrayvec::ArrayVec;
use flash_model::{NorFlash, SimFlash};
use script::{Action, Line, ScriptError, Statement, read_lines};
use std::alloc::{AllocError, Global};
use std::io::{Read, Write};
use std::num::NonZeroU16;
use std::slice;
use text_io::{Printer, WriteError, read_text};
use world::Scan;

/// The most steps that a command's flash work takes: an erase, a copy of each of the 384 entries,
/// a header and a record.
const MOST_STEPS: u16 = 387;

/// The SETUP packet of a feature report that carries a command.
const SET_FEATURE: [u8; 8] = [0x21, 0x09, 0x03, 0x03, 0x00, 0x00, 0x06, 0x00];

/// Runs the script that a reader gives, on a blank flash of this many pages, and prints a line
/// for each of its lines.
///
/// The whole script is read, at most 1,048,576 bytes, and checked before the first event is run.
/// The line of a fault is printed last, before the fault is returned.
///
/// `PageCount` comes where there are not 2 to 8 pages, before anything is read, and has no line.
/// `Input` comes at any fault of the reader, an interruption too, and `TooLong` where it gives
/// more bytes. Then comes `Line` with the first line that is not of the language. `Memory` comes
/// wherever a request for memory is refused. `Output` comes where the writer fails or takes no
/// byte; nothing is printed after it.
pub fn run_script<R: Read, W: Write>(
    alloc: Global,
    pages: usize,
    reader: &mut R,
    writer: &mut W,
) -> Result<(), RunError>
    ensures page_count { (result ≡ Err RunError.PageCount) ↔ ((pages < 2) ⊎ (8 < pages)) }
    ensures unread { result ≡ Err RunError.PageCount → R.remaining reader.new ≡ R.remaining reader.old }
    ensures unwritten { result ≡ Err RunError.PageCount → W.contents writer.new ≡ W.contents writer.old }
    ensures sound { OnOk result (IfSome (R.remaining reader.old) (IsSound pages)) }
    ensures printed { OnOk result (IfSome (R.remaining reader.old) (λ script. (text : List ℕ) × (after : SimValue)
        × IsOutput (blank pages) script text after × Appends (W.contents writer.old) (W.contents writer.new) text)) }
    ensures refused { IfErr result (λ e. IsRunFault pages (R.remaining reader.old) e) }
    ensures fault_alone { IfErr result (λ e. IsEarly e → Appends (W.contents writer.old) (W.contents writer.new) (fault_line e)) }
    ensures stopped { result ≡ Err RunError.Memory → IfSome (R.remaining reader.old) (λ script. (text : List ℕ)
        × ((text ≡ []) ⊎ IsBegun (blank pages) script text)
        × Appends (W.contents writer.old) (W.contents writer.new) (text ++ fault_line RunError.Memory)) }
{
    let flash = match blank_flash(alloc, pages) {
        Ok(flash) => flash,
        Err(RunError::PageCount) => return Err(RunError::PageCount),
        Err(error) => return Err(print_fault(error, writer)),
    };
    run_on(alloc, flash, reader, writer).map(|_| ())
}

/// Runs the script that a reader gives, on this flash, armed or not, and prints a line for each of
/// its lines. The answer is the flash after the last line.
///
/// What is read, checked and printed, and each fault but `PageCount`, is as `run_script` says; the
/// script is checked against the flash's number of pages.
pub fn run_on<R: Read, W: Write>(
    alloc: Global,
    flash: SimFlash,
    reader: &mut R,
    writer: &mut W,
) -> Result<SimFlash, RunError>
    ensures sound { OnOk result (IfSome (R.remaining reader.old) (IsSound (page_count flash.image))) }
    ensures printed { IfOk result (λ after. IfSome (R.remaining reader.old) (λ script. (text : List ℕ)
        × IsOutput flash script text after × Appends (W.contents writer.old) (W.contents writer.new) text)) }
    ensures refused { IfErr result (λ e. IsRunFault (page_count flash.image) (R.remaining reader.old) e) }
    ensures counted { result ≢ Err RunError.PageCount }
    ensures fault_alone { IfErr result (λ e. IsEarly e → Appends (W.contents writer.old) (W.contents writer.new) (fault_line e)) }
    ensures stopped { result ≡ Err RunError.Memory → IfSome (R.remaining reader.old) (λ script. (text : List ℕ)
        × ((text ≡ []) ⊎ IsBegun flash script text)
        × Appends (W.contents writer.old) (W.contents writer.new) (text ++ fault_line RunError.Memory)) }
{
    run_with(alloc, flash, reader, writer, &mut Silent)
}

/// Runs a script as `run_on` does, and tells a sink of each event and each line.
pub fn run_with<R: Read, W: Write, S: Sink>(
    alloc: Global,
    flash: SimFlash,
    reader: &mut R,
    writer: &mut W,
    sink: &mut S,
) -> Result<SimFlash, RunError>
    ensures sound { OnOk result (IfSome (R.remaining reader.old) (IsSound (page_count flash.image))) }
    ensures printed { IfOk result (λ after. IfSome (R.remaining reader.old) (λ script. (text : List ℕ)
        × IsOutput flash script text after × Appends (W.contents writer.old) (W.contents writer.new) text)) }
    ensures refused { IfErr result (λ e. IsRunFault (page_count flash.image) (R.remaining reader.old) e) }
    ensures counted { result ≢ Err RunError.PageCount }
    ensures fault_alone { IfErr result (λ e. IsEarly e → Appends (W.contents writer.old) (W.contents writer.new) (fault_line e)) }
    ensures stopped { result ≡ Err RunError.Memory → IfSome (R.remaining reader.old) (λ script. (text : List ℕ)
        × ((text ≡ []) ⊎ IsBegun flash script text)
        × Appends (W.contents writer.old) (W.contents writer.new) (text ++ fault_line RunError.Memory)) }
{
    let text = match read_text(alloc, reader) {
        Ok(text) => text,
        Err(error) => return Err(print_fault(error.into(), writer)),
    };
    let lines = match lines_of(alloc, flash.pages(), text.as_slice()) {
        Ok(lines) => lines,
        Err(error) => return Err(print_fault(error, writer)),
    };
    run_lines(alloc, flash, lines.as_slice(), writer, sink)
}

/// Prints the line of a fault. The answer is the fault, or `Output` where the writer fails or takes
/// no byte. `PageCount` and `Output` have no line.
pub fn print_fault<W: Write>(error: RunError, writer: &mut W) -> RunError
    ensures outcome { (result ≡ error) ⊎ (result ≡ RunError.Output) }
    ensures printed { result ≢ RunError.Output → Appends (W.contents writer.old) (W.contents writer.new) (fault_line error) }
{
    tell(&mut Printer::new(writer), error)
}

/// Runs the lines of a script on a flash, and gives the writer what they print. The answer is the
/// flash after them.
fn run_lines<W: Write, S: Sink>(
    alloc: Global,
    flash: SimFlash,
    lines: &[Line<'_>],
    writer: &mut W,
    sink: &mut S,
) -> Result<SimFlash, RunError>
    ensures printed { IfOk result (λ after. (text : List ℕ) × IsRun flash lines.now text after
        × Appends (W.contents writer.old) (W.contents writer.new) text) }
    ensures late { IfErr result (λ e. (e ≡ RunError.Memory) ⊎ (e ≡ RunError.Output)) }
    ensures stopped { result ≡ Err RunError.Memory → (count : ℕ) × (text : List ℕ) × (after : SimValue)
        × ((text ≡ []) ⊎ (count < length lines.now)) × IsRun flash (take count lines.now) text after
        × Appends (W.contents writer.old) (W.contents writer.new) (text ++ fault_line RunError.Memory) }
{
    let mut printer = Printer::new(writer);
    let after = match perform(alloc, flash, lines, &mut printer, sink) {
        Ok(after) => after,
        Err(error) => return Err(tell(&mut printer, error)),
    };
    match printer.finish() {
        Ok(()) => Ok(after),
        Err(_) => Err(RunError::Output),
    }
}

/// Prints the line of a fault, and gives the writer all that was printed. The answer is the fault,
/// or `Output`.
fn tell<W: Write>(printer: &mut Printer<'_, W>, error: RunError) -> RunError
    ensures outcome { (result ≡ error) ⊎ (result ≡ RunError.Output) }
    ensures printed { result ≢ RunError.Output → Appends
        (printed W.contents printer.old)
        (given W.contents printer.new)
        (fault_line error) }
    ensures same_writer { result ≢ RunError.Output → printer_writer printer.new ≡ printer_writer printer.old }
{
    if error == RunError::Output || printer.print(&FaultLine(error)).is_err() {
        return RunError::Output;
    }
    if printer.finish().is_err() {
        return RunError::Output;
    }
    error
}

/// What the lines of a script say.
fn lines_of(alloc: Global, pages: usize, text: &[u8]) -> Result<Vec<Line<'_>>, RunError>
    requires few_pages { pages ≤ 256 }
    requires short { length text.now ≤ longest }
    ensures read { IfOk result (λ said. Script pages 1 (lines text.now) said.items) }
    ensures refused { IfErr result (λ e. IsRunFault pages (Some text.now) e) }
    ensures counted { result ≢ Err RunError.PageCount }
{
    match read_lines(alloc, pages, text) {
        Ok(lines) => Ok(lines),
        Err(ScriptError::Line { line, fault }) => Err(RunError::Line { line, fault }),
        Err(ScriptError::Memory) => Err(RunError::Memory),
    }
}

/// Runs the lines of a script on a flash. The answer is the flash after them.
fn perform<W: Write, S: Sink>(
    alloc: Global,
    flash: SimFlash,
    lines: &[Line<'_>],
    printer: &mut Printer<'_, W>,
    sink: &mut S,
) -> Result<SimFlash, RunError>
    ensures printed { IfOk result (λ after. (text : List ℕ) × IsRun flash lines.now text after × Prints W.contents printer.old printer.new text) }
    ensures same_writer { OnOk result (printer_writer printer.new ≡ printer_writer printer.old) }
    ensures late { IfErr result (λ e. (e ≡ RunError.Memory) ⊎ ((e ≡ RunError.Output) × (lines.now ≢ []))) }
    ensures stopped { result ≡ Err RunError.Memory → (count : ℕ) × (text : List ℕ) × (after : SimValue)
        × ((text ≡ []) ⊎ (count < length lines.now)) × IsRun flash (take count lines.now) text after
        × Prints W.contents printer.old printer.new text }
    ensures same_writer_stopped { result ≡ Err RunError.Memory → printer_writer printer.new ≡ printer_writer printer.old }
{
    let mut world = world_on(alloc, flash)?;
    let answers = &mut Vec::new(alloc);
    let ended = run_each(&mut world, lines, answers, &mut Spare::new(), printer, sink);
    let after = world.into_flash();
    ended.map(|()| after)
}

/// Runs the lines of a script on a device that was just started.
fn run_each<W: Write, S: Sink>(
    world: &mut World,
    lines: &[Line<'_>],
    answers: &mut Vec<Answer>,
    spare: &mut Spare,
    printer: &mut Printer<'_, W>,
    sink: &mut S,
) -> Result<(), RunError>
    ensures printed { OnOk result ((start : SimValue) → Refines standard start [] world.old → (text : List ℕ)
        × IsRun start lines.now text world.new.flash × Prints W.contents printer.old printer.new text) }
    ensures same_writer { OnOk result (printer_writer printer.new ≡ printer_writer printer.old) }
    ensures late { IfErr result (λ e. (e ≡ RunError.Memory) ⊎ ((e ≡ RunError.Output) × (lines.now ≢ []))) }
    ensures stopped { result ≡ Err RunError.Memory → (start : SimValue) → Refines standard start [] world.old
        → (count : ℕ) × (text : List ℕ) × (after : SimValue) × (count < length lines.now)
        × IsRun start (take count lines.now) text after × Prints W.contents printer.old printer.new text }
    ensures same_writer_stopped { result ≡ Err RunError.Memory → printer_writer printer.new ≡ printer_writer printer.old }
{
    for line in lines {
        let Ok(outcome) = run_line(world, &line.statement, answers, spare, sink) else {
            return Err(RunError::Memory);
        };
        let shown = PrintedLine {
            number: line.number,
            outcome: &outcome,
        };
        let Ok(()) = put(printer, &shown, sink.hears()) else {
            return Err(RunError::Output);
        };
        if sink.hears() {
            sink.line(line, &outcome, world);
        }
    }
    Ok(())
}

/// Prints a line, and gives it to the writer at once where it is heard.
fn put<W: Write>(
    printer: &mut Printer<'_, W>,
    line: &PrintedLine<'_>,
    is_heard: bool,
) -> Result<(), WriteError>
    ensures printed { OnOk result (Prints W.contents printer.old printer.new (printed_line line.now.number line.now.outcome.now)) }
    ensures same_writer { OnOk result (printer_writer printer.new ≡ printer_writer printer.old) }
{
    printer.print(line)?;
    if is_heard {
        printer.finish()?;
    }
    Ok(())
}

/// A device that starts on a flash; `Memory` where it finds no room.
fn world_on(alloc: Global, flash: SimFlash) -> Result<World, RunError>
    ensures starts { IfOk result (λ world. Refines standard flash [] world) }
    ensures memory { IfErr result (λ e. e ≡ RunError.Memory) }
{
    World::new(alloc, flash).map_err(|_| RunError::Memory)
}

/// Runs the events of a line. The outcome is what the line prints.
fn run_line<S: Sink>(
    world: &mut World,
    statement: &Statement<'_>,
    answers: &mut Vec<Answer>,
    spare: &mut Spare,
    sink: &mut S,
) -> Result<Outcome, AllocError>
    ensures { IfOk result (λ outcome. GoesOn (λ steps. LineRuns statement.now steps outcome) world.old world.new) }
{
    match statement {
        Statement::One(action) => act(world, action, answers, spare, sink),
        Statement::Scans { count, scan } => {
            let answer = repeat(world, *scan, *count, answers, spare, sink)?;
            Ok(Outcome::Answered(answer))
        }
        Statement::Set { layer, key, code } => {
            let answer = set(world, [*layer, *key], *code, answers, spare, sink)?;
            Ok(Outcome::Answered(answer))
        }
        Statement::Fetch => fetch(world, answers, spare, sink),
    }
}

/// Runs a line of one event.
fn act<S: Sink>(
    world: &mut World,
    action: &Action<'_>,
    answers: &mut Vec<Answer>,
    spare: &mut Spare,
    sink: &mut S,
) -> Result<Outcome, AllocError>
    ensures { IfOk result (λ outcome. GoesOn (λ steps. LineRuns (Statement.One action.now) steps outcome) world.old world.new) }
{
    let answer = take(world, event_of(action, spare), answers, sink)?;
    Ok(Outcome::Answered(answer))
}

/// Takes one event. `AllocError` where there was no memory for its answer, or for the host, which
/// then took the event all the same.
pub(crate) fn take<S: Sink>(
    world: &mut World,
    event: &Event,
    answers: &mut Vec<Answer>,
    sink: &mut S,
) -> Result<Answer, AllocError>
    ensures { IfOk result (λ answer. Takes event.now answer world.old world.new) }
{
    pass(world, event, answers, sink)?;
    answers.pop().ok_or(AllocError)
}

/// Takes one event, and leaves its answer alone in the list.
fn pass<S: Sink>(
    world: &mut World,
    event: &Event,
    answers: &mut Vec<Answer>,
    sink: &mut S,
) -> Result<(), AllocError>
    ensures { OnOk result (IsPassed event.now answers.new.items world.old world.new) }
{
    answers.clear();
    world.run(slice::from_ref(event), answers)?;
    tell_step(sink, event, answers.as_slice(), world);
    Ok(())
}

/// Takes a scan `count` times. The answer is the last one.
fn repeat<S: Sink>(
    world: &mut World,
    scan: Scan,
    count: NonZeroU16,
    answers: &mut Vec<Answer>,
    spare: &mut Spare,
    sink: &mut S,
) -> Result<Answer, AllocError>
    ensures { IfOk result (λ answer. GoesOn (λ steps.
        IsRepeated (Event.Scan scan) (non_zero_u16_get count) steps answer) world.old world.new) }
{
    let event = spare.scan(scan);
    for _again in 1..count.get() {
        pass(world, event, answers, sink)?;
    }
    take(world, event, answers, sink)
}

/// Sets an entry by a feature report, and takes the steps of its flash work. The answer is that
/// of the packet that ended the transfer, `Ack` for a status stage that succeeded.
fn set<S: Sink>(
    world: &mut World,
    place: [u8; 2],
    code: u16,
    answers: &mut Vec<Answer>,
    spare: &mut Spare,
    sink: &mut S,
) -> Result<Answer, AllocError>
    ensures { IfOk result (λ answer. GoesOn (λ steps.
        IsRefusedSet (slice_index place 0) (slice_index place 1) code steps answer
        ⊎ IsTakenSet (slice_index place 0) (slice_index place 1) code steps answer) world.old world.new) }
{
    // A SETUP packet is always acknowledged.
    open(world, SET_FEATURE, answers, spare, sink)?;
    let reported = send(world, command(place, code), answers, spare, sink)?;
    if !is_ack(&reported) {
        return Ok(reported);
    }
    work_off(world, answers, spare, sink)?;
    let status = ask(world, answers, spare, sink)?;
    if is_success(&status) {
        return Ok(Answer::Ack);
    }
    Ok(status)
}

/// Takes a SETUP packet.
pub(crate) fn open<S: Sink>(
    world: &mut World,
    packet: [u8; 8],
    answers: &mut Vec<Answer>,
    spare: &mut Spare,
    sink: &mut S,
) -> Result<Answer, AllocError>
    ensures { IfOk result (λ answer. Takes (Event.Setup packet) answer world.old world.new) }
{
    take(world, spare.setup(packet), answers, sink)
}

/// Takes an OUT packet.
pub(crate) fn send<S: Sink>(
    world: &mut World,
    packet: ArrayVec<u8, 8>,
    answers: &mut Vec<Answer>,
    spare: &mut Spare,
    sink: &mut S,
) -> Result<Answer, AllocError>
    ensures { IfOk result (λ answer. Takes (Event.OutPacket packet) answer world.old world.new) }
{
    take(world, spare.out_packet(packet), answers, sink)
}

/// Takes an IN packet.
pub(crate) fn ask<S: Sink>(
    world: &mut World,
    answers: &mut Vec<Answer>,
    spare: &Spare,
    sink: &mut S,
) -> Result<Answer, AllocError>
    ensures { IfOk result (λ answer. Takes Event.InPacket answer world.old world.new) }
{
    take(world, spare.in_packet(), answers, sink)
}

/// Takes a step of the flash work.
fn work<S: Sink>(
    world: &mut World,
    answers: &mut Vec<Answer>,
    spare: &Spare,
    sink: &mut S,
) -> Result<Answer, AllocError>
    ensures { IfOk result (λ answer. Takes Event.Work answer world.old world.new) }
{
    take(world, spare.work(), answers, sink)
}

pub(crate) fn is_ack(answer: &Answer) -> bool
    ensures { IsTrue result ↔ (answer.now ≡ Answer.Ack) }
{
    matches!(answer, Answer::Ack)
}

/// Whether a status stage succeeded: it is the empty packet then.
fn is_success(answer: &Answer) -> bool
    ensures { IsTrue result ↔ (answer.now ≡ Answer.Packet (record { items = [] })) }
{
    match answer {
        Answer::Packet(bytes) => bytes.is_empty(),
        _ => false,
    }
}

/// Whether a step of the flash work needs another one.
fn needs_more(answer: &Answer) -> bool
    ensures { IsTrue result ↔ (answer.now ≡ Answer.Worked Work.Working) }
{
    matches!(answer, Answer::Worked(Work::Working))
}

/// Takes steps of the flash work until one needs no more.
fn work_off<S: Sink>(
    world: &mut World,
    answers: &mut Vec<Answer>,
    spare: &Spare,
    sink: &mut S,
) -> Result<(), AllocError>
    ensures { OnOk result (GoesOn IsFlashWork world.old world.new) }
{
    for _step in 0..MOST_STEPS {
        let answer = work(world, answers, spare, sink)?;
        if !needs_more(&answer) {
            return Ok(());
        }
    }
    Ok(())
}

/// The feature report that sets an entry to a code.
fn command(place: [u8; 2], code: u16) -> ArrayVec<u8, 8>
    ensures { result.items ≡ set_report (slice_index place 0) (slice_index place 1) code }
{
    let [layer, key] = place;
    let [low, high] = code.to_le_bytes();
    let mut packet = ArrayVec::from([0x03, 0x01, layer, key, low, high, 0, 0]);
    packet.truncate(6);
    packet
}
