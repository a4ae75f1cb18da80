//! A keyboard with its host, on a flash that can be cut, and what happens to them.
//!
//! Each event leaves a keyboard, a host and a flash that stand for one step more of a history of
//! `world`, with the same answer and the same image. The flash may do what `RestartableFlash` allows: a
//! step of its work whose operation does not read back is one of `world` that some mask tears, and so is
//! one that the power is cut inside. So what `world` guarantees of its histories holds here, over all
//! sessions.

ghost use Rattle.std.specs.Prelude.{◌≡◌, ◌≢◌, ◌≤◌, ◌+◌, ◌∷◌, [], ℕ, List, None, length, not, false, IfOk, IsOk, MatchResult};
ghost use Rattle.flash_model.specs.Image.{IsImage};
ghost use Rattle.host.specs.declared.gatherer.Host.{Host as HostValue};
ghost use Rattle.host.specs.Calls.{HostCall, lost};
ghost use Rattle.host.specs.representation.Refines as host_refines;
ghost use Rattle.keymap_store.specs.declared.store.Work.TheVariants.{Failed, Idle};
ghost use Rattle.keyboard.specs.Calls.{In};
ghost use Rattle.keyboard.specs.representation.Relation as keyboard_refines;
ghost use Rattle.keyboard.specs.representation.Value.{RunsOn};
ghost use Rattle.world.specs.Heard.{heard, with_heard};
ghost use Rattle.world.specs.declared.event.Answer.TheVariants.{Restarted, Worked};
ghost use Rattle.world.specs.Kinds.{as_answer};
ghost use Rattle.world.specs.Conforming.{MayRefuse, is_no_memory};
ghost use Rattle.flash_theorem.specs.declared.board.Happening.TheVariants.{Scan as ScanHappens, Setup, OutPacket, InPacket, Poll, Work as WorkHappens, Cut, CutInWork, BusReset, Entry, Leds};
ghost use Rattle.flash_model.specs.Sim.{SimValue};
ghost use Rattle.world.specs.Kinds.{Step};
ghost use Rattle.world.specs.Relation.{room_for};
ghost use Rattle.flash_theorem.specs.Happenings.{CutsIn, IsLoss, IsPromised, Keeps, Leaves, Works};
ghost use Rattle.flash_theorem.specs.Sessions.{AllTaken, AllTakenBefore};
ghost use Rattle.flash_theorem.specs.representation.Relation.{Refines, Takes, next_of};

use crate::interrupted::start_behind;
use crate::restartable::RestartableFlash;
use crate::{work, work_cut};
use arrayvec::ArrayVec;
use debounce::Scan;
use flash_model::NorFlash;
use host::{Host, Reading};
use keyboard::{EpAnswer, KeyboardOf, Room};
use layers::{Defaults, KeyNo, LayerNo};
use std::alloc::Global;
use world::Answer;

/// What happens to a keyboard, its host and its flash.
#[derive(Clone, Debug, PartialEq, Eq, Drop)]
pub enum Happening {
    /// One scan of the matrix. One comes each millisecond.
    Scan(Scan),
    /// A SETUP packet on endpoint 0 (USB 2.0 section 8.5.3).
    Setup([u8; 8]),
    /// An OUT data packet of at most 8 bytes on endpoint 0.
    OutPacket(ArrayVec<u8, 8>),
    /// An IN token on endpoint 0.
    InPacket,
    /// A poll: an IN token on endpoint 1.
    Poll,
    /// One step of the flash work. What the flash makes of its operation is the flash's.
    Work,
    /// The power is cut and comes back: all RAM is lost, and the keyboard starts on its flash. Before that
    /// the power is cut inside each of these starts of the flash, behind so many operations of the flash
    /// below. A start that the flash refused before the power went is one of them.
    Cut(ArrayVec<u32, 64>),
    /// The power is cut in a step of the flash work, inside the operation of the flash below that comes
    /// after so many others; and then as in `Cut`, which this is where no command works.
    CutInWork(u32, ArrayVec<u32, 64>),
    /// A bus reset (USB 2.0 section 7.1.7.5).
    BusReset,
    /// A look at one entry of the keymap in RAM.
    Entry(LayerNo, KeyNo),
    /// A look at the LEDs.
    Leds,
}

/// What comes of it, and whether a growth of the host was refused in it.
#[derive(Drop)]
pub struct Reported {
    pub answer: Answer,
    pub refused: bool,
}

/// A keyboard as it starts on a flash, and a host that keeps no descriptor: they stand for no event, on a
/// simulated flash with the same image.
pub fn begin<D: Defaults, F: NorFlash>(
    room: Room,
    alloc: Global,
    flash: &F,
) -> (KeyboardOf<D>, Host)
    ensures runs_on { RunsOn D.defaults (F.image flash.now) result.0 }
    ensures refines { (first : SimValue) → first.image ≡ F.image flash.now → first.armed ≡ None
        → Refines D.defaults first [] result.0 result.1 (F.image flash.now) }
{
    (KeyboardOf::start_in(room, flash), Host::new(alloc))
}

/// One event is taken.
///
/// The theorem on a flash that can be cut: each history of `world` that keyboard, host and flash stood
/// for goes on by one step, which is this event with this answer and leaves this image. What `world`
/// guarantees holds of the longer history, whatever the flash made of its operations, and over all
/// sessions: a power loss inside any operation or start is an event as each other. A step of the flash
/// work makes the operation that `world` names, and a healthy flash lets none fail; only the work, and a
/// power loss, touch the flash.
///
/// `Err` with the flash where it did not start behind a power loss: the keyboard is lost.
pub fn take<D: Defaults, F: RestartableFlash>(
    keyboard: &mut KeyboardOf<D>,
    host: &mut Host,
    flash: F,
    happening: &Happening,
) -> Result<(F, Reported), F::Off>
    requires { RunsOn D.defaults (F.image flash) keyboard.old }
    ensures runs_on { IfOk result (λ taken. RunsOn D.defaults (F.image taken.0) keyboard.new) }
    ensures promise { IfOk result (λ taken. (first : SimValue) (past : List Step) → Refines D.defaults first past keyboard.old host.old (F.image flash)
        → IsPromised F.image F.operates F.rests F.cuts D.defaults first past happening.now taken.1 flash taken.0) }
    ensures takes { IfOk result (λ taken. Takes D.defaults happening.now keyboard.old host.old (F.image flash) taken.1 keyboard.new host.new (F.image taken.0)) }
    ensures untouched { IfOk result (λ taken. Keeps F.rests happening.now flash taken.0) }
    ensures faultless { (n : ℕ) → happening.now ≡ WorkHappens → F.is_faultless flash (n + 1) → IfOk result (λ taken. (taken.1.answer ≢ Worked Idle → F.is_faultless taken.0 n) × (taken.1.answer ≢ Worked Failed)) }
    ensures idle { happening.now ≡ WorkHappens → IfOk result (λ taken. taken.1.answer ≡ Worked Idle → taken.0 ≡ flash) }
    ensures on { (IsLoss happening.now → ⊥) → IsOk result }
    ensures ready { ((off : F.Off) → F.is_ready off) → IsOk result }
{
    take_one(keyboard, host, flash, happening)
}

/// Events are taken in order, and what is told of each is appended.
///
/// The theorem over all sessions: each history of `world` that keyboard, host and flash stood for goes on
/// by a step for each event, of which `take` says what it is; and what `world` guarantees holds of the
/// whole.
///
/// `Err` with the flash where it did not start behind a power loss: the events before that were taken.
pub fn take_all<D: Defaults, F: RestartableFlash>(
    keyboard: &mut KeyboardOf<D>,
    host: &mut Host,
    mut flash: F,
    happenings: &[Happening],
    reported: &mut Vec<Reported>,
) -> Result<F, F::Off>
    requires runs_on { RunsOn D.defaults (F.image flash) keyboard.old }
    requires room { length happenings.now ≤ room_for reported.old }
    ensures runs_on { IfOk result (λ next. RunsOn D.defaults (F.image next) keyboard.new) }
    ensures promise { (first : SimValue) (past : List Step) → Refines D.defaults first past keyboard.old host.old (F.image flash)
        → MatchResult result
        (λ next. AllTaken F.image F.operates F.rests F.cuts D.defaults first past keyboard.new host.new flash next happenings.now reported.old.items reported.new.items)
        (λ _. AllTakenBefore F.image F.operates F.rests F.cuts D.defaults first past flash happenings.now reported.old.items reported.new.items) }
    ensures ready { ((off : F.Off) → F.is_ready off) → IsOk result }
{
    for happening in happenings {
        match take_one(keyboard, host, flash, happening) {
            Ok((next, one)) => {
                flash = next;
                let _ = reported.push(one);
            }
            Err(off) => return Err(off),
        }
    }
    Ok(flash)
}

/// One event is taken, and the history goes on.
fn take_one<D: Defaults, F: RestartableFlash>(
    keyboard: &mut KeyboardOf<D>,
    host: &mut Host,
    flash: F,
    happening: &Happening,
) -> Result<(F, Reported), F::Off>
    requires { RunsOn D.defaults (F.image flash) keyboard.old }
    ensures runs_on { IfOk result (λ taken. RunsOn D.defaults (F.image taken.0) keyboard.new) }
    ensures takes { IfOk result (λ taken. Takes D.defaults happening.now keyboard.old host.old (F.image flash) taken.1 keyboard.new host.new (F.image taken.0)) }
    ensures leaves { IfOk result (λ taken. (first : SimValue) (past : List Step) → Refines D.defaults first past keyboard.old host.old (F.image flash)
        → Leaves F.image F.operates F.rests F.cuts happening.now (next_of D.defaults first past) flash taken.0) }
    ensures untouched { IfOk result (λ taken. Keeps F.rests happening.now flash taken.0) }
    ensures faultless { (n : ℕ) → happening.now ≡ WorkHappens → F.is_faultless flash (n + 1) → IfOk result (λ taken. (taken.1.answer ≢ Worked Idle → F.is_faultless taken.0 n) × (taken.1.answer ≢ Worked Failed)) }
    ensures idle { happening.now ≡ WorkHappens → IfOk result (λ taken. taken.1.answer ≡ Worked Idle → taken.0 ≡ flash) }
    ensures on { (IsLoss happening.now → ⊥) → IsOk result }
    ensures ready { ((off : F.Off) → F.is_ready off) → IsOk result }
{
    match happening {
        Happening::Scan(scan) => Ok((flash, scanned(keyboard, *scan))),
        Happening::Setup(packet) => Ok((flash, set_up(keyboard, host, *packet))),
        Happening::OutPacket(packet) => Ok((flash, out_packet(keyboard, packet))),
        Happening::InPacket => Ok((flash, in_packet(keyboard, host))),
        Happening::Poll => Ok((flash, polled(keyboard, host))),
        Happening::Work => {
            let mut flash = flash;
            let reported = worked(keyboard, &mut flash);
            Ok((flash, reported))
        }
        Happening::Cut(starts) => cut(keyboard, host, flash, starts),
        Happening::CutInWork(whole, starts) => cut_in_work(keyboard, host, flash, *whole, starts),
        Happening::BusReset => Ok((flash, bus_reset(keyboard, host))),
        Happening::Entry(layer, key) => Ok((flash, entry(keyboard, *layer, *key))),
        Happening::Leds => Ok((flash, leds(keyboard))),
    }
}

/// The keyboard takes a scan.
fn scanned<D: Defaults>(keyboard: &mut KeyboardOf<D>, scan: Scan) -> Reported
    ensures runs_on { (image : List ℕ) → RunsOn D.defaults image keyboard.old → RunsOn D.defaults image keyboard.new }
    ensures takes { (host : HostValue) (image : List ℕ) → Takes D.defaults (ScanHappens scan) keyboard.old host image result keyboard.new host image }
{
    keyboard.scan(scan);
    just(Answer::Done)
}

/// A SETUP packet, of which the host knows.
fn set_up<D: Defaults>(keyboard: &mut KeyboardOf<D>, host: &mut Host, packet: [u8; 8]) -> Reported
    ensures runs_on { (image : List ℕ) → RunsOn D.defaults image keyboard.old → RunsOn D.defaults image keyboard.new }
    ensures takes { (image : List ℕ) → Takes D.defaults (Setup packet) keyboard.old host.old image result keyboard.new host.new image }
{
    keyboard.setup(packet);
    host.setup(packet);
    just(Answer::Ack)
}

/// An OUT packet.
fn out_packet<D: Defaults>(keyboard: &mut KeyboardOf<D>, packet: &ArrayVec<u8, 8>) -> Reported
    ensures runs_on { (image : List ℕ) → RunsOn D.defaults image keyboard.old → RunsOn D.defaults image keyboard.new }
    ensures takes { (host : HostValue) (image : List ℕ) → Takes D.defaults (OutPacket packet.now) keyboard.old host image result keyboard.new host image }
{
    just(as_answer(keyboard.out(packet.as_slice())))
}

/// An IN token: a packet of data goes to the host.
fn in_packet<D: Defaults>(keyboard: &mut KeyboardOf<D>, host: &mut Host) -> Reported
    ensures runs_on { (image : List ℕ) → RunsOn D.defaults image keyboard.old → RunsOn D.defaults image keyboard.new }
    ensures takes { (image : List ℕ) → Takes D.defaults InPacket keyboard.old host.old image result keyboard.new host.new image }
{
    let answer = keyboard.in_packet();
    let refused = hears(host, &answer);
    Reported {
        answer: as_answer(answer),
        refused,
    }
}

/// A poll: the host reads the report, in the protocol in force.
fn polled<D: Defaults>(keyboard: &mut KeyboardOf<D>, host: &Host) -> Reported
    ensures runs_on { (image : List ℕ) → RunsOn D.defaults image keyboard.old → RunsOn D.defaults image keyboard.new }
    ensures takes { (image : List ℕ) → Takes D.defaults Poll keyboard.old host.now image result keyboard.new host.now image }
{
    let protocol = keyboard.protocol();
    let Some(bytes) = keyboard.poll() else {
        return just(Answer::Nak);
    };
    let reading = host.read(protocol, bytes.as_slice());
    let refused = is_no_memory(&reading);
    Reported {
        answer: Answer::Sent { bytes, reading },
        refused,
    }
}

/// A step of the flash work.
fn worked<D: Defaults, F: NorFlash>(keyboard: &mut KeyboardOf<D>, flash: &mut F) -> Reported
    requires { RunsOn D.defaults (F.image flash.old) keyboard.old }
    ensures runs_on { RunsOn D.defaults (F.image flash.new) keyboard.new }
    ensures takes { (host : HostValue) → Takes D.defaults WorkHappens keyboard.old host (F.image flash.old) result keyboard.new host (F.image flash.new) }
    ensures leaves { (first : SimValue) (past : List Step) (host : HostValue) → Refines D.defaults first past keyboard.old host (F.image flash.old)
        → Works F.operates (next_of D.defaults first past) flash.old flash.new }
    ensures faultless { (n : ℕ) → F.is_faultless flash.old (n + 1) → (result.answer ≢ Worked Idle → F.is_faultless flash.new n) × (result.answer ≢ Worked Failed) }
    ensures idle { result.answer ≡ Worked Idle → flash.new ≡ flash.old }
{
    let _before = flash.pages();
    let work = work(keyboard, flash);
    let _after = flash.pages();
    just(Answer::Worked(work))
}

/// All RAM of the keyboard is lost, and it starts on its flash, once the flash has started.
fn cut<D: Defaults, F: RestartableFlash>(
    keyboard: &mut KeyboardOf<D>,
    host: &mut Host,
    flash: F,
    starts: &ArrayVec<u32, 64>,
) -> Result<(F, Reported), F::Off>
    ensures runs_on { IfOk result (λ taken. RunsOn D.defaults (F.image taken.0) keyboard.new) }
    ensures takes { IfOk result (λ taken. Takes D.defaults (Cut starts.now) keyboard.old host.old (F.image flash) taken.1 keyboard.new host.new (F.image taken.0)) }
    ensures rests { IfOk result (λ taken. F.rests flash taken.0) }
    ensures ready { ((off : F.Off) → F.is_ready off) → IsOk result }
{
    match start_behind(flash.power_off(), starts.as_slice()) {
        Ok(flash) => {
            let reported = cut_off(keyboard, host, &flash);
            Ok((flash, reported))
        }
        Err(off) => Err(off),
    }
}

/// The same in the middle of a step of the flash work, inside the operation of the flash below that comes
/// after `whole` others.
fn cut_in_work<D: Defaults, F: RestartableFlash>(
    keyboard: &mut KeyboardOf<D>,
    host: &mut Host,
    flash: F,
    whole: u32,
    starts: &ArrayVec<u32, 64>,
) -> Result<(F, Reported), F::Off>
    requires { RunsOn D.defaults (F.image flash) keyboard.old }
    ensures runs_on { IfOk result (λ taken. RunsOn D.defaults (F.image taken.0) keyboard.new) }
    ensures takes { IfOk result (λ taken. Takes D.defaults (CutInWork whole starts.now) keyboard.old host.old (F.image flash) taken.1 keyboard.new host.new (F.image taken.0)) }
    ensures leaves { IfOk result (λ taken. (first : SimValue) (past : List Step) → Refines D.defaults first past keyboard.old host.old (F.image flash)
        → CutsIn F.rests F.cuts whole (next_of D.defaults first past) flash taken.0) }
    ensures ready { ((off : F.Off) → F.is_ready off) → IsOk result }
{
    let _before = flash.pages();
    match work_cut(keyboard, flash, whole, starts) {
        Ok(left) => {
            let reported = cut_off(keyboard, host, &left);
            Ok((left, reported))
        }
        Err(off) => Err(off),
    }
}

/// The keyboard starts on its flash, and the host loses it.
fn cut_off<D: Defaults, F: NorFlash>(
    keyboard: &mut KeyboardOf<D>,
    host: &mut Host,
    flash: &F,
) -> Reported
    ensures refines { keyboard_refines.Refines D.defaults (F.image flash.now) [] keyboard.new }
    ensures runs_on { RunsOn D.defaults (F.image flash.now) keyboard.new }
    ensures host { (past : List HostCall) → host_refines.Refines past host.old → host_refines.Refines (lost ∷ past) host.new }
    ensures reported { result ≡ record { answer = Restarted; refused = false } }
{
    keyboard.restart(flash);
    host.lose();
    just(Answer::Restarted)
}

/// A bus reset, of which the host knows.
fn bus_reset<D: Defaults>(keyboard: &mut KeyboardOf<D>, host: &mut Host) -> Reported
    ensures runs_on { (image : List ℕ) → RunsOn D.defaults image keyboard.old → RunsOn D.defaults image keyboard.new }
    ensures takes { (image : List ℕ) → Takes D.defaults BusReset keyboard.old host.old image result keyboard.new host.new image }
{
    keyboard.bus_reset();
    host.lose();
    just(Answer::Done)
}

/// The code of an entry.
fn entry<D: Defaults>(keyboard: &KeyboardOf<D>, layer: LayerNo, key: KeyNo) -> Reported
    ensures { (host : HostValue) (image : List ℕ) → Takes D.defaults (Entry layer key) keyboard.now host image result keyboard.now host image }
{
    just(Answer::EntryIs(keyboard.keymap().get(layer, key)))
}

/// The LEDs.
fn leds<D: Defaults>(keyboard: &KeyboardOf<D>) -> Reported
    ensures { (host : HostValue) (image : List ℕ) → Takes D.defaults Leds keyboard.now host image result keyboard.now host image }
{
    just(Answer::LedsAre(keyboard.leds()))
}

/// The host takes what an IN packet is answered by: a packet of data, for which it may be refused
/// memory.
fn hears(host: &mut Host, answer: &EpAnswer) -> bool
    ensures refines { (past : List HostCall) → host_refines.Refines past host.old
        → host_refines.Refines (with_heard (heard (In answer.now) (not result)) past) host.new }
    ensures refused { (past : List HostCall) → host_refines.Refines past host.old → MayRefuse past answer.now result }
{
    match answer {
        EpAnswer::Packet(packet) => host.packet(packet.as_slice()).is_err(),
        EpAnswer::Ack | EpAnswer::Nak | EpAnswer::Stall(_) => false,
    }
}

/// An answer to an event in which the host took no memory.
fn just(answer: Answer) -> Reported
    ensures { result ≡ record { answer = answer; refused = false } }
{
    Reported {
        answer,
        refused: false,
    }
}

/// The answer of endpoint 0.
fn as_answer(answer: EpAnswer) -> Answer
    ensures { result ≡ as_answer answer }
{
    match answer {
        EpAnswer::Ack => Answer::Ack,
        EpAnswer::Nak => Answer::Nak,
        EpAnswer::Packet(packet) => Answer::Packet(packet),
        EpAnswer::Stall(why) => Answer::Stall(why),
    }
}

/// Whether a growth was refused in a reading.
fn is_no_memory(reading: &Reading) -> bool
    ensures { result ≡ is_no_memory reading.now }
{
    matches!(reading, Reading::NoMemory)
}
