//! The keyboard with its host and its flash, and the events that they take.

ghost use Rattle.std.specs.Prelude.{◌≡◌, ◌+◌, ◌≤◌, ℕ, List, [], ◌∷◌, None, Some, length, vec_len, is_ok, not, false, IfOk, OnOk};
ghost use Rattle.host.specs.representation.Refines as host_refines;
ghost use Rattle.host.specs.Calls.{HostCall, lost};
ghost use Rattle.keyboard.specs.Calls.{In};
ghost use Rattle.keyboard.specs.representation.Relation as keyboard_refines;
ghost use Rattle.keyboard.specs.representation.Value.{RunsOn};
ghost use Rattle.world.specs.declared.event.Answer.TheVariants.{Restarted};
ghost use Rattle.flash_model.specs.Sim.{SimValue};
ghost use Rattle.world.specs.declared.event.Event.TheVariants.{Scan as ScanEvent, Setup, OutPacket, InPacket, Poll, Work as WorkEvent, WorkFault, Cut, CutInWork, BusReset, Entry, SlotAt, Leds};
ghost use Rattle.world.specs.Kinds.{Step, as_answer};
ghost use Rattle.world.specs.Heard.{heard, with_heard};
ghost use Rattle.world.specs.Conforming.{MayRefuse, is_no_memory};

use crate::event::{Answer, Event, Reported};
use crate::injector::{Injector, Operation};
use arrayvec::ArrayVec;
use debounce::Scan;
use flash_model::{Mask, NorFlash, PAGE_SLOTS, SimFlash};
use host::{Host, Reading};
use keyboard::{EpAnswer, KeyboardOf};
use keymap_store::Work;
use layers::{Defaults, KeyNo, LayerNo, Standard};
use std::alloc::{AllocError, Global};
use std::marker::Model;

/// A keyboard with these defaults on a simulated flash, and a host that reads its reports.
#[derive(Debug, Drop)]
pub struct WorldOf<D: Defaults> {
    keyboard: KeyboardOf<D>,
    host: Host,
    injector: Injector,
}

/// A world with the standard defaults.
pub type World = WorldOf<Standard>;

impl<D: Defaults> Model for WorldOf<D> {
    ghost use Rattle.std.specs.Prelude.{◌≡◌, None};
    ghost use Rattle.keyboard.specs.representation.Value.{RunsOn};
    ghost use Rattle.world.specs.representation.Value.{WorldValue};

    ghost Value = { WorldValue };

    ghost view = { λ w. record { keyboard = w.keyboard; host = w.host; flash = w.injector.flash; asked = w.injector.asked } };

    ghost invariant = { λ w. RunsOn D.defaults w.injector.flash.image w.keyboard × (w.injector.tear ≡ None) };
}

impl<D: Defaults> WorldOf<D> {
    ghost use Rattle.host.specs.representation.Refines as host_refines;
    ghost use Rattle.world.specs.History.{host_calls};
    ghost use Rattle.world.specs.Asked.{asked_after};
    ghost use Rattle.world.specs.Erases.{ErasesSeldom};
    ghost use Rattle.world.specs.Promise.{Promise};
    ghost use Rattle.world.specs.Relation.{Runs, room_for};
    ghost use Rattle.world.specs.representation.Relation.{Refines};
    ghost use Rattle.world.specs.representation.Private.{Takes, Went};

    /// Starts a keyboard on a flash, whose keymap it reads, beside a host that keeps no descriptor.
    /// `AllocError` where there was no memory for the reports that wait; the flash is then dropped.
    pub fn new(alloc: Global, flash: SimFlash) -> Result<WorldOf<D>, AllocError>
        // it stands for no event, on this flash
        ensures starts { IfOk result (λ world. Refines D.defaults flash [] world) }
        // of which the guarantee holds
        ensures promise { Promise D.defaults flash [] }
        // the flash is as it was
        ensures untouched { IfOk result (λ world. world.flash ≡ flash) }
    {
        let keyboard = KeyboardOf::start(alloc, &flash)?;
        Ok(WorldOf {
            keyboard,
            host: Host::new(alloc),
            injector: Injector {
                flash,
                tear: None,
                asked: None,
            },
        })
    }

    /// Returns the flash.
    pub fn flash(&self) -> &SimFlash
        ensures { result.now ≡ self.now.flash }
    {
        &self.injector.flash
    }

    /// Takes the flash out of the world: keyboard and host are dropped.
    pub fn into_flash(self) -> SimFlash
        ensures { result ≡ self.flash }
    {
        self.injector.flash
    }

    /// Returns the flash operation that the latest step of the flash work asked for; `None` where it
    /// asked for none.
    pub fn operation(&self) -> Option<Operation>
        ensures same { result ≡ self.now.asked }
        // it is the next one of the command at work, as it was when that step came
        ensures next { (start : SimValue) (past : List Step) → Refines D.defaults start past self.now → result ≡ asked_after D.defaults start past }
    {
        self.injector.asked
    }

    /// Returns the host.
    pub fn host(&self) -> &Host
        // it stands for all that it was told: the SETUP packets, the packets of data that IN packets were answered by, and
        // that the keyboard was cut off or reset
        ensures { (start : SimValue) (past : List Step) → Refines D.defaults start past self.now → host_refines.Refines (host_calls past) result.now }
    {
        &self.host
    }

    /// Takes the events in order, and appends the answer of each.
    ///
    /// `AllocError` where there was no memory: for an answer, whose event and those after it were then
    /// not taken; or for the host, which drops what it gathers or reads `NoMemory`: that event was
    /// taken, its answer is appended, and those after it were not taken. A keyboard takes no memory
    /// once it is there.
    pub fn run(&mut self, events: &[Event], answers: &mut Vec<Answer>) -> Result<(), AllocError>
        // From each history that the world stood for it makes a longer one, by the events that were taken with their answers,
        // and the guarantee holds of that.
        ensures promise { Runs D.defaults (Promise D.defaults) self.old self.new events.now (room_for answers.old) answers.old.items answers.new.items (is_ok result) }
        // In that history a page is erased at most once more than headers are committed, cuts catch a command and commands fail.
        ensures erases { Runs D.defaults (ErasesSeldom D.defaults) self.old self.new events.now (room_for answers.old) answers.old.items answers.new.items (is_ok result) }
        // Ok says that all events were taken, and there is at most one answer for each.
        ensures all { OnOk result (vec_len answers.new ≡ vec_len answers.old + length events.now) }
        ensures at_most { vec_len answers.new ≤ vec_len answers.old + length events.now }
    {
        self.take_all(events, answers)
    }

    /// Takes the events in order.
    fn take_all(&mut self, events: &[Event], answers: &mut Vec<Answer>) -> Result<(), AllocError>
        ensures went { (start : SimValue) (past : List Step) → Refines D.defaults start past self.old
            → Went D.defaults start past self.new events.now (room_for answers.old) answers.old.items answers.new.items (is_ok result) }
        ensures all { OnOk result (vec_len answers.new ≡ vec_len answers.old + length events.now) }
        ensures at_most { vec_len answers.new ≤ vec_len answers.old + length events.now }
    {
        for event in events {
            // Room comes first: without it the event has not happened.
            answers.reserve(1)?;
            let reported = self.step(event);
            answers.push(reported.answer)?;
            if reported.refused {
                return Err(AllocError);
            }
        }
        Ok(())
    }

    /// Takes one event.
    fn step(&mut self, event: &Event) -> Reported
        ensures { Takes D.defaults event.now self.old result self.new }
    {
        match event {
            Event::Scan(scan) => self.scan(*scan),
            Event::Setup(bytes) => self.setup(*bytes),
            Event::OutPacket(packet) => self.out_packet(packet),
            Event::InPacket => self.in_packet(),
            Event::Poll => self.poll(),
            Event::Work => self.work(),
            Event::WorkFault(mask) => self.work_fault(mask),
            Event::Cut => self.cut(),
            Event::CutInWork(mask) => self.cut_in_work(mask),
            Event::BusReset => self.bus_reset(),
            Event::Entry(layer, key) => self.entry(*layer, *key),
            Event::SlotAt { page, slot } => self.slot_at(*page, *slot),
            Event::Leds => self.leds(),
        }
    }

    /// The keyboard takes a scan.
    fn scan(&mut self, scan: Scan) -> Reported
        ensures { Takes D.defaults (ScanEvent scan) self.old result self.new }
    {
        self.keyboard.scan(scan);
        just(Answer::Done)
    }

    /// A SETUP packet, of which the host knows.
    fn setup(&mut self, packet: [u8; 8]) -> Reported
        ensures { Takes D.defaults (Setup packet) self.old result self.new }
    {
        self.keyboard.setup(packet);
        self.host.setup(packet);
        just(Answer::Ack)
    }

    /// An OUT packet.
    fn out_packet(&mut self, packet: &ArrayVec<u8, 8>) -> Reported
        ensures { Takes D.defaults (OutPacket packet.now) self.old result self.new }
    {
        just(as_answer(self.keyboard.out(packet.as_slice())))
    }

    /// An IN token: a packet of data goes to the host.
    fn in_packet(&mut self) -> Reported
        ensures { Takes D.defaults InPacket self.old result self.new }
    {
        let answer = self.keyboard.in_packet();
        let refused = hears(&mut self.host, &answer);
        Reported {
            answer: as_answer(answer),
            refused,
        }
    }

    /// A poll: the host reads the report, in the protocol in force.
    fn poll(&mut self) -> Reported
        ensures { Takes D.defaults Poll self.old result self.new }
    {
        let protocol = self.keyboard.protocol();
        let Some(bytes) = self.keyboard.poll() else {
            return just(Answer::Nak);
        };
        let reading = self.host.read(protocol, bytes.as_slice());
        let refused = is_no_memory(&reading);
        Reported {
            answer: Answer::Sent { bytes, reading },
            refused,
        }
    }

    /// A step of the flash work.
    fn work(&mut self) -> Reported
        ensures { Takes D.defaults WorkEvent self.old result self.new }
    {
        self.injector.asked = None;
        let work = self.keyboard.work(&mut self.injector);
        self.injector.tear = None;
        just(Answer::Worked(work))
    }

    /// A step of the flash work, whose operation the mask tears.
    fn work_fault(&mut self, tear: &Mask) -> Reported
        ensures { Takes D.defaults (WorkFault tear.now) self.old result self.new }
    {
        self.injector.asked = None;
        self.injector.tear = Some(copy_of(tear));
        let work = self.keyboard.work(&mut self.injector);
        self.injector.tear = None;
        just(Answer::Worked(work))
    }

    /// All RAM of the keyboard is lost, and it starts on its flash.
    fn cut(&mut self) -> Reported
        ensures { Takes D.defaults Cut self.old result self.new }
    {
        start_anew(&mut self.keyboard, &mut self.host, &self.injector.flash)
    }

    /// The same in the middle of a step of the flash work, whose operation the mask tears.
    fn cut_in_work(&mut self, mask: &Mask) -> Reported
        ensures { Takes D.defaults (CutInWork mask.now) self.old result self.new }
    {
        self.injector.asked = None;
        self.injector.tear = Some(copy_of(mask));
        let _ = self.keyboard.work(&mut self.injector);
        self.injector.tear = None;
        start_anew(&mut self.keyboard, &mut self.host, &self.injector.flash)
    }

    /// A bus reset, of which the host knows.
    fn bus_reset(&mut self) -> Reported
        ensures { Takes D.defaults BusReset self.old result self.new }
    {
        self.keyboard.bus_reset();
        self.host.lose();
        just(Answer::Done)
    }

    /// The code of an entry.
    fn entry(&mut self, layer: LayerNo, key: KeyNo) -> Reported
        ensures { Takes D.defaults (Entry layer key) self.old result self.new }
    {
        just(Answer::EntryIs(self.keyboard.keymap().get(layer, key)))
    }

    /// The bytes of a slot.
    fn slot_at(&mut self, page: u8, slot: u16) -> Reported
        ensures { Takes D.defaults (SlotAt page slot) self.old result self.new }
    {
        let pages = self.injector.flash.pages();
        if page as usize >= pages {
            return just(Answer::NoSlot);
        }
        if slot as usize >= PAGE_SLOTS {
            return just(Answer::NoSlot);
        }
        just(Answer::SlotIs(self.injector.flash.read_slot(page as usize, slot as usize)))
    }

    /// The LEDs.
    fn leds(&mut self) -> Reported
        ensures { Takes D.defaults Leds self.old result self.new }
    {
        just(Answer::LedsAre(self.keyboard.leds()))
    }
}

/// The keyboard loses all RAM and starts on its flash, and the host loses the keyboard.
fn start_anew<D: Defaults>(
    keyboard: &mut KeyboardOf<D>,
    host: &mut Host,
    flash: &SimFlash,
) -> Reported
    ensures refines { keyboard_refines.Refines D.defaults flash.now.image [] keyboard.new }
    ensures runs_on { RunsOn D.defaults flash.now.image keyboard.new }
    ensures host { (past : List HostCall) → host_refines.Refines past host.old → host_refines.Refines (lost ∷ past) host.new }
    ensures reported { result ≡ record { answer = Restarted; refused = false } }
{
    keyboard.restart(flash);
    host.lose();
    just(Answer::Restarted)
}

/// The host takes what an IN packet is answered by: a packet of data, for which it may be refused
/// memory.
fn hears(host: &mut Host, answer: &EpAnswer) -> bool
    ensures refines { (past : List HostCall) → host_refines.Refines past host.old
        → host_refines.Refines (with_heard (heard (In answer.now) (not result)) past) host.new }
    ensures refused { (past : List HostCall) → host_refines.Refines past host.old → MayRefuse past answer.now result }
{
    match answer {
        EpAnswer::Packet(packet) => host.packet(packet.as_slice()).is_err(),
        EpAnswer::Ack | EpAnswer::Nak | EpAnswer::Stall(_) => false,
    }
}

/// An answer to an event in which the host took no memory.
fn just(answer: Answer) -> Reported
    ensures { result ≡ record { answer = answer; refused = false } }
{
    Reported {
        answer,
        refused: false,
    }
}

/// The answer of endpoint 0.
fn as_answer(answer: EpAnswer) -> Answer
    ensures { result ≡ as_answer answer }
{
    match answer {
        EpAnswer::Ack => Answer::Ack,
        EpAnswer::Nak => Answer::Nak,
        EpAnswer::Packet(packet) => Answer::Packet(packet),
        EpAnswer::Stall(why) => Answer::Stall(why),
    }
}

/// Whether a growth was refused in a reading.
fn is_no_memory(reading: &Reading) -> bool
    ensures { result ≡ is_no_memory reading.now }
{
    matches!(reading, Reading::NoMemory)
}

/// The same mask once more.
fn copy_of(mask: &Mask) -> Mask
    ensures { result.items ≡ mask.now.items }
{
    let mut copy = Mask::new();
    let _ = copy.try_extend_from_slice(mask.as_slice());
    copy
}
