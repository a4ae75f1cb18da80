//! The keyboard with its flash, as a device behind the USB device layer.

ghost use Rattle.std.specs.Prelude.{◌≡◌, ◌≢◌, ◌+◌, ◌≤◌, ◌∷◌, ◌||◌, [], ℕ, false, List, length};
ghost use Rattle.std.specs.Option.{option_map};
ghost use Rattle.control_ep.specs.declared.answer.EpAnswer.{EpAnswer as Answer};
ghost use Rattle.page_turnover.specs.Steps.{CountsAs};
ghost use Rattle.keymap_store.specs.declared.store.Work.{Work};
ghost use Rattle.usb_device.specs.Calls.{EpCall};
ghost use Rattle.usb_device.specs.Calls as Eps;
ghost use Rattle.keyboard.specs.Calls.{Call, SetUp, Out, In, Polled, Worked, BusReset};
ghost use Rattle.usb_keyboard.specs.Plain.{plain, is_taken, works_on};
ghost use Rattle.usb_keyboard.specs.representation.Relation.{RunsSince};

use crate::held::{HoldsKeyboard, PhantomData};
use arrayvec::ArrayVec;
use keyboard::{KeyboardOf, NorFlash, Room, Scan, Why, Work};
use layers::{Defaults, Standard};
use std::marker::Model;
use usb_device::{Endpoints, EpAnswer, Report, ScansMatrix, Works};

/// A keyboard with these defaults, or one that is lent, with the flash that keeps its keymap.
#[derive(Drop)]
pub struct UsbKeyboardOf<D: Defaults, K: HoldsKeyboard<D> + Drop, F: NorFlash + Drop> {
    keyboard: K,
    pub(crate) flash: F,
    defaults: PhantomData<D>,
    may_work: bool,
    why: Option<Why>,
}

/// A keyboard with the standard defaults, with its flash.
pub type UsbKeyboard<F> = UsbKeyboardOf<Standard, KeyboardOf<Standard>, F>;

// The keyboard runs on this flash.
impl<D: Defaults, K: HoldsKeyboard<D> + Drop, F: NorFlash + Drop> Model for UsbKeyboardOf<D, K, F> {
    ghost use Rattle.keyboard.specs.representation.Value.{KeyboardValue, RunsOn};
    ghost use Rattle.std.specs.Prelude.{Bool};

    ghost Value = { KeyboardValue × F × Bool };

    ghost view = { λ k. (K.held k.keyboard, k.flash, k.may_work) };

    ghost invariant = { λ k. RunsOn D.defaults (F.image k.flash) (K.held k.keyboard) };
}

/// An answer without the reason of a STALL, which a host does not see.
fn plain(answer: keyboard::EpAnswer) -> EpAnswer
    ensures { result ≡ plain answer }
{
    match answer {
        keyboard::EpAnswer::Ack => EpAnswer::Ack,
        keyboard::EpAnswer::Nak => EpAnswer::Nak,
        keyboard::EpAnswer::Packet(packet) => EpAnswer::Packet(packet),
        keyboard::EpAnswer::Stall(_) => EpAnswer::Stall,
    }
}

/// The reason of a STALL.
fn reason(answer: &keyboard::EpAnswer) -> Option<Why> {
    match answer {
        keyboard::EpAnswer::Stall(why) => Some(*why),
        keyboard::EpAnswer::Ack | keyboard::EpAnswer::Nak | keyboard::EpAnswer::Packet(_) => None,
    }
}

/// Whether a packet was acknowledged.
fn is_taken(answer: &keyboard::EpAnswer) -> bool
    ensures { result ≡ is_taken (plain answer.now) }
{
    match answer {
        keyboard::EpAnswer::Ack => true,
        keyboard::EpAnswer::Nak | keyboard::EpAnswer::Packet(_) | keyboard::EpAnswer::Stall(_) =>
            false,
    }
}

/// The bytes of a report, of which there are at most 23.
pub(crate) fn short(bytes: &[u8]) -> Report
    ensures { length bytes.now ≤ 23 → result.items ≡ bytes.now }
{
    let mut report = ArrayVec::new();
    let _full = report.try_extend_from_slice(bytes);
    report
}

impl<D: Defaults, F: NorFlash + Drop> UsbKeyboardOf<D, KeyboardOf<D>, F> {
    /// The power comes: the keyboard starts on this flash, whose keymap it reads.
    pub fn start_in(room: Room, flash: F) -> UsbKeyboardOf<D, KeyboardOf<D>, F>
        ensures starts { RunsSince D.defaults (F.image flash) [] result.0 (F.image result.1) }
        ensures may_work { result.2 ≡ false }
    {
        let keyboard = KeyboardOf::start_in(room, &flash);
        UsbKeyboardOf {
            keyboard,
            flash,
            defaults: PhantomData,
            may_work: false,
            why: None,
        }
    }
}

impl<D: Defaults, K: HoldsKeyboard<D> + Drop, F: NorFlash + Drop> UsbKeyboardOf<D, K, F> {
    /// The power comes: the keyboard, which may be a `&mut` of one, starts over on this flash, whose keymap it reads.
    pub fn start_on(keyboard: K, flash: F) -> UsbKeyboardOf<D, K, F>
        ensures starts { RunsSince D.defaults (F.image flash) [] result.0 (F.image result.1) }
        ensures may_work { result.2 ≡ false }
    {
        let mut keyboard = keyboard;
        keyboard.restart(&flash);
        UsbKeyboardOf {
            keyboard,
            flash,
            defaults: PhantomData,
            may_work: false,
            why: None,
        }
    }

    /// The power went and came back: the keyboard starts over on its flash as it is.
    pub fn restart(&mut self)
        ensures starts { RunsSince D.defaults (F.image self.old.1) [] self.new.0 (F.image self.new.1) }
        ensures may_work { self.new.2 ≡ false }
    {
        self.keyboard.restart(&self.flash);
        self.may_work = false;
        self.why = None;
    }

    /// A step of the flash work, at most one program or erase, and what it came to.
    pub fn step(&mut self) -> Work
        ensures reported { (start : List ℕ) (past : List Call) → RunsSince D.defaults start past self.old.0 (F.image self.old.1)
            → RunsSince D.defaults start (Worked result (F.image self.new.1) ∷ past) self.new.0 (F.image self.new.1) }
        ensures may_work { self.new.2 ≡ works_on result }
        // at most one operation is made, and a step that fails is a fault of the flash
        ensures counts { CountsAs (result ≡ Work.Idle) (result ≡ Work.Failed) (F.operations self.old.1) (F.operations self.new.1) (F.faults self.old.1) (F.faults self.new.1) }
        // without an operation the flash stays as it is
        ensures untouched { result ≡ Work.Idle → self.new.1 ≡ self.old.1 }
        // a healthy flash lets no step fail, and an operation uses up one of those that it has left
        ensures faultless { (n : ℕ) → F.is_faultless self.old.1 (n + 1) → (result ≢ Work.Idle → F.is_faultless self.new.1 n) × (result ≢ Work.Failed) }
    {
        let work = self.keyboard.work(&mut self.flash);
        self.may_work = work == Work::Working;
        work
    }

    /// The keyboard, to be looked at: its keymap, its LEDs, its protocol.
    pub fn keyboard(&self) -> &KeyboardOf<D>
        ensures { result.now ≡ self.now.0 }
    {
        self.keyboard.keyboard()
    }

    /// The flash, to be looked at.
    pub fn flash(&self) -> &F
        ensures { result.now ≡ self.now.1 }
    {
        &self.flash
    }

    /// The power goes: the flash.
    pub fn into_flash(self) -> F
        ensures { result ≡ self.1 }
    {
        self.flash
    }

    /// Whether a command may work: where this is false, a step makes no flash operation. It is true from an OUT packet that
    /// was acknowledged until a step finds no more to do.
    pub fn may_work(&self) -> bool
        ensures { result ≡ self.now.2 }
    {
        self.may_work
    }

    /// Why endpoint 0 was stalled last in the transfer under way, if it was. No clause says it.
    pub fn why(&self) -> Option<Why> {
        self.why
    }
}

impl<D: Defaults, K: HoldsKeyboard<D> + Drop, F: NorFlash + Drop> Endpoints
    for UsbKeyboardOf<D, K, F> {
    ghost use Rattle.usb_keyboard.specs.representation.Relation.{RefinesUsb};

    ghost refines = { λ calls k. RefinesUsb D.defaults calls k.0 (F.image k.1) };

    fn setup(&mut self, packet: [u8; 8])
        ensures reported { (start : List ℕ) (past : List Call) → RunsSince D.defaults start past self.old.0 (F.image self.old.1)
            → RunsSince D.defaults start (SetUp packet ∷ past) self.new.0 (F.image self.new.1) }
        ensures refines { (calls : List EpCall) → RefinesUsb D.defaults calls self.old.0 (F.image self.old.1) → RefinesUsb D.defaults (Eps.SetUp packet ∷ calls) self.new.0 (F.image self.new.1) }
        ensures flash { self.new.1 ≡ self.old.1 }
        ensures may_work { self.new.2 ≡ self.old.2 }
    {
        self.keyboard.setup(packet);
        self.why = None;
    }

    fn out(&mut self, packet: &[u8]) -> EpAnswer
        ensures reported { (start : List ℕ) (past : List Call) → RunsSince D.defaults start past self.old.0 (F.image self.old.1)
            → (answer : Answer) × RunsSince D.defaults start (Out packet.now answer ∷ past) self.new.0 (F.image self.new.1) × (result ≡ plain answer) }
        ensures refines { (calls : List EpCall) → RefinesUsb D.defaults calls self.old.0 (F.image self.old.1) → RefinesUsb D.defaults (Eps.Out packet.now result ∷ calls) self.new.0 (F.image self.new.1) }
        ensures flash { self.new.1 ≡ self.old.1 }
        ensures may_work { self.new.2 ≡ (self.old.2 || is_taken result) }
    {
        let answer = self.keyboard.out(packet);
        self.may_work = self.may_work || is_taken(&answer);
        self.why = reason(&answer);
        plain(answer)
    }

    fn in_packet(&mut self) -> EpAnswer
        ensures reported { (start : List ℕ) (past : List Call) → RunsSince D.defaults start past self.old.0 (F.image self.old.1)
            → (answer : Answer) × RunsSince D.defaults start (In answer ∷ past) self.new.0 (F.image self.new.1) × (result ≡ plain answer) }
        ensures refines { (calls : List EpCall) → RefinesUsb D.defaults calls self.old.0 (F.image self.old.1) → RefinesUsb D.defaults (Eps.In result ∷ calls) self.new.0 (F.image self.new.1) }
        ensures flash { self.new.1 ≡ self.old.1 }
        ensures may_work { self.new.2 ≡ self.old.2 }
    {
        let answer = self.keyboard.in_packet();
        self.why = reason(&answer);
        plain(answer)
    }

    fn poll(&mut self) -> Option<Report>
        ensures reported { (start : List ℕ) (past : List Call) → RunsSince D.defaults start past self.old.0 (F.image self.old.1)
            → RunsSince D.defaults start (Polled (option_map (λ r. r.items) result) ∷ past) self.new.0 (F.image self.new.1) }
        ensures refines { (calls : List EpCall) → RefinesUsb D.defaults calls self.old.0 (F.image self.old.1) → RefinesUsb D.defaults (Eps.Polled (option_map (λ r. r.items) result) ∷ calls) self.new.0 (F.image self.new.1) }
        ensures may_work { self.new.2 ≡ self.old.2 }
    {
        match self.keyboard.poll() {
            Some(report) => Some(short(&report)),
            None => None,
        }
    }

    fn bus_reset(&mut self)
        ensures reported { (start : List ℕ) (past : List Call) → RunsSince D.defaults start past self.old.0 (F.image self.old.1)
            → RunsSince D.defaults start (BusReset ∷ past) self.new.0 (F.image self.new.1) }
        ensures refines { (calls : List EpCall) → RefinesUsb D.defaults calls self.old.0 (F.image self.old.1) → RefinesUsb D.defaults (Eps.BusReset ∷ calls) self.new.0 (F.image self.new.1) }
        ensures may_work { self.new.2 ≡ self.old.2 }
    {
        self.keyboard.bus_reset();
    }
}

impl<D: Defaults, K: HoldsKeyboard<D> + Drop, F: NorFlash + Drop> Works for UsbKeyboardOf<D, K, F> {
    ghost use Rattle.usb_keyboard.specs.representation.Relation.{StepIs};

    ghost works = { λ k n. StepIs D.defaults k.0 (F.image k.1) n.0 (F.image n.1) n.2 };

    fn work(&mut self) {
        let _work = self.step();
    }
}

impl<D: Defaults, K: HoldsKeyboard<D> + Drop, F: NorFlash + Drop> ScansMatrix
    for UsbKeyboardOf<D, K, F> {
    ghost use Rattle.usb_keyboard.specs.representation.Relation.{ScanIs};

    ghost scans = { λ k rows n. ScanIs D.defaults k.0 (F.image k.1) rows n.0 (F.image n.1) × (n.2 ≡ k.2) };

    fn scan(&mut self, rows: [u16; 6]) {
        self.keyboard.scan(Scan { rows });
    }
}
