//! A keyboard that a device has, or that it is lent.

ghost use Rattle.std.specs.Prelude.{◌≡◌, ◌≢◌, ◌+◌, ◌∷◌, [], ℕ, List};
ghost use Rattle.std.specs.Option.{option_map};
ghost use Rattle.keyboard.specs.Calls.{Call, Scanned, SetUp, Out, In, Polled, Worked, BusReset, image_after};
ghost use Rattle.keyboard.specs.representation.Relation.{Refines};
ghost use Rattle.page_turnover.specs.Steps.{CountsAs};
ghost use Rattle.keymap_store.specs.declared.store.Work.{Work};
ghost use Rattle.keyboard.specs.representation.Value.{KeyboardValue, RunsOn};
ghost use Rattle.key_reports.specs.Past.{answer_after};
ghost use Rattle.keyboard.specs.Effects.{protocol_after};
ghost use Rattle.keyboard.specs.Keys.{key_calls};

use keyboard::{EpAnswer, KeyboardOf, NorFlash, Report, Scan, Work};
use layers::Defaults;
pub(crate) use std::marker::PhantomData;

/// A keyboard, or a `&mut` of one that lies elsewhere, as in a `static`. Each call is the keyboard's own.
pub trait HoldsKeyboard<D: Defaults> {
    /// The keyboard.
    ghost held: { Self → KeyboardValue };

    /// The keyboard, to be looked at.
    fn keyboard(&self) -> &KeyboardOf<D>
        ensures { result.now ≡ held self.now };

    /// Starts over on this flash.
    fn restart<F: NorFlash>(&mut self, flash: &F)
        ensures refines { Refines D.defaults (F.image flash.now) [] (held self.new) }
        ensures runs_on { RunsOn D.defaults (F.image flash.now) (held self.new) };

    /// A scan of the matrix.
    fn scan(&mut self, scan: Scan)
        ensures refines { (start : List ℕ) (past : List Call) → Refines D.defaults start past (held self.old) → Refines D.defaults start (Scanned scan ∷ past) (held self.new) }
        ensures runs_on { (image : List ℕ) → RunsOn D.defaults image (held self.old) → RunsOn D.defaults image (held self.new) };

    /// A SETUP packet of endpoint 0.
    fn setup(&mut self, packet: [u8; 8])
        ensures refines { (start : List ℕ) (past : List Call) → Refines D.defaults start past (held self.old) → Refines D.defaults start (SetUp packet ∷ past) (held self.new) }
        ensures runs_on { (image : List ℕ) → RunsOn D.defaults image (held self.old) → RunsOn D.defaults image (held self.new) };

    /// An OUT packet of endpoint 0.
    fn out(&mut self, packet: &[u8]) -> EpAnswer
        ensures refines { (start : List ℕ) (past : List Call) → Refines D.defaults start past (held self.old) → Refines D.defaults start (Out packet.now result ∷ past) (held self.new) }
        ensures runs_on { (image : List ℕ) → RunsOn D.defaults image (held self.old) → RunsOn D.defaults image (held self.new) };

    /// An IN token of endpoint 0.
    fn in_packet(&mut self) -> EpAnswer
        ensures refines { (start : List ℕ) (past : List Call) → Refines D.defaults start past (held self.old) → Refines D.defaults start (In result ∷ past) (held self.new) }
        ensures runs_on { (image : List ℕ) → RunsOn D.defaults image (held self.old) → RunsOn D.defaults image (held self.new) };

    /// A poll of endpoint 1.
    fn poll(&mut self) -> Option<Report>
        ensures refines { (start : List ℕ) (past : List Call) → Refines D.defaults start past (held self.old)
            → Refines D.defaults start (Polled (option_map (λ r. r.items) result) ∷ past) (held self.new) }
        ensures answer { (start : List ℕ) (past : List Call) → Refines D.defaults start past (held self.old)
            → option_map (λ r. r.items) result ≡ answer_after (protocol_after past) (key_calls D.defaults start past) }
        ensures runs_on { (image : List ℕ) → RunsOn D.defaults image (held self.old) → RunsOn D.defaults image (held self.new) };

    /// A step of the flash work, on the flash that it started on.
    fn work<F: NorFlash>(&mut self, flash: &mut F) -> Work
        requires { RunsOn D.defaults (F.image flash.old) (held self.old) }
        ensures refines { (start : List ℕ) (past : List Call) → Refines D.defaults start past (held self.old) → image_after start past ≡ F.image flash.old
            → Refines D.defaults start (Worked result (F.image flash.new) ∷ past) (held self.new) }
        ensures runs_on { RunsOn D.defaults (F.image flash.new) (held self.new) }
        ensures counts { CountsAs (result ≡ Work.Idle) (result ≡ Work.Failed) (F.operations flash.old) (F.operations flash.new) (F.faults flash.old) (F.faults flash.new) }
        ensures untouched { result ≡ Work.Idle → flash.new ≡ flash.old }
        ensures faultless { (n : ℕ) → F.is_faultless flash.old (n + 1) → (result ≢ Work.Idle → F.is_faultless flash.new n) × (result ≢ Work.Failed) };

    /// A bus reset.
    fn bus_reset(&mut self)
        ensures refines { (start : List ℕ) (past : List Call) → Refines D.defaults start past (held self.old) → Refines D.defaults start (BusReset ∷ past) (held self.new) }
        ensures runs_on { (image : List ℕ) → RunsOn D.defaults image (held self.old) → RunsOn D.defaults image (held self.new) };
}

impl<D: Defaults> HoldsKeyboard<D> for KeyboardOf<D> {
    ghost held = { λ k. k };

    fn keyboard(&self) -> &KeyboardOf<D> {
        self
    }

    fn restart<F: NorFlash>(&mut self, flash: &F) {
        self.restart(flash);
    }

    fn scan(&mut self, scan: Scan) {
        self.scan(scan);
    }

    fn setup(&mut self, packet: [u8; 8]) {
        self.setup(packet);
    }

    fn out(&mut self, packet: &[u8]) -> EpAnswer {
        self.out(packet)
    }

    fn in_packet(&mut self) -> EpAnswer {
        self.in_packet()
    }

    fn poll(&mut self) -> Option<Report> {
        self.poll()
    }

    fn work<F: NorFlash>(&mut self, flash: &mut F) -> Work {
        self.work(flash)
    }

    fn bus_reset(&mut self) {
        self.bus_reset();
    }
}

impl<D: Defaults, K: HoldsKeyboard<D>> HoldsKeyboard<D> for &mut K {
    ghost held = { λ k. K.held k.now };

    fn keyboard(&self) -> &KeyboardOf<D> {
        (**self).keyboard()
    }

    fn restart<F: NorFlash>(&mut self, flash: &F) {
        (**self).restart(flash);
    }

    fn scan(&mut self, scan: Scan) {
        (**self).scan(scan);
    }

    fn setup(&mut self, packet: [u8; 8]) {
        (**self).setup(packet);
    }

    fn out(&mut self, packet: &[u8]) -> EpAnswer {
        (**self).out(packet)
    }

    fn in_packet(&mut self) -> EpAnswer {
        (**self).in_packet()
    }

    fn poll(&mut self) -> Option<Report> {
        (**self).poll()
    }

    fn work<F: NorFlash>(&mut self, flash: &mut F) -> Work {
        (**self).work(flash)
    }

    fn bus_reset(&mut self) {
        (**self).bus_reset();
    }
}
