//! The debouncer, the held keys and the poller as one value.

ghost use Rattle.std.specs.Prelude.{◌≡◌, ◌≤◌, ℕ, List, [], ◌∷◌, take, IfOk, IfSome};
ghost use Rattle.std.specs.Option.{option_map};
ghost use Rattle.debounce.specs.declared.Scan.{Scan};
ghost use Rattle.layers.specs.Keymaps.{HasEntries};
ghost use Rattle.layers.specs.Usages.{has_key, has_consumer};
ghost use Rattle.reports.specs.declared.Input.{Input};
ghost use Rattle.reports.specs.Answers.{idle_input};
ghost use Rattle.reports.specs.Calls.{polled, idle_set, forgot, was_reset};
ghost use Rattle.reports.specs.Poll.{idle_value};
ghost use Rattle.reports.specs.representation.Words.{first_bytes};
ghost use Rattle.key_reports.specs.Calls.{KeyCall, Scanned, Asked};
ghost use Rattle.key_reports.specs.Past.{keys_after, consumer_after, wanted_after, poller_calls, answer_after};
ghost use Rattle.key_reports.specs.Tables.{table};

use crate::keys::{make_for, take_edges};
use debounce::{KeySet, Matrix, Scan};
use layers::{Defaults, Held, KeymapOf, Usages};
use reports::{IdleId, InputReport, Poller, Protocol, Report};
use std::alloc::{AllocError, Global};
use std::marker::Model;

/// The keys of the device, and what the host was sent of them.
#[derive(Debug, Drop)]
pub struct KeyReports {
    matrix: Matrix,
    held: Held,
    poller: Poller,
}

impl Model for KeyReports {
    ghost use Rattle.std.specs.Prelude.{◌≡◌, true};
    ghost use Rattle.key_reports.specs.representation.Value.{KeysValue};

    ghost Value = { KeysValue };

    ghost view = { λ k. record { debouncer = k.matrix; held = k.held; poller = k.poller } };

    ghost invariant = { λ k. k.held.named ≡ true };
}

impl KeyReports {
    ghost use Rattle.key_reports.specs.representation.Relation.{Refines, IsFed};

    /// Every key up, and nothing sent. Takes the memory of the reports that wait, and is refused where
    /// there is none; no other call takes memory.
    pub fn new(alloc: Global) -> Result<KeyReports, AllocError>
        ensures { IfOk result (λ keys. Refines [] keys) }
    {
        let poller = Poller::new(alloc)?;
        Ok(KeyReports {
            matrix: Matrix::new(),
            held: Held::new(),
            poller,
        })
    }

    /// Leaves what `new` gives: every key up, nothing sent, nothing waiting, and the idle values of the
    /// start.
    pub fn restart(&mut self)
        ensures { Refines [] self.new }
    {
        self.matrix = Matrix::new();
        self.held.clear();
        self.poller.reset();
        self.poller.make(self.held.lent(), Protocol::Report);
    }

    /// Takes one scan, one millisecond after the last. The keys that the debounced scan releases are
    /// released, then those that it presses are pressed, each by rising key and with this keymap. The
    /// reports of the protocol whose bytes this changes wait for a poll.
    pub fn scan<D: Defaults>(&mut self, scan: Scan, keymap: &KeymapOf<D>, protocol: Protocol)
        ensures refines { (past : List KeyCall) → Refines past self.old
            → Refines (Scanned scan keymap.now protocol ∷ past) self.new }
        ensures entries { (past : List KeyCall) (entries : ℕ → ℕ → ℕ) → HasEntries entries keymap.now
            → Refines past self.old → Refines (Scanned scan (table entries) protocol ∷ past) self.new }
    {
        let flips = self.matrix.feed(&scan);
        if flips.is_empty() {
            self.poller.pass();
        } else {
            self.take(&flips, keymap, protocol);
        }
    }

    /// Takes the keys that a scan changed.
    #[inline(never)]
    fn take<D: Defaults>(&mut self, flips: &KeySet, keymap: &KeymapOf<D>, protocol: Protocol)
        ensures { (past : List KeyCall) (scan : Scan) → IsFed scan flips.now past self.old
            → Refines (Scanned scan keymap.now protocol ∷ past) self.new }
    {
        make_for(&mut self.poller, &self.held, protocol);
        let released = self.matrix.released(flips);
        let pressed = self.matrix.pressed(flips);
        take_edges(&mut self.held, keymap, &released, &pressed);
        self.poller.tick_to(self.held.lent(), protocol);
    }

    /// The answer to a poll of endpoint 1: the report that has waited longest. Where none waits, the
    /// report of the protocol whose bytes are not those last sent, else one whose idle time has passed
    /// since then, or `None`. It then counts as sent.
    pub fn poll(&mut self, protocol: Protocol) -> Option<Report>
        ensures refines { (past : List KeyCall) → Refines past self.old
            → Refines (Asked (polled protocol (option_map (λ r. r.items) result)) ∷ past) self.new }
        ensures answer { (past : List KeyCall) → Refines past self.old
            → option_map (λ r. r.items) result ≡ answer_after protocol past }
    {
        make_for(&mut self.poller, &self.held, protocol);
        self.poller.poll_made(protocol)
    }

    /// `poll` into a buffer: it writes the report from the start of `report`, and returns how many bytes
    /// it has.
    pub fn poll_into(&mut self, protocol: Protocol, report: &mut [u8; 23]) -> Option<u8>
        ensures refines { (past : List KeyCall) → Refines past self.old
            → Refines (Asked (polled protocol (option_map (λ n. take n report.new) result)) ∷ past) self.new }
        ensures answer { (past : List KeyCall) → Refines past self.old
            → option_map (λ n. take n report.new) result ≡ answer_after protocol past }
        ensures room { IfSome result (λ n. n ≤ 23) }
    {
        make_for(&mut self.poller, &self.held, protocol);
        self.poller.poll_into(protocol, report)
    }

    /// The usages that the codes of the held keys name.
    #[tactic(auto, unfolding(crate::specs::Past::keys_after, crate::specs::Past::consumer_after))]
    pub fn usages(&self) -> Usages
        ensures keys { (past : List KeyCall) (usage : ℕ) → Refines past self.now
            → has_key result usage ≡ keys_after past usage }
        ensures consumer { (past : List KeyCall) (usage : ℕ) → Refines past self.now
            → has_consumer result usage ≡ consumer_after past usage }
    {
        self.held.usages()
    }

    /// The words of the boot report now (`InputReport::words`). To ask for them sends nothing.
    pub fn boot(&self) -> [u32; 6]
        ensures { (past : List KeyCall) → Refines past self.now → first_bytes result 8 ≡ wanted_after past Input.Boot }
    {
        if self.poller.is_made_for(Protocol::Boot) {
            self.poller.made_boot().words()
        } else {
            self.boot_anew()
        }
    }

    /// The words of the report of ID 1 now. To ask for them sends nothing.
    pub fn bitmap(&self) -> [u32; 6]
        ensures { (past : List KeyCall) → Refines past self.now → first_bytes result 23 ≡ wanted_after past Input.One }
    {
        if self.poller.is_made_for(Protocol::Report) {
            self.poller.made_bitmap().words()
        } else {
            self.bitmap_anew()
        }
    }

    /// The words of the report of ID 2 now. To ask for them sends nothing.
    pub fn consumer(&self) -> [u32; 6]
        ensures { (past : List KeyCall) → Refines past self.now → first_bytes result 9 ≡ wanted_after past Input.Two }
    {
        if self.poller.is_made_for(Protocol::Report) {
            self.poller.made_consumer().words()
        } else {
            self.consumer_anew()
        }
    }

    /// Sets the idle value of a report, or of all, in units of 4 ms; 0 stands for no repeats (HID 1.11
    /// section 7.2.4). The time that has passed since a report was sent still counts.
    pub fn set_idle(&mut self, id: IdleId, duration: u8)
        ensures { (past : List KeyCall) → Refines past self.old → Refines (Asked (idle_set id duration) ∷ past) self.new }
    {
        self.poller.set_idle(id, duration);
    }

    /// The idle value of a report, in units of 4 ms; for all reports that of ID 1 (HID 1.11 section
    /// 7.2.3).
    pub fn idle(&self, id: IdleId) -> u8
        ensures { (past : List KeyCall) → Refines past self.now → result ≡ idle_value (idle_input id) (poller_calls past) }
    {
        self.poller.idle(id)
    }

    /// Counts nothing as sent, as at the start, and drops what waits; the keys and the idle values stay.
    pub fn forget_sent(&mut self)
        ensures { (past : List KeyCall) → Refines past self.old → Refines (Asked forgot ∷ past) self.new }
    {
        self.poller.forget_sent();
    }

    /// Counts nothing as sent, drops what waits, and restores the idle values of the start; the keys
    /// stay.
    pub fn bus_reset(&mut self)
        ensures { (past : List KeyCall) → Refines past self.old → Refines (Asked was_reset ∷ past) self.new }
    {
        self.poller.reset()
    }

    /// The words of the boot report, made of the held keys. Rare.
    #[inline(never)]
    fn boot_anew(&self) -> [u32; 6]
        ensures { (past : List KeyCall) → Refines past self.now → first_bytes result 8 ≡ wanted_after past Input.Boot }
    {
        InputReport::boot(self.held.lent()).words()
    }

    /// The words of the report of ID 1, made of the held keys. Rare.
    #[inline(never)]
    fn bitmap_anew(&self) -> [u32; 6]
        ensures { (past : List KeyCall) → Refines past self.now → first_bytes result 23 ≡ wanted_after past Input.One }
    {
        InputReport::bitmap(self.held.lent()).words()
    }

    /// The words of the report of ID 2, made of the held keys. Rare.
    #[inline(never)]
    fn consumer_anew(&self) -> [u32; 6]
        ensures { (past : List KeyCall) → Refines past self.now → first_bytes result 9 ≡ wanted_after past Input.Two }
    {
        InputReport::consumer(self.held.lent()).words()
    }
}
