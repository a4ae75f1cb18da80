//! The keyboard and its calls.

ghost use Rattle.std.specs.Prelude.{◌≡◌, ◌≢◌, ◌≤◌, ◌+◌, ◌∷◌, [], ℕ, List, None, Ok, false, take, IfOk, IfSome, is_none};
ghost use Rattle.std.specs.Option.{option_map};
ghost use Rattle.layers.specs.Entries.{changed};
ghost use Rattle.layers.specs.Keymaps.{HasEntries};
ghost use Rattle.layers.specs.Usages.{has_key, has_consumer};
ghost use Rattle.control_ep.specs.Answers.{in_answer, checked_answer, IfNak, IfStall};
ghost use Rattle.control_ep.specs.Written.{as_answer, out_answer, HasRoom};
ghost use Rattle.control_ep.specs.Transfers.{Stalled};
ghost use Rattle.control_ep.specs.declared.answer.EpAnswer.{EpAnswer};
ghost use Rattle.key_reports.specs.Past.{keys_after, consumer_after, answer_after};
ghost use Rattle.page_turnover.specs.Active.{format};
ghost use Rattle.page_turnover.specs.Next.{on_flash};
ghost use Rattle.keymap_store.specs.declared.store.Work.{Work};
ghost use Rattle.page_turnover.specs.Steps.{CountsAs};
ghost use Rattle.keyboard.specs.Calls.{Call, Scanned, SetUp, Out, In, Polled, Worked, BusReset, image_after, keymap};
ghost use Rattle.keyboard.specs.Effects.{leds_after, selected, protocol_after};
ghost use Rattle.keyboard.specs.Commands.{accepted, settled_of};
ghost use Rattle.keyboard.specs.Keys.{key_calls};
ghost use Rattle.keyboard.specs.Feature.{command_of_bytes, select_answer};
ghost use Rattle.keyboard.specs.Endpoint.{verdict_reported, stage_after};
ghost use Rattle.keyboard.specs.representation.Private.{Checks};
ghost use Rattle.keyboard.specs.Restart.{CutsLegally};
ghost use Rattle.keyboard.specs.Conforming.{IsAnswered, MakesSuch};
ghost use Rattle.keyboard.specs.Sessions.{Session, MayLeave, Follow};

use crate::feature::{command_of_bytes, verdict_of};
use crate::room::Room;
use crate::shown::Shown;
use control_ep::{ControlEp, Effect, EpAnswer, InAnswer, OutAnswer, Received, Verdict, Why};
use flash_model::NorFlash;
use key_reports::{KeyReports, Protocol, Report, Scan};
use keymap_store::{StoreOf, Work};
use layers::{Command, Defaults, KeyNo, KeymapOf, LayerNo, Standard, Usages};
use std::alloc::{AllocError, Global};
use std::marker::Model;

/// A keyboard of 96 keys on a NOR flash that keeps its keymap, with these defaults.
///
/// ```rust
/// # #[cfg(feature = "sim")]
/// # fn main() -> Result<(), wuzhikar::PageCount> {
/// use wuzhikar::{EpAnswer, Keyboard, SimFlash, Work};
///
/// let mut flash = SimFlash::blank(2).unwrap();
/// let mut keyboard = Keyboard::on(&flash)?;
/// // SET_REPORT of the feature report: operation 1 writes code 0029h (Escape) on layer 0, key 5.
/// keyboard.setup([0x21, 0x09, 3, 3, 0, 0, 6, 0]);
/// assert_eq!(keyboard.out(&[3, 1, 0, 5, 0x29, 0]), EpAnswer::Ack);
/// // The status packet waits until the flash has the assignment.
/// assert_eq!(keyboard.in_packet(), EpAnswer::Nak);
/// while keyboard.work(&mut flash) == Work::Working {}
/// assert!(matches!(keyboard.in_packet(), EpAnswer::Packet(packet) if packet.is_empty()));
/// # Ok(())
/// # }
/// # #[cfg(not(feature = "sim"))]
/// # fn main() {}
/// ```
#[derive(Debug, Drop)]
pub struct KeyboardOf<D: Defaults> {
    ep: ControlEp,
    keys: KeyReports,
    store: StoreOf<D>,
    protocol: Protocol,
    leds: u8,
    /// The entry that GET_REPORT of the feature report shows.
    layer: LayerNo,
    key: KeyNo,
}

/// A keyboard with the standard defaults.
pub type Keyboard = KeyboardOf<Standard>;

impl<D: Defaults> Model for KeyboardOf<D> {
    ghost use Rattle.keyboard.specs.representation.Value.{KeyboardValue};

    ghost Value = { KeyboardValue };

    ghost view = { λ k. record { ep = k.ep; keys = k.keys; store = k.store; protocol = k.protocol; leds = k.leds; layer = k.layer; key = k.key } };
}

impl<D: Defaults> KeyboardOf<D> {
    ghost use Rattle.keyboard.specs.representation.Value.{RunsOn, at_work};
    ghost use Rattle.keyboard.specs.representation.Relation.{Refines, RefinesAfter};

    /// Starts a keyboard on a flash, whose keymap it reads: report protocol, no LED on, every key up,
    /// nothing sent, entry (0, 0) selected, and no transfer. `AllocError` where there was no room for the
    /// reports that wait (`Room::take`); no other call takes memory.
    pub fn start<F: NorFlash>(alloc: Global, flash: &F) -> Result<KeyboardOf<D>, AllocError>
        // it stands for no call, on this image
        ensures refines { IfOk result (λ keyboard. Refines D.defaults (F.image flash.now) [] keyboard) }
        // after a power loss it stands for the sessions before, and for no call since
        ensures sessions { (now : Session) (earlier : List Session) → Follow D.defaults (now ∷ earlier) → MayLeave D.defaults now.first now.past (F.image flash.now)
            → IfOk result (λ keyboard. RefinesAfter D.defaults (now ∷ earlier) (record { first = F.image flash.now; past = [] }) keyboard) }
        // it runs on this flash
        ensures runs_on { IfOk result (λ keyboard. RunsOn D.defaults (F.image flash.now) keyboard) }
    {
        let room = Room::take(alloc)?;
        Ok(KeyboardOf::start_in(room, flash))
    }

    /// Starts a keyboard as `start` does, in room that was taken before. Takes no memory, and nothing
    /// refuses it.
    pub fn start_in<F: NorFlash>(room: Room, flash: &F) -> KeyboardOf<D>
        // it stands for no call, on this image
        ensures refines { Refines D.defaults (F.image flash.now) [] result }
        // after a power loss it stands for the sessions before, and for no call since
        ensures sessions { (now : Session) (earlier : List Session) → Follow D.defaults (now ∷ earlier) → MayLeave D.defaults now.first now.past (F.image flash.now)
            → RefinesAfter D.defaults (now ∷ earlier) (record { first = F.image flash.now; past = [] }) result }
        // it runs on this flash
        ensures runs_on { RunsOn D.defaults (F.image flash.now) result }
    {
        KeyboardOf {
            ep: ControlEp::new(),
            keys: room.into_keys(),
            store: StoreOf::mount(flash),
            protocol: Protocol::Report,
            leds: 0,
            layer: LayerNo::known(0),
            key: KeyNo::known(0),
        }
    }

    /// Starts the keyboard over on this flash, as after a power loss: it is then what `start` gives. Takes
    /// no memory.
    pub fn restart<F: NorFlash>(&mut self, flash: &F)
        // it stands for no call, on this image
        ensures refines { Refines D.defaults (F.image flash.now) [] self.new }
        // after a power loss it stands for the sessions before, and for no call since
        ensures sessions { (now : Session) (earlier : List Session) → Follow D.defaults (now ∷ earlier) → MayLeave D.defaults now.first now.past (F.image flash.now)
            → RefinesAfter D.defaults (now ∷ earlier) (record { first = F.image flash.now; past = [] }) self.new }
        // it runs on this flash
        ensures runs_on { RunsOn D.defaults (F.image flash.now) self.new }
    {
        self.ep = ControlEp::new();
        self.keys.restart();
        self.store.remount(flash);
        self.protocol = Protocol::Report;
        self.leds = 0;
        self.layer = LayerNo::known(0);
        self.key = KeyNo::known(0);
    }

    /// Takes a scan of the matrix, one millisecond after the last. The debounced releases come first,
    /// then the presses, each by rising key and with the keymap of this moment; then the reports that
    /// this changes wait for a poll.
    pub fn scan(&mut self, scan: Scan)
        // it stands for this call after those before it
        ensures refines { (start : List ℕ) (past : List Call) → Refines D.defaults start past self.old
            → Refines D.defaults start (Scanned scan ∷ past) self.new }
        // it still runs on its flash
        ensures runs_on { (image : List ℕ) → RunsOn D.defaults image self.old → RunsOn D.defaults image self.new }
    {
        self.keys.scan(scan, self.store.keymap(), self.protocol);
    }

    /// Takes a SETUP packet of endpoint 0, which is always acknowledged and ends the transfer under
    /// way (USB 2.0 sections 8.5.3 and 9.3, HID 1.11 section 7). What is read is what the keyboard has
    /// now; the flash work goes on.
    pub fn setup(&mut self, packet: [u8; 8])
        // it stands for this call after those before it
        ensures refines { (start : List ℕ) (past : List Call) → Refines D.defaults start past self.old
            → Refines D.defaults start (SetUp packet ∷ past) self.new }
        // it still runs on its flash
        ensures runs_on { (image : List ℕ) → RunsOn D.defaults image self.old → RunsOn D.defaults image self.new }
    {
        self.setup_at(&packet);
    }

    /// Takes a SETUP packet as `setup` does, where it lies.
    pub fn setup_at(&mut self, packet: &[u8; 8])
        // it stands for this call after those before it
        ensures refines { (start : List ℕ) (past : List Call) → Refines D.defaults start past self.old
            → Refines D.defaults start (SetUp packet.now ∷ past) self.new }
        // it still runs on its flash
        ensures runs_on { (image : List ℕ) → RunsOn D.defaults image self.old → RunsOn D.defaults image self.new }
    {
        let shown = Shown {
            keys: &self.keys,
            store: &self.store,
            protocol: self.protocol,
            leds: self.leds,
            layer: self.layer,
            key: self.key,
        };
        self.ep.setup_from(packet, &shown);
    }

    /// Takes an OUT packet of endpoint 0 (USB 2.0 section 8.5.3): the closing packet of a read, an
    /// output report, whose LEDs are then on, or a feature report, which selects an entry for reading
    /// or brings a command. A command that is acknowledged works until `work` answers Settled or
    /// Failed, or is done where it changes nothing. `Nak` is for a feature report while a command
    /// works. Each other packet is answered by a `Stall`, and so is each further one of the transfer.
    pub fn out(&mut self, packet: &[u8]) -> EpAnswer
        // it stands for this call after those before it
        ensures refines { (start : List ℕ) (past : List Call) → Refines D.defaults start past self.old
            → Refines D.defaults start (Out packet.now result ∷ past) self.new }
        // the answer is that of the transfer's stage, and of the checks of a feature report
        ensures answer { (start : List ℕ) (past : List Call) → Refines D.defaults start past self.old
            → IsAnswered D.defaults start past (Out packet.now result) }
        // a NAK changes nothing, and a STALL the transfer alone
        ensures nak { (start : List ℕ) (past : List Call) → Refines D.defaults start past self.old
            → IfNak result (self.new ≡ self.old) }
        ensures stall { (start : List ℕ) (past : List Call) → Refines D.defaults start past self.old
            → IfStall result (λ why. self.new ≡ record self.old { ep = Stalled why }) }
        // it still runs on its flash
        ensures runs_on { (image : List ℕ) → RunsOn D.defaults image self.old → RunsOn D.defaults image self.new }
    {
        self.answer_out(packet).answer()
    }

    /// Takes an IN packet of endpoint 0 (USB 2.0 section 8.5.3): the next packet of a read, the empty
    /// packet of the status stage, `Nak` while the transfer's command works, or a `Stall`. SET_IDLE
    /// and SET_PROTOCOL act with the empty packet; SET_PROTOCOL, whatever it chooses, also forgets
    /// what was sent and drops what waits.
    pub fn in_packet(&mut self) -> EpAnswer
        // it stands for this call after those before it
        ensures refines { (start : List ℕ) (past : List Call) → Refines D.defaults start past self.old
            → Refines D.defaults start (In result ∷ past) self.new }
        // the answer is that of the transfer's stage
        ensures answer { (start : List ℕ) (past : List Call) → Refines D.defaults start past self.old
            → result ≡ in_answer (stage_after D.defaults start past) }
        // a NAK changes nothing, and a STALL the transfer alone
        ensures nak { IfNak result (self.new ≡ self.old) }
        ensures stall { IfStall result (λ why. self.new ≡ record self.old { ep = Stalled why }) }
        // it still runs on its flash
        ensures runs_on { (image : List ℕ) → RunsOn D.defaults image self.old → RunsOn D.defaults image self.new }
    {
        let mut packet = [0; 8];
        let answer = self.in_packet_into(&mut packet);
        answer.with(packet)
    }

    /// Takes an IN packet as `in_packet` does, and writes its bytes into `packet`, from the start. The
    /// answer says how many; what stands after them, and in a `packet` that no data packet answers, means
    /// nothing.
    pub fn in_packet_into(&mut self, packet: &mut [u8; 8]) -> InAnswer
        // it stands for this call after those before it
        ensures refines { (start : List ℕ) (past : List Call) → Refines D.defaults start past self.old
            → Refines D.defaults start (In (as_answer result packet.new) ∷ past) self.new }
        // the answer is that of the transfer's stage
        ensures answer { (start : List ℕ) (past : List Call) → Refines D.defaults start past self.old
            → as_answer result packet.new ≡ in_answer (stage_after D.defaults start past) }
        // the packet is within the buffer
        ensures room { HasRoom result }
        // a NAK changes nothing, and a STALL the transfer alone
        ensures nak { IfNak (as_answer result packet.new) (self.new ≡ self.old) }
        ensures stall { IfStall (as_answer result packet.new) (λ why. self.new ≡ record self.old { ep = Stalled why }) }
        // it still runs on its flash
        ensures runs_on { (image : List ℕ) → RunsOn D.defaults image self.old → RunsOn D.defaults image self.new }
    {
        let (answer, effect) = self.ep.in_packet_into(packet);
        match effect {
            Effect::Nothing => {}
            Effect::Idle(id, duration) => self.keys.set_idle(id, duration),
            Effect::SetProtocol(protocol) => {
                self.protocol = protocol;
                self.keys.forget_sent();
            }
        }
        answer
    }

    /// Answers a poll of endpoint 1 with a report of 8, 9 or 23 bytes, or with `None`, which is NAK: the
    /// report that has waited longest. Where none waits, the report of the protocol whose bytes are not
    /// those last sent, else one whose idle time has passed since then, or `None`. It then counts as sent.
    pub fn poll(&mut self) -> Option<Report>
        // it stands for this call after those before it
        ensures refines { (start : List ℕ) (past : List Call) → Refines D.defaults start past self.old
            → Refines D.defaults start (Polled (option_map (λ r. r.items) result) ∷ past) self.new }
        // the answer is the report that waits, else that of the poll rule
        ensures answer { (start : List ℕ) (past : List Call) → Refines D.defaults start past self.old
            → option_map (λ r. r.items) result ≡ answer_after (protocol_after past) (key_calls D.defaults start past) }
        // it still runs on its flash
        ensures runs_on { (image : List ℕ) → RunsOn D.defaults image self.old → RunsOn D.defaults image self.new }
    {
        self.keys.poll(self.protocol)
    }

    /// Answers a poll of endpoint 1 as `poll` does, and writes the report into `report`, from the start. The
    /// answer says how many bytes it has; what stands after them, and in a `report` that no poll answers,
    /// means nothing.
    pub fn poll_into(&mut self, report: &mut [u8; 23]) -> Option<u8>
        // it stands for this call after those before it
        ensures refines { (start : List ℕ) (past : List Call) → Refines D.defaults start past self.old
            → Refines D.defaults start (Polled (option_map (λ n. take n report.new) result) ∷ past) self.new }
        // the answer is the report that waits, else that of the poll rule
        ensures answer { (start : List ℕ) (past : List Call) → Refines D.defaults start past self.old
            → option_map (λ n. take n report.new) result ≡ answer_after (protocol_after past) (key_calls D.defaults start past) }
        // the report is within the buffer
        ensures room { IfSome result (λ n. n ≤ 23) }
        // it still runs on its flash
        ensures runs_on { (image : List ℕ) → RunsOn D.defaults image self.old → RunsOn D.defaults image self.new }
    {
        self.keys.poll_into(self.protocol, report)
    }

    /// Makes the one flash operation that the command at work needs next, or none where no command works.
    /// A command is settled or fails by the 387th step. `Settled` lets the status stage of its transfer
    /// follow, and `Failed` stalls it, if the transfer still waits. The flash has to be the one that the
    /// keyboard started on.
    pub fn work<F: NorFlash>(&mut self, flash: &mut F) -> Work
        requires { RunsOn D.defaults (F.image flash.old) self.old }
        // it stands for this call after those before it
        ensures refines { (start : List ℕ) (past : List Call) → Refines D.defaults start past self.old → image_after start past ≡ F.image flash.old
            → Refines D.defaults start (Worked result (F.image flash.new) ∷ past) self.new }
        // the answer says what the operation did to the command, the log and the keymap
        ensures answer { (start : List ℕ) (past : List Call) → Refines D.defaults start past self.old → image_after start past ≡ F.image flash.old
            → IsAnswered D.defaults start past (Worked result (F.image flash.new)) }
        // where the power is cut inside the operation, a restart finds a legal keymap
        ensures cut { (start : List ℕ) (past : List Call) → Refines D.defaults start past self.old → image_after start past ≡ F.image flash.old
            → result ≢ Work.Idle → CutsLegally D.defaults start past result (F.image flash.new) }
        // it still runs on its flash
        ensures runs_on { RunsOn D.defaults (F.image flash.new) self.new }
        // at most one operation is made, and none where the answer is Idle
        ensures counts { CountsAs (result ≡ Work.Idle) (result ≡ Work.Failed) (F.operations flash.old) (F.operations flash.new) (F.faults flash.old) (F.faults flash.new) }
        // the operation is made on this flash
        ensures operated { (start : List ℕ) (past : List Call) → Refines D.defaults start past self.old → image_after start past ≡ F.image flash.old
            → result ≢ Work.Idle → MakesSuch D.defaults start past result (F.image flash.new) (λ operation. F.operates flash.old (on_flash operation) flash.new) }
        // without an operation the flash stays as it is
        ensures untouched { result ≡ Work.Idle → flash.new ≡ flash.old }
        // a healthy flash lets no command fail, and an operation uses up one of those that it has left
        ensures faultless { (n : ℕ) → F.is_faultless flash.old (n + 1) → (result ≢ Work.Idle → F.is_faultless flash.new n) × (result ≢ Work.Failed) }
    {
        let work = self.store.work(flash);
        match work {
            Work::Settled => self.ep.settle(),
            Work::Failed => self.ep.fail(),
            Work::Idle | Work::Working => {}
        }
        work
    }

    /// Takes a bus reset (USB 2.0 section 7.1.7.5): the transfer ends, report protocol is in force, no LED
    /// is on, nothing counts as sent, nothing waits, and the idle values are those of the start. The
    /// keymap, the flash work, the keys and the selected entry stay.
    pub fn bus_reset(&mut self)
        // it stands for this call after those before it
        ensures refines { (start : List ℕ) (past : List Call) → Refines D.defaults start past self.old
            → Refines D.defaults start (BusReset ∷ past) self.new }
        // it still runs on its flash
        ensures runs_on { (image : List ℕ) → RunsOn D.defaults image self.old → RunsOn D.defaults image self.new }
    {
        self.ep.reset();
        self.keys.bus_reset();
        self.protocol = Protocol::Report;
        self.leds = 0;
    }

    /// Returns the keymap: that of the flash's image.
    pub fn keymap(&self) -> &KeymapOf<D>
        ensures of_image { (start : List ℕ) (past : List Call) → Refines D.defaults start past self.now
            → HasEntries (keymap D.defaults (image_after start past)) result.now }
        // and that of the start, changed by the settled commands in order
        ensures settled { (start : List ℕ) (past : List Call) → Refines D.defaults start past self.now
            → HasEntries (changed D.defaults (keymap D.defaults start) (settled_of (accepted D.defaults start past))) result.now }
    {
        self.store.keymap()
    }

    /// Returns whether no page of the flash has a header yet: nothing was stored on it since it was
    /// erased. A firmware that has settings of its own to store does so where this holds at its start.
    pub fn is_first_start(&self) -> bool
        ensures { (start : List ℕ) (past : List Call) → Refines D.defaults start past self.now
            → result ≡ is_none (format (image_after start past)) }
    {
        self.store.is_first_start()
    }

    /// Returns the usages that the codes of the held keys name.
    pub fn usages(&self) -> Usages
        // the usages of page 07h
        ensures keys { (start : List ℕ) (past : List Call) (usage : ℕ) → Refines D.defaults start past self.now
            → has_key result usage ≡ keys_after (key_calls D.defaults start past) usage }
        // the usages of page 0Ch
        ensures consumer { (start : List ℕ) (past : List Call) (usage : ℕ) → Refines D.defaults start past self.now
            → has_consumer result usage ≡ consumer_after (key_calls D.defaults start past) usage }
    {
        self.keys.usages()
    }

    /// Returns the protocol in force (HID 1.11 section 7.2.5).
    pub fn protocol(&self) -> Protocol
        ensures { (start : List ℕ) (past : List Call) → Refines D.defaults start past self.now
            → result ≡ protocol_after past }
    {
        self.protocol
    }

    /// Returns the LEDs: usages 01h to 05h of page 08h in bits 0 to 4.
    pub fn leds(&self) -> u8
        ensures { (start : List ℕ) (past : List Call) → Refines D.defaults start past self.now
            → result ≡ leds_after past }
    {
        self.leds
    }

    /// Takes an OUT packet and answers it. It stands apart since the folder of a proof of `out` would have
    /// the name of what the toolchain makes.
    fn answer_out(&mut self, packet: &[u8]) -> OutAnswer
        ensures refines { (start : List ℕ) (past : List Call) → Refines D.defaults start past self.old
            → Refines D.defaults start (Out packet.now (out_answer result) ∷ past) self.new }
        ensures answer { (start : List ℕ) (past : List Call) → Refines D.defaults start past self.old
            → IsAnswered D.defaults start past (Out packet.now (out_answer result)) }
        ensures nak { (start : List ℕ) (past : List Call) → Refines D.defaults start past self.old
            → IfNak (out_answer result) (self.new ≡ self.old) }
        ensures stall { (start : List ℕ) (past : List Call) → Refines D.defaults start past self.old
            → IfStall (out_answer result) (λ why. self.new ≡ record self.old { ep = Stalled why }) }
        ensures runs_on { (image : List ℕ) → RunsOn D.defaults image self.old → RunsOn D.defaults image self.new }
    {
        match self.ep.received(packet) {
            Received::Answered(answer) => answer,
            Received::Leds(leds) => {
                self.leds = leds;
                OutAnswer::Ack
            }
            Received::Offer(bytes) => {
                let verdict = self.check_command(bytes);
                self.ep.judged(verdict)
            }
        }
    }

    /// The verdict on a feature report, by its bytes after the ID.
    fn check_command(&mut self, bytes: [u8; 5]) -> Verdict
        ensures { (image : List ℕ) → RunsOn D.defaults image self.old → Checks D.defaults image bytes result self.old self.new }
    {
        if self.store.busy() {
            return Verdict::Busy;
        }
        let [op, layer, key, _, _] = bytes;
        if op == 0 {
            return self.select(layer, key);
        }
        match command_of_bytes(bytes) {
            Ok(command) => self.submit(&command),
            Err(error) => Verdict::Refused(Why::from(error)),
        }
    }

    /// Selects an entry for reading.
    fn select(&mut self, layer: u8, key: u8) -> Verdict
        ensures answer { checked_answer result ≡ select_answer layer key }
        ensures as_answer { result ≡ verdict_reported false (checked_answer result) }
        ensures done { checked_answer result ≡ EpAnswer.Ack → self.new ≡ record self.old { layer = layer; key = key } }
        ensures kept { (checked_answer result ≡ EpAnswer.Ack → ⊥) → self.new ≡ self.old }
    {
        let layer = match LayerNo::read(layer) {
            Ok(layer) => layer,
            Err(error) => return Verdict::Refused(Why::from(error)),
        };
        let key = match KeyNo::read(key) {
            Ok(key) => key,
            Err(error) => return Verdict::Refused(Why::from(error)),
        };
        self.layer = layer;
        self.key = key;
        Verdict::Done
    }

    /// Hands a command to the store while none works.
    fn submit(&mut self, command: &Command) -> Verdict
        ensures { (image bytes : List ℕ) → RunsOn D.defaults image self.old → at_work self.old ≡ None → command_of_bytes bytes ≡ Ok command.now
            → Checks D.defaults image bytes result self.old self.new }
    {
        verdict_of(self.store.submit(*command))
    }
}
