//! The USB device layer: which answers are its own, and which calls go on to the device behind it.

ghost use Rattle.std.specs.Prelude.{◌≡◌, ◌∷◌, [], ◌+◌, ℕ, false, List, None, IsSome, Some};
ghost use Rattle.std.specs.Option.{option_map};
ghost use Rattle.usb_device.specs.Packets.{packet_at};
ghost use Rattle.usb_device.specs.Requests.{Lent};
ghost use Rattle.usb_device.specs.Calls.{EpCall};
ghost use Rattle.usb_device.specs.Events.{Event, SetupCame, OutCame, InAsked, PollAsked, ResetCame, SuspendCame, ResumeCame, WakeAsked};
ghost use Rattle.usb_device.specs.Steps.{LayerState, begun, InAnswer, OutAnswer, PollAnswers, change_of, endpoint_then, due_then, renewed_then, wakeup_then, wakes, state_then, calls_then, session, state_of, first_stage};
ghost use Rattle.usb_device.specs.representation.Value.{lent_view, data_bytes, stage_view, begun_view};
ghost use Rattle.usb_device.specs.States.{wakes_by};
ghost use Rattle.usb_device.specs.representation.Relation.{Refines};

use crate::descriptors::{Data, Descriptors};
use crate::request::{Request, Served};
use crate::{Change, Endpoint1, Endpoints, EpAnswer, PollAnswer};
use arrayvec::ArrayVec;
use std::marker::Model;

/// A read: its bytes, how many were asked for, and how many packets were sent.
#[derive(Debug, Drop)]
pub(crate) struct Sending<'a> {
    bytes: Data<'a>,
    asked: u16,
    sent: u16,
}

impl<'a> Sending<'a> {
    /// The next packet, and none where all were sent.
    fn next_packet(&mut self) -> Option<ArrayVec<u8, 8>>
        ensures packet { option_map (λ packet. packet.items) result ≡ packet_at (data_bytes self.old.bytes) self.old.asked self.old.sent }
        ensures counted { IsSome result → self.new ≡ record { bytes = self.old.bytes; asked = self.old.asked; sent = self.old.sent + 1 } }
        ensures ended { result ≡ None → self.new ≡ self.old }
    {
        let packet = self.bytes.packet_at(self.asked, self.sent);
        if packet.is_some() {
            self.sent += 1;
        }
        packet
    }
}

/// Where the transfer stands.
#[derive(Debug, Drop)]
pub(crate) enum Stage<'a> {
    Theirs,
    Sending(Sending<'a>),
    Status(Option<Change>),
    Over,
}

/// The USB device layer. The device behind it is lent to it at each call.
#[derive(Debug, Drop)]
pub struct DeviceLayer<'a> {
    lent: Descriptors<'a>,
    endpoint: Endpoint1,
    stage: Stage<'a>,
    due: Option<u8>,
    renewed: bool,
    wakeup: bool,
    suspended: bool,
    woken: bool,
}

impl<'a> Model for DeviceLayer<'a> {
    ghost use Rattle.usb_device.specs.Steps.{LayerState};
    ghost use Rattle.usb_device.specs.representation.Value.{lent_view, stage_view};

    ghost Value = { LayerState };

    ghost view = { λ f. record { lent = lent_view f.lent; endpoint = f.endpoint; stage = stage_view f.stage; due = f.due; renewed = f.renewed; wakeup = f.wakeup; suspended = f.suspended; woken = f.woken } };
}

/// The stage that a request begins in.
fn first_stage<'a>(served: Option<Served<'a>>, length: u16) -> Stage<'a>
    ensures { stage_view result ≡ first_stage (begun_view served.entry) length }
{
    match served {
        None => Stage::Theirs,
        Some(Served::Reads(_)) if length == 0 => Stage::Status(None),
        Some(Served::Reads(bytes)) => Stage::Sending(Sending {
            bytes,
            asked: length,
            sent: 0,
        }),
        Some(Served::Sets(change)) => Stage::Status(Some(change)),
    }
}

impl<'a> DeviceLayer<'a> {
    /// The power comes: the device has no address, and is not configured (section 9.1.1.2).
    #[tactic(auto, unfolding(crate::specs::Steps::state_of))]
    pub fn new(descriptors: Descriptors<'a>) -> DeviceLayer<'a>
        ensures { Refines (lent_view descriptors.entry) [] result }
    {
        DeviceLayer {
            lent: descriptors,
            endpoint: Endpoint1::Off,
            stage: Stage::Theirs,
            due: None,
            renewed: false,
            wakeup: false,
            suspended: false,
            woken: false,
        }
    }

    /// The address that the status packet of the transfer under way brought: the device has it once the host has that packet
    /// (section 9.2.6.3).
    pub fn address_due(&self) -> Option<u8>
        ensures { result ≡ self.now.due }
    {
        self.due
    }

    /// Whether the status packet of the transfer under way set endpoint 1, which then begins anew.
    pub fn has_renewed(&self) -> bool
        ensures { result ≡ self.now.renewed }
    {
        self.renewed
    }

    /// What endpoint 1 is.
    pub fn endpoint_1(&self) -> Endpoint1
        ensures { result ≡ self.now.endpoint }
    {
        self.endpoint
    }

    /// Whether the host has enabled remote wakeup (section 9.4.5).
    pub fn may_wake(&self) -> bool
        ensures { result ≡ self.now.wakeup }
    {
        self.wakeup
    }

    /// The bus is suspended: it was idle for 3 ms (section 7.1.7.6). Address and configuration stay.
    pub fn suspend(&mut self)
        ensures { (lent : Lent) (past : List Event) → Refines lent past self.old → Refines lent (SuspendCame ∷ past) self.new }
    {
        self.answer_suspend();
    }

    fn answer_suspend(&mut self)
        ensures { self.new ≡ state_then self.old SuspendCame }
    {
        self.suspended = true;
        self.woken = false;
    }

    /// The bus goes on.
    pub fn resume(&mut self)
        ensures { (lent : Lent) (past : List Event) → Refines lent past self.old → Refines lent (ResumeCame ∷ past) self.new }
    {
        self.answer_resume();
    }

    fn answer_resume(&mut self)
        ensures { self.new ≡ state_then self.old ResumeCame }
    {
        self.suspended = false;
    }

    /// Whether to signal a remote wakeup (section 7.1.7.7), where a report waits for the host or not: once in each suspend, if the
    /// host has enabled it.
    pub fn wakes(&mut self, has_report: bool) -> bool
        ensures refines { (lent : Lent) (past : List Event) → Refines lent past self.old → Refines lent (WakeAsked has_report result ∷ past) self.new }
        ensures answer { (lent : Lent) (past : List Event) → Refines lent past self.old → result ≡ wakes_by lent past has_report }
    {
        self.answer_wakes(has_report)
    }

    fn answer_wakes(&mut self, has_report: bool) -> bool
        ensures answer { result ≡ wakes self.old has_report }
        ensures left { self.new ≡ state_then self.old (WakeAsked has_report result) }
    {
        let wakes = self.suspended && !self.woken && self.wakeup && has_report;
        self.woken |= wakes;
        wakes
    }

    /// A SETUP packet of endpoint 0, which ends the transfer before it.
    pub fn setup<E: Endpoints>(&mut self, packet: [u8; 8], behind: &mut E)
        ensures refines { (lent : Lent) (past : List Event) → Refines lent past self.old → Refines lent (SetupCame packet ∷ past) self.new }
        ensures session { (lent : Lent) (past : List Event) → Refines lent past self.old → E.refines (session lent past) behind.old
            → E.refines (session lent (SetupCame packet ∷ past)) behind.new }
        ensures kept { (from : E) → E.keeps from behind.old → E.keeps from behind.new }
    {
        behind.setup(packet);
        self.begin(packet);
    }

    /// Begins the transfer of a request.
    fn begin(&mut self, packet: [u8; 8])
        ensures { self.new ≡ state_then self.old (SetupCame packet) }
    {
        let request = Request::read(packet);
        self.suspended = false;
        self.stage = first_stage(
            request.served(self.endpoint, self.wakeup, self.lent),
            request.length,
        );
        self.forget();
    }

    /// No status packet of the transfer has come.
    fn forget(&mut self)
        ensures { self.new ≡ record self.old { due = None; renewed = false } }
    {
        self.due = None;
        self.renewed = false;
    }

    /// An OUT packet of endpoint 0. An empty one ends a read.
    pub fn out_packet<E: Endpoints>(&mut self, packet: &[u8], behind: &mut E) -> EpAnswer
        ensures refines { (lent : Lent) (past : List Event) → Refines lent past self.old → Refines lent (OutCame packet.now result ∷ past) self.new }
        ensures session { (lent : Lent) (past : List Event) → Refines lent past self.old → E.refines (session lent past) behind.old
            → E.refines (session lent (OutCame packet.now result ∷ past)) behind.new }
        ensures kept { (from : E) → E.keeps from behind.old → E.keeps from behind.new }
    {
        self.answer_out(packet, behind)
    }

    fn answer_out<E: Endpoints>(&mut self, packet: &[u8], behind: &mut E) -> EpAnswer
        ensures answer { OutAnswer self.old.stage packet.now result }
        ensures left { self.new ≡ state_then self.old (OutCame packet.now result) }
        ensures calls { (past : List EpCall) → E.refines past behind.old → E.refines (calls_then self.old (OutCame packet.now result) past) behind.new }
        ensures kept { (from : E) → E.keeps from behind.old → E.keeps from behind.new }
    {
        match &self.stage {
            Stage::Theirs => behind.out(packet),
            Stage::Sending(_) if packet.is_empty() => {
                self.stage = Stage::Over;
                EpAnswer::Ack
            }
            Stage::Sending(_) | Stage::Status(_) | Stage::Over => {
                self.stage = Stage::Over;
                EpAnswer::Stall
            }
        }
    }

    /// An IN token of endpoint 0: the answer, and what the controller has to do once it is on the bus.
    pub fn in_packet<E: Endpoints>(&mut self, behind: &mut E) -> (EpAnswer, Option<Change>)
        ensures refines { (lent : Lent) (past : List Event) → Refines lent past self.old → Refines lent (InAsked result.0 ∷ past) self.new }
        ensures change { result.1 ≡ change_of self.old.stage }
        ensures session { (lent : Lent) (past : List Event) → Refines lent past self.old → E.refines (session lent past) behind.old
            → E.refines (session lent (InAsked result.0 ∷ past)) behind.new }
        ensures kept { (from : E) → E.keeps from behind.old → E.keeps from behind.new }
    {
        self.answer_in(behind)
    }

    fn answer_in<E: Endpoints>(&mut self, behind: &mut E) -> (EpAnswer, Option<Change>)
        ensures answer { InAnswer self.old.stage result.0 }
        ensures change { result.1 ≡ change_of self.old.stage }
        ensures left { self.new ≡ state_then self.old (InAsked result.0) }
        ensures calls { (past : List EpCall) → E.refines past behind.old → E.refines (calls_then self.old (InAsked result.0) past) behind.new }
        ensures kept { (from : E) → E.keeps from behind.old → E.keeps from behind.new }
    {
        match &mut self.stage {
            Stage::Theirs => (behind.in_packet(), None),
            Stage::Sending(sending) => match sending.next_packet() {
                Some(packet) => (EpAnswer::Packet(packet), None),
                None => {
                    self.stage = Stage::Over;
                    (EpAnswer::Stall, None)
                }
            },
            Stage::Status(change) => {
                let change = *change;
                self.stage = Stage::Over;
                self.follow(change);
                (EpAnswer::Packet(ArrayVec::new()), change)
            }
            Stage::Over => (EpAnswer::Stall, None),
        }
    }

    /// Takes the change of a status stage.
    fn follow(&mut self, change: Option<Change>)
        ensures { self.new ≡ record {
          lent = self.old.lent;
          endpoint = endpoint_then self.old.endpoint change;
          stage = self.old.stage;
          due = due_then self.old.due change;
          renewed = renewed_then self.old.renewed change;
          wakeup = wakeup_then self.old.wakeup change;
          suspended = self.old.suspended;
          woken = self.old.woken;
        } }
    {
        match change {
            Some(Change::Endpoint(state)) => {
                self.endpoint = state;
                self.renewed = true;
            }
            Some(Change::Address(address)) => self.due = Some(address),
            Some(Change::Wakeup(on)) => self.wakeup = on,
            None => {}
        }
    }

    /// An IN token of endpoint 1. The device behind is asked only where the endpoint is ready.
    pub fn poll<E: Endpoints>(&mut self, behind: &mut E) -> PollAnswer
        ensures refines { (lent : Lent) (past : List Event) → Refines lent past self.old → Refines lent (PollAsked result ∷ past) self.new }
        ensures same { self.new ≡ self.old }
        ensures session { (lent : Lent) (past : List Event) → Refines lent past self.old → E.refines (session lent past) behind.old
            → E.refines (session lent (PollAsked result ∷ past)) behind.new }
        ensures kept { (from : E) → E.keeps from behind.old → E.keeps from behind.new }
    {
        self.answer_poll(behind)
    }

    fn answer_poll<E: Endpoints>(&mut self, behind: &mut E) -> PollAnswer
        ensures answer { PollAnswers self.old.endpoint result }
        ensures left { self.new ≡ self.old }
        ensures calls { (past : List EpCall) → E.refines past behind.old → E.refines (calls_then self.old (PollAsked result) past) behind.new }
        ensures kept { (from : E) → E.keeps from behind.old → E.keeps from behind.new }
    {
        match self.endpoint {
            Endpoint1::Off => PollAnswer::Nothing,
            Endpoint1::Halted => PollAnswer::Stall,
            Endpoint1::Ready => match behind.poll() {
                Some(report) => PollAnswer::Data(report),
                None => PollAnswer::Nak,
            },
        }
    }

    /// A bus reset: the device has address 0, and is not configured (section 9.1.1.3).
    pub fn bus_reset<E: Endpoints>(&mut self, behind: &mut E)
        ensures refines { (lent : Lent) (past : List Event) → Refines lent past self.old → Refines lent (ResetCame ∷ past) self.new }
        ensures session { (lent : Lent) (past : List Event) → Refines lent past self.old → E.refines (session lent past) behind.old
            → E.refines (session lent (ResetCame ∷ past)) behind.new }
        ensures kept { (from : E) → E.keeps from behind.old → E.keeps from behind.new }
    {
        self.answer_reset(behind);
    }

    /// Ends the transfer and the configuration.
    fn answer_reset<E: Endpoints>(&mut self, behind: &mut E)
        ensures left { self.new ≡ state_then self.old ResetCame }
        ensures calls { (past : List EpCall) → E.refines past behind.old → E.refines (calls_then self.old ResetCame past) behind.new }
        ensures kept { (from : E) → E.keeps from behind.old → E.keeps from behind.new }
    {
        behind.bus_reset();
        self.endpoint = Endpoint1::Off;
        self.stage = Stage::Theirs;
        self.wakeup = false;
        self.suspended = false;
        self.woken = false;
        self.forget();
    }
}
