//! Endpoint 0 behind a controller that is handed packets beforehand.

ghost use Rattle.std.specs.Prelude.{◌≡◌, ◌==◌, ◌∷◌, [], Bool, true, false, ℕ, List, None, Some};
ghost use Rattle.std.specs.Option.{option_map};
ghost use Rattle.usb_device.specs.Requests.{word_at};
ghost use Rattle.usb_device.specs.Calls.{EpCall, SetUp, BusReset};
ghost use Rattle.usb_device.specs.Bus.{is_pending, Bus, Goes, Sends, Takes, with_input, with_output, is_out, is_write, looked, mode_of, out_mode_of};
ghost use Rattle.usb_device.specs.Addresses.{Stays, StaysOrReset};
ghost use Rattle.usb_device.specs.Bus1.{KeptOrReset};
ghost use Rattle.usb_device.specs.Served.{Grows, handed_on};
ghost use Rattle.usb_device.specs.Given.{is_read};
ghost use Rattle.usb_device.specs.Transfers.{is_done, is_over, TransferState, Idle, Refused, Over, ReadDue, Closing, Opening, Asking, Due, IsOpen, Rests, NothingWithheld0};
ghost use Rattle.usb_device.specs.representation.Link.{Asks, AsksNow, LooksAs, Link, Ready, IsBegun, ended, is_reading, on_taken, met_view, transfer_view};

use crate::controller::{Controller, Input, Output, Waiting};
use crate::{Endpoints, EpAnswer};
use arrayvec::ArrayVec;
use std::marker::Model;

/// Where the transfer stands (section 8.5.3).
#[derive(Drop)]
pub(crate) enum Transfer {
    /// None has come.
    Idle,
    /// It is stalled, and the controller is to be told.
    Refused,
    /// It is stalled, and the controller knows.
    Over,
    /// A read whose packet was handed over. So many bytes may be asked for behind it.
    Reads(u16),
    /// A read whose next packet is due. So many bytes may be asked for.
    ReadDue(u16),
    /// A read whose packets were all taken.
    Sent,
    /// A read that the host has ended, and OUT is to be opened again.
    Closing,
    /// A read that the host has ended.
    Closed,
    /// A write for whose packet the controller is to be opened.
    Opening,
    /// A write whose packet is awaited.
    Writes,
    /// A write whose packet was acknowledged on the bus, and that the device did not take yet.
    Kept(ArrayVec<u8, 8>),
    /// A request without data, and OUT is to be opened.
    Asking,
    /// The empty packet of the status stage is due.
    Due,
    /// It was handed over.
    Status,
    /// The host has it.
    Done,
}

/// Endpoint 0 of a device behind a controller that is handed packets beforehand.
///
/// The controller answers tokens from its buffers, and says later what it has met. `serve` takes that, and fills the buffers
/// with what the device answers. The empty packet of a status stage is handed over only when the device gave it.
#[derive(Drop)]
pub struct ControlBuffers {
    transfer: Transfer,
}

impl Model for ControlBuffers {
    ghost use Rattle.usb_device.specs.Transfers.{TransferState};
    ghost use Rattle.usb_device.specs.representation.Link.{transfer_view};

    ghost Value = { TransferState };

    ghost view = { λ a. transfer_view a.transfer };
}

/// The transfer that a SETUP packet begins.
fn first_transfer(setup: [u8; 8]) -> Transfer
    ensures write { is_write setup ≡ true → transfer_view result ≡ Opening }
    ensures read { is_read setup ≡ true → transfer_view result ≡ ReadDue (word_at setup 6) }
    ensures no_data { (word_at setup 6 == 0) ≡ true → transfer_view result ≡ Asking }
    ensures begun { IsBegun (transfer_view result) }
{
    let length = u16::from_le_bytes([setup[6], setup[7]]);
    if setup[0] < 0x80 && length != 0 {
        Transfer::Opening
    } else if length == 0 {
        Transfer::Asking
    } else {
        Transfer::ReadDue(length)
    }
}

/// Hands on a SETUP packet, behind the reset that came before it.
fn hand_on<E: Endpoints>(reset: bool, setup: [u8; 8], device: &mut E)
    ensures behind_a_reset { (calls : List EpCall) → reset ≡ true → E.refines calls device.old → E.refines (SetUp setup ∷ BusReset ∷ calls) device.new }
    ensures alone { (calls : List EpCall) → reset ≡ false → E.refines calls device.old → E.refines (SetUp setup ∷ calls) device.new }
    ensures kept { (from : E) → E.keeps from device.old → E.keeps from device.new }
{
    if reset {
        device.bus_reset();
    }
    device.setup(setup);
}

/// Where a read stands behind the device's answer to the OUT packet that ends it.
fn ended(answer: EpAnswer) -> Transfer
    ensures { transfer_view result ≡ ended answer }
{
    match answer {
        EpAnswer::Ack => Transfer::Closing,
        EpAnswer::Nak | EpAnswer::Packet(_) | EpAnswer::Stall => Transfer::Refused,
    }
}

/// Opens OUT for a packet.
fn open<C: Controller>(controller: &mut C)
    ensures set { (steps : List Bus) × (mid : Bus) × Goes steps (C.bus controller.old) mid × (C.bus controller.new ≡ with_output mid Takes) }
    ensures stays { Stays (C.bus controller.old) (C.bus controller.new) (C.address_of controller.old) (C.address_of controller.new) }
    ensures grows { Grows (C.bus controller.old).seen (C.bus controller.new).seen }
{
    controller.output_0(Output::Take);
}

/// Puts the packet into the buffer of IN.
fn hand_over<C: Controller>(packet: ArrayVec<u8, 8>, controller: &mut C)
    ensures set { (steps : List Bus) × (mid : Bus) × Goes steps (C.bus controller.old) mid
        × (C.bus controller.new ≡ with_input mid (Sends packet.items false)) }
    ensures stays { Stays (C.bus controller.old) (C.bus controller.new) (C.address_of controller.old) (C.address_of controller.new) }
    ensures grows { Grows (C.bus controller.old).seen (C.bus controller.new).seen }
{
    controller.input_0(Input::Packet(packet));
}

impl ControlBuffers {
    /// An endpoint 0 on which no transfer is under way.
    pub fn new() -> ControlBuffers
        ensures { result ≡ Idle }
    {
        ControlBuffers {
            transfer: Transfer::Idle,
        }
    }

    /// Takes what the controller has met, and fills its buffers. It may be called at any time.
    ///
    /// Whatever happens on the bus, and whatever acknowledgements are lost, a control write whose status packet the host
    /// got was acknowledged and then confirmed by the device: `theorems::seen_is_confirmed` of the link that the call keeps. And
    /// nothing is withheld: behind the call the buffers hold what is due. OUT stays open behind a packet that was taken, so
    /// that the controller acknowledges a repetition (section 8.6.4); a second packet is not due, and stalls the transfer.
    pub fn serve<E: Endpoints, C: Controller>(&mut self, device: &mut E, controller: &mut C)
        ensures linked { (calls : List EpCall) → E.refines calls device.old → Link self.old (C.bus controller.old) calls
            → NothingWithheld0 self.old (C.bus controller.old)
            → (later : List EpCall) × E.refines later device.new × Link self.new (C.bus controller.new) later
            × NothingWithheld0 self.new (C.bus controller.new) × KeptOrReset calls later
            × StaysOrReset (C.bus controller.new).met.reset calls later (C.address_of controller.old) (C.address_of controller.new)
            × LooksAs self.new (C.bus controller.old) (C.bus controller.new) calls later }
        ensures kept { (from : E) → E.keeps from device.old → E.keeps from device.new }
    {
        let met = controller.waiting();
        self.take(met, device);
        self.go_on(device, controller);
    }

    /// Whether the host has the status packet of the transfer.
    pub fn is_done(&self) -> bool
        ensures { result ≡ is_done self.now }
    {
        match self.transfer {
            Transfer::Done => true,
            _ => false,
        }
    }

    /// Whether the device is asked nothing more before the next SETUP packet.
    pub fn is_over(&self) -> bool
        ensures { result ≡ is_over self.now }
    {
        match self.transfer {
            Transfer::Idle | Transfer::Refused | Transfer::Over | Transfer::Closing => true,
            Transfer::Closed | Transfer::Status | Transfer::Done => true,
            Transfer::Reads(_) | Transfer::ReadDue(_) | Transfer::Sent | Transfer::Opening => false,
            Transfer::Writes | Transfer::Kept(_) | Transfer::Asking | Transfer::Due => false,
        }
    }

    /// Takes what was met.
    fn take<E: Endpoints>(&mut self, met: Waiting, device: &mut E)
        ensures linked { (b : Bus) (calls : List EpCall) → E.refines calls device.old → Link self.old b calls → met_view met ≡ b.met
            → NothingWithheld0 self.old b
            → (later : List EpCall) × E.refines later device.new × Link self.new (looked b) later × Ready self.new (looked b)
            × Asks (handed_on b.met calls) later }
        ensures kept { (from : E) → E.keeps from device.old → E.keeps from device.new }
    {
        match met.setup {
            Some(setup) => {
                hand_on(met.reset, setup, device);
                self.transfer = first_transfer(setup);
            }
            None => {
                if met.reset {
                    device.bus_reset();
                    self.transfer = Transfer::Idle;
                } else {
                    self.follow(met.taken, met.out, device);
                }
            }
        }
    }

    /// Takes what was met in the transfer under way.
    #[tactic(auto, using(crate::proofs::Looking::asks_none))]
    fn follow<E: Endpoints>(&mut self, taken: bool, out: Option<ArrayVec<u8, 8>>, device: &mut E)
        ensures linked { (b : Bus) (calls : List EpCall) → E.refines calls device.old → Link self.old b calls
            → b.met.reset ≡ false → b.met.setup ≡ None → b.met.out ≡ option_map (λ p. p.items) out → b.met.taken ≡ taken
            → Rests self.old b
            → (later : List EpCall) × E.refines later device.new × Link self.new (looked b) later × Ready self.new (looked b)
            × Asks calls later }
        ensures kept { (from : E) → E.keeps from device.old → E.keeps from device.new }
    {
        match out {
            Some(packet) => match &self.transfer {
                Transfer::Writes => self.transfer = Transfer::Kept(packet),
                Transfer::Reads(_left) => self.close(packet, device),
                Transfer::ReadDue(_left) => self.close(packet, device),
                Transfer::Sent => self.close(packet, device),
                Transfer::Closed | Transfer::Due | Transfer::Status | Transfer::Done => {
                    self.transfer = Transfer::Refused;
                }
                Transfer::Idle | Transfer::Refused | Transfer::Over | Transfer::Closing => {}
                Transfer::Opening | Transfer::Kept(_) | Transfer::Asking => {}
            },
            None => {
                if taken {
                    self.move_on();
                }
            }
        }
    }

    /// The OUT packet of a read, which ends it.
    fn close<E: Endpoints>(&mut self, packet: ArrayVec<u8, 8>, device: &mut E)
        ensures linked { (b : Bus) (calls : List EpCall) → E.refines calls device.old → Link self.old b calls → is_reading self.old ≡ true
            → b.met.reset ≡ false → b.met.setup ≡ None → b.met.out ≡ Some packet.items
            → (later : List EpCall) × E.refines later device.new × Link self.new (looked b) later × Ready self.new (looked b)
            × Asks calls later }
        ensures kept { (from : E) → E.keeps from device.old → E.keeps from device.new }
    {
        let answer = device.out(packet.as_slice());
        self.transfer = ended(answer);
    }

    /// The host has the packet of endpoint 0.
    fn move_on(&mut self)
        ensures linked { (b : Bus) (calls : List EpCall) → Link self.old b calls → b.met.reset ≡ false → b.met.setup ≡ None → b.met.out ≡ None → b.met.taken ≡ true
            → Link self.new (looked b) calls }
        ensures moved { self.new ≡ on_taken self.old }
    {
        match self.transfer {
            Transfer::Reads(0) => self.transfer = Transfer::Sent,
            Transfer::Reads(left) => self.transfer = Transfer::ReadDue(left),
            Transfer::Status => self.transfer = Transfer::Done,
            _ => {}
        }
    }

    /// Does what is due.
    #[tactic(auto, using(crate::proofs::Addressing::stays_still, crate::proofs::Looking::grows_none, crate::proofs::Looking::asks_nothing))]
    fn go_on<E: Endpoints, C: Controller>(&mut self, device: &mut E, controller: &mut C)
        ensures linked { (calls : List EpCall) → E.refines calls device.old → Link self.old (C.bus controller.old) calls
            → Ready self.old (C.bus controller.old)
            → (later : List EpCall) × E.refines later device.new × Link self.new (C.bus controller.new) later
            × NothingWithheld0 self.new (C.bus controller.new) × AsksNow self.new calls later }
        ensures kept { (from : E) → E.keeps from device.old → E.keeps from device.new }
        ensures stays { Stays (C.bus controller.old) (C.bus controller.new) (C.address_of controller.old) (C.address_of controller.new) }
        ensures grows { Grows (C.bus controller.old).seen (C.bus controller.new).seen }
    {
        match &self.transfer {
            Transfer::Opening => {
                open(controller);
                self.transfer = Transfer::Writes;
            }
            Transfer::Kept(packet) => match device.out(packet.as_slice()) {
                EpAnswer::Ack => self.ask(device, controller),
                EpAnswer::Nak => {}
                EpAnswer::Packet(_) | EpAnswer::Stall => self.refuse(controller),
            },
            Transfer::Asking => self.ask(device, controller),
            Transfer::Due => self.confirm(device, controller),
            Transfer::ReadDue(left) => {
                let left = *left;
                self.read(left, device, controller);
            }
            Transfer::Closing => {
                open(controller);
                self.transfer = Transfer::Closed;
            }
            Transfer::Refused => self.refuse(controller),
            Transfer::Idle | Transfer::Over | Transfer::Reads(_) | Transfer::Sent => {}
            Transfer::Closed | Transfer::Writes | Transfer::Status | Transfer::Done => {}
        }
    }

    /// Opens OUT, behind the packet of a write or where none is due, and asks for the packet of the status stage.
    fn ask<E: Endpoints, C: Controller>(&mut self, device: &mut E, controller: &mut C)
        ensures linked { (calls : List EpCall) → E.refines calls device.old → Link Due (C.bus controller.old) calls
            → (later : List EpCall) × E.refines later device.new × Link self.new (C.bus controller.new) later
            × NothingWithheld0 self.new (C.bus controller.new) × AsksNow self.new calls later }
        ensures kept { (from : E) → E.keeps from device.old → E.keeps from device.new }
        ensures stays { Stays (C.bus controller.old) (C.bus controller.new) (C.address_of controller.old) (C.address_of controller.new) }
        ensures grows { Grows (C.bus controller.old).seen (C.bus controller.new).seen }
    {
        open(controller);
        self.confirm(device, controller);
    }

    /// Hands over the empty packet of the status stage once the device gives it.
    #[tactic(auto, using(crate::proofs::Addressing::stays_still, crate::proofs::Looking::grows_none))]
    fn confirm<E: Endpoints, C: Controller>(&mut self, device: &mut E, controller: &mut C)
        ensures linked { (calls : List EpCall) → E.refines calls device.old → Link Due (C.bus controller.old) calls
            → (is_pending (C.bus controller.old).met ≡ false → IsOpen (C.bus controller.old))
            → (later : List EpCall) × E.refines later device.new × Link self.new (C.bus controller.new) later
            × NothingWithheld0 self.new (C.bus controller.new) × AsksNow self.new calls later }
        ensures kept { (from : E) → E.keeps from device.old → E.keeps from device.new }
        ensures stays { Stays (C.bus controller.old) (C.bus controller.new) (C.address_of controller.old) (C.address_of controller.new) }
        ensures grows { Grows (C.bus controller.old).seen (C.bus controller.new).seen }
    {
        match device.in_packet() {
            EpAnswer::Packet(packet) => {
                hand_over(packet, controller);
                self.transfer = Transfer::Status;
            }
            EpAnswer::Nak => self.transfer = Transfer::Due,
            EpAnswer::Ack | EpAnswer::Stall => self.refuse(controller),
        }
    }

    /// The transfer is over: each further packet is stalled.
    fn refuse<C: Controller>(&mut self, controller: &mut C)
        ensures over { self.new ≡ Over }
        ensures reported { NothingWithheld0 Over (C.bus controller.new) }
        ensures linked { (calls : List EpCall) → Link Refused (C.bus controller.old) calls → Link Over (C.bus controller.new) calls }
        ensures stays { Stays (C.bus controller.old) (C.bus controller.new) (C.address_of controller.old) (C.address_of controller.new) }
        ensures grows { Grows (C.bus controller.old).seen (C.bus controller.new).seen }
    {
        self.transfer = Transfer::Over;
        controller.input_0(Input::Stall);
        controller.output_0(Output::Stall);
    }

    /// Hands over the next packet of a read.
    #[tactic(auto, using(crate::proofs::Addressing::stays_still, crate::proofs::Looking::grows_none))]
    fn read<E: Endpoints, C: Controller>(&mut self, left: u16, device: &mut E, controller: &mut C)
        ensures linked { (calls : List EpCall) → E.refines calls device.old → Link (ReadDue left) (C.bus controller.old) calls
            → (later : List EpCall) × E.refines later device.new × Link self.new (C.bus controller.new) later
            × NothingWithheld0 self.new (C.bus controller.new) × AsksNow self.new calls later }
        ensures kept { (from : E) → E.keeps from device.old → E.keeps from device.new }
        ensures stays { Stays (C.bus controller.old) (C.bus controller.new) (C.address_of controller.old) (C.address_of controller.new) }
        ensures grows { Grows (C.bus controller.old).seen (C.bus controller.new).seen }
    {
        match device.in_packet() {
            EpAnswer::Packet(packet) => {
                let left = if packet.len() == 8 {
                    left.saturating_sub(8)
                } else {
                    0
                };
                open(controller);
                hand_over(packet, controller);
                self.transfer = Transfer::Reads(left);
            }
            EpAnswer::Nak => self.transfer = Transfer::ReadDue(left),
            EpAnswer::Ack | EpAnswer::Stall => self.refuse(controller),
        }
    }
}
