//! The control endpoint and the stages of its transfer.

ghost use Rattle.std.specs.Prelude.{◌≡◌, List, [], ◌∷◌, IsTrue};
ghost use Rattle.control_ep.specs.declared.answer.DeviceView.{DeviceView};
ghost use Rattle.control_ep.specs.declared.answer.EpAnswer.{EpAnswer};
ghost use Rattle.control_ep.specs.declared.answer.Effect.{Effect};
ghost use Rattle.control_ep.specs.declared.answer.InAnswer.{InAnswer};
ghost use Rattle.control_ep.specs.declared.answer.OutAnswer.{OutAnswer};
ghost use Rattle.control_ep.specs.declared.why.Why.{Why};
ghost use Rattle.control_ep.specs.Stage.{stage_in, progress_of};
ghost use Rattle.control_ep.specs.Transfers.{Rest, Taking, Status, Stalled, FeatureData};
ghost use Rattle.control_ep.specs.representation.Views.{stage_view, transfer_view};
ghost use Rattle.control_ep.specs.Calls.{EpCall, Setup, Out, Checked, In, Settle, Fail, Reset};

use crate::data::ReadData;
use crate::report::received_report;
use crate::request::{HostReport, Request, Transfer};
use crate::{
    DeviceReports, DeviceView, Effect, EpAnswer, InAnswer, OutAnswer, OutStep, Received, Verdict,
    Why,
};
use std::marker::Model;

/// Where the transfer stands.
#[derive(Clone, Copy, Debug)]
pub(crate) enum Stage {
    /// No transfer is under way.
    Rest,
    /// A read.
    Sending,
    /// A report is expected.
    Taking(HostReport),
    /// A feature command works.
    Waiting,
    /// The status packet is due, with this effect.
    Status(Effect),
    /// A packet was stalled, and so is each further one.
    Stalled(Why),
}

/// The control endpoint: the stage of the transfer on endpoint 0. What a read sends stands beside the
/// stage, so that no call moves it.
#[derive(Debug, Drop)]
pub struct ControlEp {
    stage: Stage,
    read: ReadData,
}

impl Model for ControlEp {
    ghost use Rattle.control_ep.specs.Transfers.{Stage};
    ghost use Rattle.control_ep.specs.representation.Views.{stage_view};

    ghost Value = { Stage };

    ghost view = { λ e. stage_view e.stage e.read };
}

/// The stage that a transfer begins in.
fn first_stage(transfer: Transfer, length: u16, read: &mut ReadData) -> Stage
    ensures { stage_view result read.new ≡ stage_in (transfer_view read.old.bytes transfer) length (progress_of []) }
{
    match transfer {
        Transfer::Reads if length == 0 => Stage::Status(Effect::Nothing),
        Transfer::Reads => {
            read.begin(length);
            Stage::Sending
        }
        Transfer::Takes(report) => Stage::Taking(report),
        Transfer::Sets(effect) => Stage::Status(effect),
    }
}

impl ControlEp {
    ghost use Rattle.control_ep.specs.Stage.{stage};
    ghost use Rattle.control_ep.specs.Moves.{begun, after_in, after_out, after_verdict, after_end};
    ghost use Rattle.control_ep.specs.Answers.{in_answer, in_effect, out_step, verdict_answer, IfNak, IfStall, IfAnswered, IfOffer};
    ghost use Rattle.control_ep.specs.Written.{as_answer, out_answer, as_step, HasRoom};
    ghost use Rattle.control_ep.specs.Relation.{is_offered};
    ghost use Rattle.control_ep.specs.representation.Relation.{Refines};

    /// Makes an endpoint at its start: no transfer is under way, and an IN or OUT packet is answered by
    /// `Stall(WrongStage)` until a SETUP packet comes.
    #[tactic(auto, using(crate::proofs::Moves::nothing_begun))]
    pub fn new() -> ControlEp
        ensures refines { Refines [] result }
        ensures rests { result ≡ Rest }
    {
        ControlEp {
            stage: Stage::Rest,
            read: ReadData::new(),
        }
    }

    /// Takes a SETUP packet of 8 bytes (USB 2.0 sections 8.5.3 and 9.3), which is always acknowledged and
    /// ends the transfer under way, also one that waits for a command. What is read is what `view` has
    /// now. A request that is refused leaves the new transfer stalled, by the first of these that holds:
    /// `UnknownRequest` where bmRequestType and bRequest are not served; `WrongInterface` where wIndex is
    /// not 0, but for requests to the device; `UnknownDescriptor`, `UnknownReport` or `BadProtocol` where
    /// wValue names none; `WrongLength` where wLength is not the report's length in SET_REPORT, or not 0
    /// in SET_IDLE and SET_PROTOCOL.
    pub fn setup(&mut self, setup: [u8; 8], view: &DeviceView)
        ensures refines { (past : List EpCall) → Refines past self.old
            → Refines (Setup setup view.now ∷ past) self.new }
        ensures left { self.new ≡ begun setup view.now }
    {
        self.setup_from(&setup, view);
    }

    /// Takes a SETUP packet as `setup` does, where it lies, for a device that is asked for what is read, and
    /// for nothing else.
    #[tactic(auto, using(crate::proofs::Next::next_setup))]
    pub fn setup_from<D: DeviceReports>(&mut self, setup: &[u8; 8], device: &D)
        ensures refines { (view : DeviceView) (past : List EpCall) → D.shows device.now view → Refines past self.old
            → Refines (Setup setup.now view ∷ past) self.new }
        ensures left { (view : DeviceView) → D.shows device.now view → self.new ≡ begun setup.now view }
    {
        self.begin(setup, device);
    }

    /// Takes an IN packet (USB 2.0 section 8.5.3): the next data packet of at most 8 bytes, the empty
    /// packet of the status stage with what it brings about, `Nak` while the transfer's command works, or
    /// a `Stall`, which leaves the transfer stalled: for the reason of a transfer that is stalled already
    /// (`FlashFault` where its command failed), and with `WrongStage` where no IN packet is due.
    ///
    /// The answer is given at the token, and its effect with it: where a controller is handed packets
    /// before they are asked for, the call is made when the packet is taken.
    pub fn in_packet(&mut self) -> (EpAnswer, Effect)
        ensures answer { (past : List EpCall) → Refines past self.old
            → result.0 ≡ in_answer (stage past) }
        ensures effect { (past : List EpCall) → Refines past self.old
            → result.1 ≡ in_effect (stage past) }
        ensures refines { (past : List EpCall) → Refines past self.old
            → Refines (In result.0 result.1 ∷ past) self.new }
        ensures left { self.new ≡ after_in self.old result.0 }
        ensures nak { IfNak result.0 ((self.new ≡ self.old) × (result.1 ≡ Effect.Nothing)) }
        ensures stall { IfStall result.0 (λ why. (self.new ≡ Stalled why) × (result.1 ≡ Effect.Nothing)) }
    {
        let mut packet = [0; 8];
        let (answer, effect) = self.in_packet_into(&mut packet);
        (answer.with(packet), effect)
    }

    /// Takes an IN packet as `in_packet` does, and writes its bytes into `packet`, from the start. The
    /// answer says how many; what stands after them, and in a `packet` that no data packet answers, means
    /// nothing.
    #[tactic(auto, using(crate::proofs::Next::next_in))]
    pub fn in_packet_into(&mut self, packet: &mut [u8; 8]) -> (InAnswer, Effect)
        ensures answer { (past : List EpCall) → Refines past self.old
            → as_answer result.0 packet.new ≡ in_answer (stage past) }
        ensures effect { (past : List EpCall) → Refines past self.old
            → result.1 ≡ in_effect (stage past) }
        ensures room { HasRoom result.0 }
        ensures refines { (past : List EpCall) → Refines past self.old
            → Refines (In (as_answer result.0 packet.new) result.1 ∷ past) self.new }
        ensures left { self.new ≡ after_in self.old (as_answer result.0 packet.new) }
        ensures nak { IfNak (as_answer result.0 packet.new) ((self.new ≡ self.old) × (result.1 ≡ Effect.Nothing)) }
        ensures stall { IfStall (as_answer result.0 packet.new) (λ why. (self.new ≡ Stalled why) × (result.1 ≡ Effect.Nothing)) }
    {
        self.answer_in(packet)
    }

    /// Takes an OUT packet (USB 2.0 section 8.5.3): an output report is taken, a feature report is offered
    /// and changes nothing before its verdict, and an empty packet ends a read. Any other packet is
    /// answered by a `Stall`, which leaves the transfer stalled: where a report is due, in this order,
    /// with `ShortData` and `LongData` for another length than wLength, and `UnknownReport` for another
    /// Report ID; for the reason of a transfer that is stalled already; else with `WrongStage`.
    #[tactic(auto, using(crate::proofs::Next::next_out, crate::proofs::Next::offer_due))]
    pub fn out(&mut self, packet: &[u8]) -> OutStep
        ensures step { (past : List EpCall) → Refines past self.old
            → result ≡ out_step (stage past) packet.now }
        ensures refines { (past : List EpCall) → Refines past self.old
            → Refines (Out packet.now result ∷ past) self.new }
        ensures left { self.new ≡ after_out self.old result }
        ensures offer { IfOffer result ((self.old ≡ Taking FeatureData) × (self.new ≡ self.old)) }
        ensures stall { IfAnswered result (λ answer.
            IfStall answer (λ why. self.new ≡ Stalled why)) }
    {
        self.received(packet).step()
    }

    /// Takes an OUT packet as `out` does, and answers in fewer bytes.
    #[tactic(auto, using(crate::proofs::Next::next_out, crate::proofs::Next::offer_due))]
    pub fn received(&mut self, packet: &[u8]) -> Received
        ensures step { (past : List EpCall) → Refines past self.old
            → as_step result ≡ out_step (stage past) packet.now }
        ensures refines { (past : List EpCall) → Refines past self.old
            → Refines (Out packet.now (as_step result) ∷ past) self.new }
        ensures left { self.new ≡ after_out self.old (as_step result) }
        ensures offer { IfOffer (as_step result) ((self.old ≡ Taking FeatureData) × (self.new ≡ self.old)) }
        ensures stall { IfAnswered (as_step result) (λ answer.
            IfStall answer (λ why. self.new ≡ Stalled why)) }
    {
        self.answer_out(packet)
    }

    /// Answers the packet that `out` has just offered, and is to be called next after the offer. `Done`
    /// and `Working` are `Ack`, `Busy` is `Nak` and leaves the report to be sent again, and `Refused` is a
    /// `Stall` with its reason, which leaves the transfer stalled. Where no feature report is due the
    /// verdict is out of place: a `Stall` with the reason of a transfer that is stalled already, else with
    /// `WrongStage`, which stalls the transfer.
    #[tactic(auto, using(crate::proofs::Next::next_verdict, crate::proofs::Next::feature_due))]
    pub fn verdict(&mut self, verdict: Verdict) -> EpAnswer
        ensures answer { result ≡ verdict_answer self.old verdict }
        ensures refines { (past : List EpCall) → Refines past self.old → IsTrue (is_offered past)
            → Refines (Checked verdict result ∷ past) self.new }
        ensures left { self.new ≡ after_verdict self.old verdict }
    {
        self.judged(verdict).answer()
    }

    /// Answers the packet that `received` has just offered, as `verdict` does, in fewer bytes.
    #[tactic(auto, using(crate::proofs::Next::next_verdict, crate::proofs::Next::feature_due))]
    pub fn judged(&mut self, verdict: Verdict) -> OutAnswer
        ensures answer { out_answer result ≡ verdict_answer self.old verdict }
        ensures refines { (past : List EpCall) → Refines past self.old → IsTrue (is_offered past)
            → Refines (Checked verdict (out_answer result) ∷ past) self.new }
        ensures left { self.new ≡ after_verdict self.old verdict }
    {
        self.apply_verdict(verdict)
    }

    /// Tells that the command at work is stored: the status packet of its transfer is due, if the transfer
    /// still waits for it. Any other transfer stays as it is.
    #[tactic(auto, using(crate::proofs::Moves::settled))]
    pub fn settle(&mut self)
        ensures refines { (past : List EpCall) → Refines past self.old
            → Refines (Settle ∷ past) self.new }
        ensures left { self.new ≡ after_end self.old (Status Effect.Nothing) }
    {
        if let Stage::Waiting = self.stage {
            self.stage = Stage::Status(Effect::Nothing);
        }
    }

    /// Tells that the command at work has failed: its transfer is stalled with `FlashFault`, if it still
    /// waits for it. Any other transfer stays as it is.
    #[tactic(auto, using(crate::proofs::Moves::failed))]
    pub fn fail(&mut self)
        ensures refines { (past : List EpCall) → Refines past self.old
            → Refines (Fail ∷ past) self.new }
        ensures left { self.new ≡ after_end self.old (Stalled Why.FlashFault) }
    {
        if let Stage::Waiting = self.stage {
            self.stage = Stage::Stalled(Why::FlashFault);
        }
    }

    /// Takes a bus reset (USB 2.0 section 7.1.7.5): no transfer is under way, as in an endpoint at its
    /// start.
    #[tactic(auto, using(crate::proofs::Next::next_reset))]
    pub fn reset(&mut self)
        ensures refines { (past : List EpCall) → Refines past self.old
            → Refines (Reset ∷ past) self.new }
        ensures left { self.new ≡ Rest }
    {
        self.stage = Stage::Rest;
    }

    /// Begins the transfer that a SETUP packet asks for, or stalls it.
    #[tactic(auto, using(crate::proofs::Next::begun_by))]
    fn begin<D: DeviceReports>(&mut self, setup: &[u8; 8], device: &D)
        ensures { (view : DeviceView) → D.shows device.now view → self.new ≡ begun setup.now view }
    {
        let request = Request::read(setup);
        self.stage = match request.transfer(device, &mut self.read) {
            Ok(transfer) => first_stage(transfer, request.length, &mut self.read),
            Err(why) => Stage::Stalled(why),
        };
    }

    /// The answer to an IN packet in this stage, and its effect.
    fn answer_in(&mut self, packet: &mut [u8; 8]) -> (InAnswer, Effect)
        ensures answer { as_answer result.0 packet.new ≡ in_answer self.old }
        ensures effect { result.1 ≡ in_effect self.old }
        ensures room { HasRoom result.0 }
        ensures left { self.new ≡ after_in self.old (as_answer result.0 packet.new) }
    {
        match self.stage {
            Stage::Sending => match self.read.next_packet(packet) {
                Some(length) => (InAnswer::Packet(length), Effect::Nothing),
                None => self.refuse_in(),
            },
            Stage::Status(effect) => {
                self.stage = Stage::Rest;
                (InAnswer::Packet(0), effect)
            }
            Stage::Waiting => (InAnswer::Nak, Effect::Nothing),
            Stage::Stalled(why) => (InAnswer::Stall(why), Effect::Nothing),
            Stage::Rest | Stage::Taking(_) => self.refuse_in(),
        }
    }

    /// Stalls the transfer where no IN packet is due.
    fn refuse_in(&mut self) -> (InAnswer, Effect)
        ensures answer { result ≡ (InAnswer.Stall Why.WrongStage, Effect.Nothing) }
        ensures stalled { self.new ≡ Stalled Why.WrongStage }
    {
        self.stage = Stage::Stalled(Why::WrongStage);
        (InAnswer::Stall(Why::WrongStage), Effect::Nothing)
    }

    /// What an OUT packet comes to in this stage.
    fn answer_out(&mut self, packet: &[u8]) -> Received
        ensures step { as_step result ≡ out_step self.old packet.now }
        ensures left { self.new ≡ after_out self.old (as_step result) }
    {
        match self.stage {
            Stage::Sending if packet.is_empty() => {
                self.stage = Stage::Rest;
                Received::Answered(OutAnswer::Ack)
            }
            Stage::Taking(report) => match received_report(report, packet) {
                Ok(Received::Leds(leds)) => {
                    self.stage = Stage::Status(Effect::Nothing);
                    Received::Leds(leds)
                }
                Ok(step) => step,
                Err(why) => Received::Answered(self.stall(why)),
            },
            Stage::Stalled(why) => Received::Answered(OutAnswer::Stall(why)),
            Stage::Rest | Stage::Sending | Stage::Status(_) | Stage::Waiting => Received::Answered(
                self.stall(Why::WrongStage),
            ),
        }
    }

    /// The answer of a verdict in this stage.
    fn apply_verdict(&mut self, verdict: Verdict) -> OutAnswer
        ensures answer { out_answer result ≡ verdict_answer self.old verdict }
        ensures left { self.new ≡ after_verdict self.old verdict }
    {
        match self.stage {
            Stage::Taking(HostReport::Feature) => self.apply_report_verdict(verdict),
            Stage::Stalled(why) => OutAnswer::Stall(why),
            _ => self.stall(Why::WrongStage),
        }
    }

    /// The answer of a verdict on a feature report that is due.
    fn apply_report_verdict(&mut self, verdict: Verdict) -> OutAnswer
        requires { self.old ≡ Taking FeatureData }
        ensures answer { out_answer result ≡ verdict_answer self.old verdict }
        ensures left { self.new ≡ after_verdict self.old verdict }
    {
        match verdict {
            Verdict::Done => {
                self.stage = Stage::Status(Effect::Nothing);
                OutAnswer::Ack
            }
            Verdict::Working => {
                self.stage = Stage::Waiting;
                OutAnswer::Ack
            }
            Verdict::Busy => OutAnswer::Nak,
            Verdict::Refused(why) => self.stall(why),
        }
    }

    /// Stalls the transfer.
    fn stall(&mut self, why: Why) -> OutAnswer
        ensures answer { result ≡ OutAnswer.Stall why }
        ensures stalled { self.new ≡ Stalled why }
    {
        self.stage = Stage::Stalled(why);
        OutAnswer::Stall(why)
    }
}
