//! A device behind its USB device layer, with endpoint 1 behind buffers, as one device.

ghost use Rattle.std.specs.Prelude.{◌≡◌, ◌∷◌, ◌++◌, [], true, false, List, Some, None, Option};
ghost use Rattle.std.specs.Option.{option_map};
ghost use Rattle.usb_device.specs.declared.report_buffers.Course.TheVariants.{Rests};
ghost use Rattle.usb_device.specs.Steps.{polled_of};
ghost use Rattle.usb_device.specs.States.{has_renewed, wakes_by};
ghost use Rattle.usb_device.specs.representation.Relation.{Refines};
ghost use Rattle.usb_device.specs.declared.answer.Endpoint1.{Endpoint1};
ghost use Rattle.usb_device.specs.Calls.{EpCall, Polled, Out};
ghost use Rattle.usb_device.specs.Bus1.{Told, no_polls, room_of, blank, IsKnown, Looked1, OnlyReported};
ghost use Rattle.usb_device.specs.Requests.{Lent};
ghost use Rattle.usb_device.specs.Events.{Event, OutCame, SuspendCame, ResumeCame, WakeAsked, StatusSeen, ScanCame};
ghost use Rattle.usb_device.specs.Pauses.{ArePolls, Hands, HasNone, pause_by, sets_endpoint};
ghost use Rattle.usb_device.specs.Through.{calls_of};
ghost use Rattle.usb_device.specs.representation.Paused.{GoesOn};
ghost use Rattle.usb_device.specs.representation.Link1.{Link1, size_of, InStep, Bides, NothingWithheld, may_send};
ghost use Rattle.usb_device.specs.representation.Layered.{Layered, PolledOnce, endpoint_set, with_state, is_ready, report_waits};

use crate::buffers::Buffers;
use crate::report_buffers::ReportBuffers;
use crate::{Change, DeviceLayer, Endpoint1, Endpoints, EpAnswer, PacketSize, PollAnswer, Report};

/// A device behind its USB device layer, with endpoint 1 behind the buffers of a controller.
#[derive(Drop)]
pub struct Device<'a, E, B> {
    pub(crate) layer: DeviceLayer<'a>,
    pub(crate) behind: E,
    pub(crate) buffers: B,
    reports: ReportBuffers,
}

/// What a change sets endpoint 1 to.
fn endpoint_set(change: Option<Change>) -> Option<Endpoint1>
    ensures { result ≡ endpoint_set change }
{
    match change {
        Some(Change::Endpoint(state)) => Some(state),
        Some(Change::Address(_) | Change::Wakeup(_)) | None => None,
    }
}

/// Tells the controller what a status packet sets endpoint 1 to, before the packet is handed over.
fn follow<B: Buffers>(change: Option<Change>, buffers: &mut B, reports: &mut ReportBuffers)
    ensures linked { (calls : List EpCall) → Link1 reports.old (B.bus buffers.old) calls → Link1 reports.new (B.bus buffers.new) calls }
    ensures reported { (states : List Told) → InStep states (B.bus buffers.old)
        → InStep (with_state (endpoint_set change) states) (B.bus buffers.new) }
    ensures opened { (state : Endpoint1) → endpoint_set change ≡ Some state → (B.bus buffers.new).reset ≡ false → (B.bus buffers.new).opened ≡ true }
    ensures bides { Bides (B.bus buffers.old) (B.bus buffers.new) }
    ensures same { endpoint_set change ≡ None → buffers.new ≡ buffers.old }
    ensures waits { reports.new.left ≡ pause_by (sets_endpoint change) reports.old.left }
    ensures size { reports.new.size ≡ reports.old.size }
{
    match endpoint_set(change) {
        Some(state) => {
            reports.give_up_old(buffers);
            buffers.begin_anew(state);
            reports.begin_anew();
        }
        None => {}
    }
}

/// The report of an answer.
fn report_of(answer: PollAnswer) -> Option<Report>
    ensures { option_map (λ r. r.items) result ≡ polled_of answer }
{
    match answer {
        PollAnswer::Data(report) => Some(report),
        PollAnswer::Nak | PollAnswer::Stall | PollAnswer::Nothing => None,
    }
}

impl<'a, E: Endpoints, B: Buffers> Device<'a, E, B> {
    /// The power comes: the device has no address and is not configured, and the buffers are empty.
    pub fn new(layer: DeviceLayer<'a>, behind: E, buffers: B, size: PacketSize) -> Device<'a, E, B>
        ensures refines { (lent : Lent) → Refines lent [] layer.entry → E.refines [] behind → B.bus buffers ≡ blank false
            → Layered E.refines lent [] result.layer result.behind result.reports (B.bus result.buffers) }
        ensures holds { result.behind ≡ behind }
        ensures size { result.reports.size ≡ size_of size }
    {
        Device {
            layer,
            behind,
            buffers,
            reports: ReportBuffers::new(size),
        }
    }

    /// A scan of the matrix, a millisecond after the one before.
    pub fn scan(&mut self)
        ensures refines { (lent : Lent) (past : List Event)
            → Layered E.refines lent past self.old.layer self.old.behind self.old.reports (B.bus self.old.buffers)
            → Layered E.refines lent (ScanCame ∷ past) self.new.layer self.new.behind self.new.reports (B.bus self.new.buffers) }
        ensures behind { self.new.behind ≡ self.old.behind }
        ensures size { self.new.reports.size ≡ self.old.reports.size }
    {
        self.reports.scan();
    }

    /// The host has the status packet of its transfer. Where that set endpoint 1, the host has begun anew. Behind any other transfer
    /// it may have given such a request up, and it stays open which data toggle it wants.
    pub fn is_done(&mut self)
        ensures refines { (lent : Lent) (past : List Event)
            → Layered E.refines lent past self.old.layer self.old.behind self.old.reports (B.bus self.old.buffers)
            → Layered E.refines lent (StatusSeen ∷ past) self.new.layer self.new.behind self.new.reports (B.bus self.new.buffers) }
        ensures others { (lent : Lent) (past : List Event) → Refines lent past self.old.layer → has_renewed lent past ≡ false
            → (self.new.buffers ≡ self.old.buffers) × (self.new.reports ≡ record self.old.reports { left = 0 }) }
        ensures bides { Bides (B.bus self.old.buffers) (B.bus self.new.buffers) }
        ensures known { self.old.layer.renewed ≡ true → ((B.bus self.old.buffers).reset ≡ false → (B.bus self.old.buffers).opened ≡ true)
            → (B.bus self.new.buffers).reset ≡ false → IsKnown (B.bus self.new.buffers).got }
        ensures behind { self.new.behind ≡ self.old.behind }
        ensures size { self.new.reports.size ≡ self.old.reports.size }
    {
        self.reports.release();
        if self.layer.has_renewed() {
            self.reports.agree(&mut self.buffers);
        }
    }

    /// The bus is suspended.
    pub fn suspend(&mut self)
        ensures refines { (lent : Lent) (past : List Event)
            → Layered E.refines lent past self.old.layer self.old.behind self.old.reports (B.bus self.old.buffers)
            → Layered E.refines lent (SuspendCame ∷ past) self.new.layer self.new.behind self.new.reports (B.bus self.new.buffers) }
        ensures behind { self.new.behind ≡ self.old.behind }
        ensures size { self.new.reports.size ≡ self.old.reports.size }
    {
        self.layer.suspend();
    }

    /// The bus goes on.
    pub fn resume(&mut self)
        ensures refines { (lent : Lent) (past : List Event)
            → Layered E.refines lent past self.old.layer self.old.behind self.old.reports (B.bus self.old.buffers)
            → Layered E.refines lent (ResumeCame ∷ past) self.new.layer self.new.behind self.new.reports (B.bus self.new.buffers) }
        ensures behind { self.new.behind ≡ self.old.behind }
        ensures size { self.new.reports.size ≡ self.old.reports.size }
    {
        self.layer.resume();
    }

    /// Whether to signal a remote wakeup: a report waits for the host, which has enabled it and has suspended the bus; once.
    pub fn wakes(&mut self) -> bool
        ensures refines { (lent : Lent) (past : List Event)
            → Layered E.refines lent past self.old.layer self.old.behind self.old.reports (B.bus self.old.buffers)
            → Layered E.refines lent (WakeAsked (report_waits self.old.layer self.old.reports) result ∷ past) self.new.layer self.new.behind self.new.reports (B.bus self.new.buffers) }
        ensures answer { (lent : Lent) (past : List Event) → Refines lent past self.old.layer
            → result ≡ wakes_by lent past (report_waits self.old.layer self.old.reports) }
        ensures behind { self.new.behind ≡ self.old.behind }
        ensures size { self.new.reports.size ≡ self.old.reports.size }
    {
        let has_report = self.report_waits();
        self.layer.wakes(has_report)
    }

    /// Whether a report waits for the host.
    fn report_waits(&self) -> bool
        ensures { result ≡ report_waits self.now.layer self.now.reports }
    {
        self.is_ready() && self.reports.is_under_way()
    }

    /// Takes what the host has taken of endpoint 1, and fills its buffers where it is ready and nothing is waited for: with
    /// packets of the report under way, or of the next one that the device behind has.
    ///
    /// Nothing is withheld: behind the call all of a report, or as much as there are buffers, is in them or was just taken,
    /// or the device behind has none.
    pub fn serve_reports(&mut self)
        ensures refines { (lent : Lent) (past : List Event)
            → Layered E.refines lent past self.old.layer self.old.behind self.old.reports (B.bus self.old.buffers)
            → (later : List Event) × Layered E.refines lent later self.new.layer self.new.behind self.new.reports (B.bus self.new.buffers)
            × NothingWithheld (may_send (is_ready self.old.layer.endpoint) self.old.reports.left) (room_of B.two) self.new.reports (B.bus self.new.buffers) (calls_of later)
            × PolledOnce past later × (may_send (is_ready self.old.layer.endpoint) self.old.reports.left ≡ false
            → (later ≡ past) × OnlyReported (B.bus self.old.buffers) (B.bus self.new.buffers)) }
        ensures asked { (lent : Lent) (past : List Event)
            → Layered E.refines lent past self.old.layer self.old.behind self.old.reports (B.bus self.old.buffers)
            → (asked : List Event) × Layered E.refines lent (asked ++ past) self.new.layer self.new.behind self.new.reports (B.bus self.new.buffers)
            × ArePolls asked × (may_send (is_ready self.old.layer.endpoint) self.old.reports.left ≡ true → (B.bus self.new.buffers).reset ≡ false
            → Hands (B.bus self.new.buffers) asked) }
        ensures looks { (lent : Lent) (past : List Event)
            → Layered E.refines lent past self.old.layer self.old.behind self.old.reports (B.bus self.old.buffers)
            → Looked1 (B.bus self.old.buffers) (B.bus self.new.buffers) }
        ensures waits { self.new.reports.left ≡ self.old.reports.left }
        ensures same { self.new.layer.endpoint ≡ self.old.layer.endpoint }
        ensures kept { (from : E) → E.keeps from self.old.behind → E.keeps from self.new.behind }
        ensures size { self.new.reports.size ≡ self.old.reports.size }
    {
        let count = self.buffers.taken_1();
        self.reports.taken(count);
        if self.is_ready() && self.reports.is_known() {
            self.ask();
            self.reports.fill(&mut self.buffers);
        }
    }

    /// The address that the status packet of the transfer under way brought.
    pub(crate) fn address_due(&self) -> Option<u8>
        ensures { result ≡ self.now.layer.due }
    {
        self.layer.address_due()
    }

    /// Whether endpoint 1 is ready.
    fn is_ready(&self) -> bool
        ensures { result ≡ is_ready self.now.layer.endpoint }
    {
        match self.layer.endpoint_1() {
            Endpoint1::Ready => true,
            Endpoint1::Off | Endpoint1::Halted => false,
        }
    }

    /// Hands an OUT packet of endpoint 0 to the layer.
    fn take(&mut self, packet: &[u8]) -> EpAnswer
        ensures refines { (calls : List EpCall) → ((lent : Lent) × (past : List Event)
            × Layered E.refines lent past self.old.layer self.old.behind self.old.reports (B.bus self.old.buffers)
            × (no_polls (calls_of past) ≡ no_polls calls))
            → (lent : Lent) × (past : List Event)
            × Layered E.refines lent past self.new.layer self.new.behind self.new.reports (B.bus self.new.buffers)
            × (no_polls (calls_of past) ≡ no_polls (Out packet.now result ∷ calls)) }
        ensures met { (lent : Lent) (past : List Event)
            → Layered E.refines lent past self.old.layer self.old.behind self.old.reports (B.bus self.old.buffers)
            → Layered E.refines lent (OutCame packet.now result ∷ past) self.new.layer self.new.behind self.new.reports (B.bus self.new.buffers) }
        ensures buffers { self.new.buffers ≡ self.old.buffers }
        ensures waits { self.new.reports.left ≡ self.old.reports.left }
        ensures kept { (from : E) → E.keeps from self.old.behind → E.keeps from self.new.behind }
        ensures size { self.new.reports.size ≡ self.old.reports.size }
    {
        self.layer.out_packet(packet, &mut self.behind)
    }

    /// Asks the device behind for a report, where none is under way.
    fn ask(&mut self)
        ensures refines { (lent : Lent) (past : List Event)
            → Layered E.refines lent past self.old.layer self.old.behind self.old.reports (B.bus self.old.buffers)
            → (later : List Event) × Layered E.refines lent later self.new.layer self.new.behind self.new.reports (B.bus self.new.buffers)
            × (self.new.reports.course ≡ Rests → (before : List EpCall) × (calls_of later ≡ Polled None ∷ before)) × PolledOnce past later }
        ensures asked { (lent : Lent) (past : List Event)
            → Layered E.refines lent past self.old.layer self.old.behind self.old.reports (B.bus self.old.buffers)
            → (asked : List Event) × Layered E.refines lent (asked ++ past) self.new.layer self.new.behind self.new.reports (B.bus self.new.buffers)
            × ArePolls asked × (self.new.reports.course ≡ Rests → HasNone asked) }
        ensures buffers { self.new.buffers ≡ self.old.buffers }
        ensures waits { self.new.reports.left ≡ self.old.reports.left }
        ensures same { self.new.layer.endpoint ≡ self.old.layer.endpoint }
        ensures kept { (from : E) → E.keeps from self.old.behind → E.keeps from self.new.behind }
        ensures size { self.new.reports.size ≡ self.old.reports.size }
    {
        if self.reports.is_free() {
            match report_of(self.layer.poll(&mut self.behind)) {
                Some(report) => self.reports.begin(report),
                None => {}
            }
        }
    }
}

impl<'a, E: Endpoints, B: Buffers> Endpoints for Device<'a, E, B> {
    ghost refines = { λ calls d. (lent : Lent) × (past : List Event) × Layered E.refines lent past d.layer d.behind d.reports (B.bus d.buffers)
        × (no_polls (calls_of past) ≡ no_polls calls) };

    ghost keeps = { λ from d. ((base : E) → E.keeps base from.behind → E.keeps base d.behind)
        × GoesOn E.refines from.layer from.behind from.reports (B.bus from.buffers) d.layer d.behind d.reports (B.bus d.buffers) × (d.reports.size ≡ from.reports.size) };

    fn setup(&mut self, packet: [u8; 8]) {
        self.layer.setup(packet, &mut self.behind);
        self.reports.setup(packet);
    }

    fn out(&mut self, packet: &[u8]) -> EpAnswer {
        self.take(packet)
    }

    fn in_packet(&mut self) -> EpAnswer {
        let (answer, change) = self.layer.in_packet(&mut self.behind);
        follow(change, &mut self.buffers, &mut self.reports);
        self.reports.answered(&answer, &mut self.buffers);
        answer
    }

    /// None: the reports of the device behind go through the buffers.
    fn poll(&mut self) -> Option<Report> {
        None
    }

    fn bus_reset(&mut self) {
        self.layer.bus_reset(&mut self.behind);
        self.buffers.forget();
        self.reports.reset();
    }
}
