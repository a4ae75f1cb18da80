//! A device with its layer and its buffers, behind a controller: what a loop calls.

ghost use Rattle.std.specs.Prelude.{◌≡◌, ◌∷◌, ◌++◌, [], true, false, ℕ, List};
ghost use Rattle.usb_device.specs.Calls.{EpCall};
ghost use Rattle.usb_device.specs.Addresses.{Addressed, Tells};
ghost use Rattle.usb_device.specs.Bus.{Bus, Goes};
ghost use Rattle.usb_device.specs.Bus1.{KeptOrReset, blank, room_of, IsKnown};
ghost use Rattle.usb_device.specs.Requests.{Lent};
ghost use Rattle.usb_device.specs.Served.{HearsEnd, Looks};
ghost use Rattle.usb_device.specs.Pauses.{AreMet, ArePolls, KnowsHost, LooksAtReports, ServesReports, seen_if};
ghost use Rattle.usb_device.specs.Events.{Event, SuspendCame, ResumeCame, WakeAsked, ScanCame};
ghost use Rattle.usb_device.specs.States.{wakes_by};
ghost use Rattle.usb_device.specs.Through.{calls_of};
ghost use Rattle.usb_device.specs.Transfers.{Idle, is_done};
ghost use Rattle.usb_device.specs.Guarding.{GuardCall, Locked};
ghost use Rattle.usb_device.specs.representation.Guarded.{Guards, guarded_refines};
ghost use Rattle.usb_device.specs.representation.Relation.{Refines};
ghost use Rattle.usb_device.specs.representation.Link1.{size_of, Bides, NothingWithheld, may_send};
ghost use Rattle.usb_device.specs.representation.Layered.{Layered, Runs, is_ready, report_waits};

use crate::buffers::Buffers;
use crate::{
    ControlBuffers, Controller, Device, DeviceLayer, Endpoints, Guarded, PacketSize, ScansMatrix,
    Works,
};

/// A device with its layer and its buffers, behind a controller that is handed packets beforehand.
///
/// A loop calls `serve` when an interrupt of the controller has come, and behind each scan; it may be called at any time.
/// `scan_rows` is a scan of the matrix, and `work` a step of the flash work; `scan` alone tells that a millisecond has gone by.
///
/// A host asks for the device descriptor, by the controller and the buffer of the examples of `Controller` and `Buffers`:
///
/// ```rust
/// # use wuzhikar_device::{Buffers, Controller, Endpoint1, Input, Output, Report, Waiting};
/// # struct InMemory {
/// #     setup: Option<[u8; 8]>,
/// #     input: Input,
/// #     address: u8,
/// # }
/// #
/// # impl Controller for InMemory {
/// #     fn waiting(&mut self) -> Waiting {
/// #         Waiting { reset: false, setup: self.setup.take(), out: None, taken: false }
/// #     }
/// #
/// #     fn input_0(&mut self, answer: Input) {
/// #         // An answer behind a SETUP packet that was not told is not for its transfer.
/// #         if self.setup.is_none() {
/// #             self.input = answer;
/// #         }
/// #     }
/// #
/// #     fn output_0(&mut self, _answer: Output) {}
/// #
/// #     fn set_address(&mut self, address: u8) {
/// #         self.address = address;
/// #     }
/// # }
/// # struct OneBuffer {
/// #     packet: Option<Report>,
/// # }
/// #
/// # impl Buffers for OneBuffer {
/// #     fn has_two(&self) -> bool {
/// #         false
/// #     }
/// #
/// #     fn taken_1(&mut self) -> usize {
/// #         0
/// #     }
/// #
/// #     fn begin_anew(&mut self, _state: Endpoint1) {
/// #         self.packet = None;
/// #     }
/// #
/// #     fn give_up(&mut self) {
/// #         self.packet = None;
/// #     }
/// #
/// #     fn host_began(&mut self) {}
/// #
/// #     fn forget(&mut self) {
/// #         self.packet = None;
/// #     }
/// #
/// #     fn input_1(&mut self, packet: Report) {
/// #         self.packet = Some(packet);
/// #     }
/// # }
/// # fn main() -> Result<(), Box<dyn std::error::Error>> {
/// use wuzhikar::SimFlash;
/// use wuzhikar_device::{DeviceLayer, Input, Keys, Product, UsbDevice};
///
/// let keys = Keys::start(SimFlash::blank(2).unwrap())?;
/// let layer = DeviceLayer::new(Product::TEST.descriptors());
/// let mut device = UsbDevice::new(layer, keys, OneBuffer { packet: None }, Product::TEST.identity().packet_size);
/// let mut usb = InMemory { setup: Some([0x80, 0x06, 0, 1, 0, 0, 18, 0]), input: Input::Nak, address: 0 };
/// // A round of the loop.
/// device.serve(&mut usb);
/// device.scan_rows([0; 6]);
/// device.work();
/// assert!(matches!(usb.input, Input::Packet(packet) if packet[..2] == [18, 1]));
/// # Ok(())
/// # }
/// ```
pub struct UsbDevice<'a, E, B> {
    pub(crate) control: ControlBuffers,
    pub(crate) device: Device<'a, E, B>,
}

impl<'a, E: Endpoints, B: Buffers> UsbDevice<'a, E, B> {
    /// The power comes: the device has no address and is not configured, and the buffers are empty.
    pub fn new(
        layer: DeviceLayer<'a>,
        behind: E,
        buffers: B,
        size: PacketSize,
    ) -> UsbDevice<'a, E, B>
        ensures refines { (lent : Lent) → Refines lent [] layer.entry → E.refines [] behind → B.bus buffers ≡ blank false
            → (result.control ≡ Idle)
            × Layered E.refines lent [] result.device.layer result.device.behind result.device.reports (B.bus result.device.buffers) }
        ensures holds { result.device.behind ≡ behind }
        ensures size { result.device.reports.size ≡ size_of size }
    {
        UsbDevice {
            control: ControlBuffers::new(),
            device: Device::new(layer, behind, buffers, size),
        }
    }

    /// A scan of the matrix, a millisecond after the one before.
    pub fn scan(&mut self)
        ensures goes_on { (lent : Lent) (past : List Event)
            → Layered E.refines lent past self.old.device.layer self.old.device.behind self.old.device.reports (B.bus self.old.device.buffers)
            → Layered E.refines lent (ScanCame ∷ past) self.new.device.layer self.new.device.behind self.new.device.reports (B.bus self.new.device.buffers) }
        ensures same { self.new.control ≡ self.old.control }
        ensures behind { self.new.device.behind ≡ self.old.device.behind }
        ensures size { self.new.device.reports.size ≡ self.old.device.reports.size }
    {
        self.device.scan();
    }

    /// Takes what the controller has met, and fills its buffers.
    ///
    /// What a host saw the end of is confirmed by the device behind (`theorems::confirmed_on_the_bus`), and the host takes as new
    /// the reports of the device behind, each whole, in their order (`theorems::reports_are_got_in_order`). It is
    /// asked again in each call for what it put off, and a report that waits is handed over, except in a pause.
    pub fn serve<C: Controller>(&mut self, controller: &mut C)
        ensures runs { (calls : List EpCall) (lent : Lent) (past : List Event)
            → Runs E.refines self.old.control (C.bus controller.old) calls lent past self.old.device.layer self.old.device.behind self.old.device.reports (B.bus self.old.device.buffers)
            → (later : List EpCall) × (named : Lent) × (since : List Event)
            × Runs E.refines self.new.control (C.bus controller.new) later named since self.new.device.layer self.new.device.behind self.new.device.reports (B.bus self.new.device.buffers)
            × NothingWithheld (may_send (is_ready self.new.device.layer.endpoint) self.new.device.reports.left) (room_of B.two) self.new.device.reports
            (B.bus self.new.device.buffers) (calls_of since)
            × Addressed (is_done self.new.control) self.new.device.layer.due (C.bus controller.new).met.reset calls later (C.address_of controller.old) (C.address_of controller.new)
            × KeptOrReset calls later
            × Looks (C.bus controller.old) (C.bus controller.new) calls later
            × HearsEnd (is_done self.new.control) (C.bus controller.new) later }
        ensures goes_on { (lent : Lent) (past : List Event)
            → Layered E.refines lent past self.old.device.layer self.old.device.behind self.old.device.reports (B.bus self.old.device.buffers)
            → (met asked : List Event)
            × Layered E.refines lent (asked ++ seen_if (is_done self.new.control) (met ++ past)) self.new.device.layer self.new.device.behind self.new.device.reports (B.bus self.new.device.buffers)
            × AreMet met × ArePolls asked
            × ServesReports lent (asked ++ seen_if (is_done self.new.control) (met ++ past)) (B.bus self.new.device.buffers) asked
            × LooksAtReports met (B.bus self.old.device.buffers) (B.bus self.new.device.buffers)
            × KnowsHost (is_done self.new.control) lent past (asked ++ seen_if (is_done self.new.control) (met ++ past)) (B.bus self.old.device.buffers) (B.bus self.new.device.buffers) }
        ensures kept { (from : E) → E.keeps from self.old.device.behind → E.keeps from self.new.device.behind }
        ensures size { self.new.device.reports.size ≡ self.old.device.reports.size }
    {
        self.control.serve(&mut self.device, controller);
        self.settle();
        self.device.serve_reports();
        self.tell(controller);
    }

    /// The bus is suspended: the controller saw it idle for 3 ms (section 7.1.7.6). Address and configuration stay. `resumed`, a SETUP
    /// packet and a reset of the bus end it.
    pub fn suspended(&mut self)
        ensures goes_on { (lent : Lent) (past : List Event)
            → Layered E.refines lent past self.old.device.layer self.old.device.behind self.old.device.reports (B.bus self.old.device.buffers)
            → Layered E.refines lent (SuspendCame ∷ past) self.new.device.layer self.new.device.behind self.new.device.reports (B.bus self.new.device.buffers) }
        ensures same { self.new.control ≡ self.old.control }
        ensures behind { self.new.device.behind ≡ self.old.device.behind }
        ensures size { self.new.device.reports.size ≡ self.old.device.reports.size }
    {
        self.device.suspend();
    }

    /// The bus goes on: the controller saw it resume (section 7.1.7.7).
    pub fn resumed(&mut self)
        ensures goes_on { (lent : Lent) (past : List Event)
            → Layered E.refines lent past self.old.device.layer self.old.device.behind self.old.device.reports (B.bus self.old.device.buffers)
            → Layered E.refines lent (ResumeCame ∷ past) self.new.device.layer self.new.device.behind self.new.device.reports (B.bus self.new.device.buffers) }
        ensures same { self.new.control ≡ self.old.control }
        ensures behind { self.new.device.behind ≡ self.old.device.behind }
        ensures size { self.new.device.reports.size ≡ self.old.device.reports.size }
    {
        self.device.resume();
    }

    /// Whether the controller is to signal a remote wakeup (section 7.1.7.7), asked behind `serve`: a report waits for the host, which
    /// has enabled remote wakeup and has suspended the bus. It is `true` once in each suspend.
    ///
    /// The driver signals K for 1 to 15 ms, and not before the bus was idle for 5 ms.
    pub fn wakes(&mut self) -> bool
        ensures goes_on { (lent : Lent) (past : List Event)
            → Layered E.refines lent past self.old.device.layer self.old.device.behind self.old.device.reports (B.bus self.old.device.buffers)
            → Layered E.refines lent (WakeAsked (report_waits self.old.device.layer self.old.device.reports) result ∷ past) self.new.device.layer self.new.device.behind self.new.device.reports (B.bus self.new.device.buffers) }
        ensures same { self.new.control ≡ self.old.control }
        ensures answer { (lent : Lent) (past : List Event)
            → Layered E.refines lent past self.old.device.layer self.old.device.behind self.old.device.reports (B.bus self.old.device.buffers)
            → result ≡ wakes_by lent past (report_waits self.old.device.layer self.old.device.reports) }
        ensures behind { self.new.device.behind ≡ self.old.device.behind }
        ensures size { self.new.device.reports.size ≡ self.old.device.reports.size }
    {
        self.device.wakes()
    }

    /// The controller has the address once the host has the status packet that brings it.
    fn tell<C: Controller>(&self, controller: &mut C)
        ensures met { (steps : List Bus) × Goes steps (C.bus controller.old) (C.bus controller.new) }
        ensures reported { Tells (is_done self.now.control) self.now.device.layer.due (C.bus controller.old) (C.bus controller.new) (C.address_of controller.old) (C.address_of controller.new) }
    {
        match self.device.address_due() {
            Some(address) if self.control.is_done() => controller.set_address(address),
            _ => {}
        }
    }

    /// Endpoint 1 goes on once the host has the status packet.
    fn settle(&mut self)
        ensures refines { (lent : Lent) (past : List Event)
            → Layered E.refines lent past self.old.device.layer self.old.device.behind self.old.device.reports (B.bus self.old.device.buffers)
            → Layered E.refines lent (seen_if (is_done self.new.control) past) self.new.device.layer self.new.device.behind self.new.device.reports (B.bus self.new.device.buffers) }
        ensures bides { Bides (B.bus self.old.device.buffers) (B.bus self.new.device.buffers) }
        ensures agreed { is_done self.new.control ≡ true → self.old.device.layer.renewed ≡ true
            → ((B.bus self.old.device.buffers).reset ≡ false → (B.bus self.old.device.buffers).opened ≡ true)
            → (B.bus self.new.device.buffers).reset ≡ false → IsKnown (B.bus self.new.device.buffers).got }
        ensures same { self.new.control ≡ self.old.control }
        ensures behind { self.new.device.behind ≡ self.old.device.behind }
        ensures size { self.new.device.reports.size ≡ self.old.device.reports.size }
    {
        if self.control.is_done() {
            self.device.is_done();
        }
    }
}

impl<'a, E: Works, B: Buffers> UsbDevice<'a, E, B> {
    /// A step of the work of the device behind, which is nothing to the bus.
    pub fn work(&mut self)
        ensures made { E.works self.old.device.behind self.new.device.behind }
        ensures goes_on { (lent : Lent) (past : List Event)
            → Layered E.Endpoints.refines lent past self.old.device.layer self.old.device.behind self.old.device.reports (B.bus self.old.device.buffers)
            → Layered E.Endpoints.refines lent past self.new.device.layer self.new.device.behind self.new.device.reports (B.bus self.new.device.buffers) }
        ensures same { self.new.control ≡ self.old.control }
        ensures size { self.new.device.reports.size ≡ self.old.device.reports.size }
    {
        self.device.behind.work();
    }
}

impl<'a, E: ScansMatrix, B: Buffers> UsbDevice<'a, E, B> {
    /// A scan of the matrix with these rows, a millisecond after the one before.
    pub fn scan_rows(&mut self, rows: [u16; 6])
        ensures made { E.scans self.old.device.behind rows self.new.device.behind }
        ensures goes_on { (lent : Lent) (past : List Event)
            → Layered E.Endpoints.refines lent past self.old.device.layer self.old.device.behind self.old.device.reports (B.bus self.old.device.buffers)
            → Layered E.Endpoints.refines lent (ScanCame ∷ past) self.new.device.layer self.new.device.behind self.new.device.reports (B.bus self.new.device.buffers) }
        ensures same { self.new.control ≡ self.old.control }
        ensures size { self.new.device.reports.size ≡ self.old.device.reports.size }
    {
        self.scan();
        self.device.behind.scan(rows);
    }
}

impl<'a, E: Endpoints, B: Buffers> UsbDevice<'a, Guarded<E>, B> {
    /// Sets the lock of feature commands, or takes it away.
    pub fn set_locked(&mut self, on: bool)
        ensures reported { (pace : ℕ) (past : List GuardCall)
            → Guards E.refines pace past self.old.device.behind.guard self.old.device.behind.behind
            → Guards E.refines pace (Locked on ∷ past) self.new.device.behind.guard self.new.device.behind.behind }
        ensures goes_on { (lent : Lent) (past : List Event)
            → Layered (guarded_refines E.refines) lent past self.old.device.layer self.old.device.behind self.old.device.reports (B.bus self.old.device.buffers)
            → Layered (guarded_refines E.refines) lent past self.new.device.layer self.new.device.behind self.new.device.reports (B.bus self.new.device.buffers) }
        ensures same { self.new.control ≡ self.old.control }
        ensures size { self.new.device.reports.size ≡ self.old.device.reports.size }
    {
        self.device.behind.set_locked(on);
    }
}
