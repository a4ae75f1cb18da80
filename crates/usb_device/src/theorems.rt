//! What follows for every bus.

ghost use Rattle.std.specs.Prelude.{◌≡◌, ◌≤◌, ◌∷◌, ◌++◌, [], ℕ, Bool, true, false, List, Option, Some};
ghost use Rattle.usb_device.specs.Calls.{EpCall, Polled};
ghost use Rattle.usb_device.specs.Requests.{Lent};
ghost use Rattle.usb_device.specs.Strings.{Utf16, held_units};
ghost use Rattle.usb_device.specs.Events.{Event};
ghost use Rattle.usb_device.specs.Steps.{AllAnswered, session, state_of};
ghost use Rattle.usb_device.specs.States.{endpoint_by, has_renewed, wakeup_by};
ghost use Rattle.usb_device.specs.Through.{calls_of};
ghost use Rattle.usb_device.specs.Bus.{Bus, Seen, InGot, Naks, NaksOut, nothing_met, is_pending, is_write, setup_of, write_of};
ghost use Rattle.usb_device.specs.Bus1.{Bus1, sent_of, no_polls};
ghost use Rattle.usb_device.specs.Answered.{AllStalled, WasAnswered, served_in};
ghost use Rattle.usb_device.specs.Given.{got_of, WereGiven};
ghost use Rattle.usb_device.specs.Forgetting.{Shows, first_of, owed};
ghost use Rattle.usb_device.specs.Reports.{GotInOrder};
ghost use Rattle.usb_device.specs.Pauses.{Ends, pause_of, scans_in};
ghost use Rattle.usb_device.specs.representation.Link1.{ReportState, Link1};
ghost use Rattle.usb_device.specs.Confirmed.{ConfirmedBefore, asked_of, three_writes, last_is_lost};
ghost use Rattle.usb_device.specs.Transfers.{TransferState, Idle, NothingWithheld0};
ghost use Rattle.usb_device.specs.representation.Link.{Link};

/// A controller with empty buffers, before a device that was not asked, is where it begins.
pub fn begins()
    ensures linked { Link Idle (record { seen = []; input = Naks; output = NaksOut; met = nothing_met }) [] }
    ensures rests { NothingWithheld0 Idle (record { seen = []; input = Naks; output = NaksOut; met = nothing_met }) }
{}

/// A control write that the host saw the end of was confirmed by the device: the host sent this SETUP packet, the controller
/// took this data first, and the host got the empty packet, whatever was lost on the way and whatever came since. Then the
/// device acknowledged just this data in the transfer of just this SETUP packet, and gave the empty packet for it. Since then
/// it acknowledged no data but those that the host sent since.
pub fn seen_is_confirmed()
    ensures confirmed { (t : TransferState) (b : Bus) (calls : List EpCall) (after before : List Seen) (setup data_ : List ℕ) → Link t b calls
        → b.seen ≡ after ++ (InGot [] ∷ before) → setup_of before ≡ Some setup → is_write setup ≡ true → write_of before ≡ Some data_
        → ConfirmedBefore after setup data_ calls }
    // so one, another and the first again are not met where the last is lost
    ensures last_counts { (t : TransferState) (b : Bus) (setup one other : List ℕ) → is_write setup ≡ true → (other ≡ one → ⊥)
        → b.seen ≡ three_writes setup one other → Link t b (last_is_lost setup one other) → ⊥ }
{}

/// What a device with its USB device layer confirmed, the device behind the layer confirmed.
#[tactic(auto, using(crate::proofs::Behind::behind_confirmed))]
pub fn confirmed_behind()
    ensures { (lent : Lent) (past : List Event) (sent : List Seen) (setup data_ : List ℕ) → AllAnswered lent past
        → ConfirmedBefore sent setup data_ (calls_of past) → ConfirmedBefore sent setup data_ (session lent past) }
{}

/// The guarantee, from the bus to the device behind the layer: what `UsbDevice::serve` keeps of a control write that the host
/// saw the end of. The host sent this SETUP packet, the controller took this data first, and the host got the empty packet:
/// then the device behind acknowledged just this data in the transfer of just this SETUP packet, and gave the empty packet,
/// before it acknowledged any data that the host sent since.
pub fn confirmed_on_the_bus()
    ensures { (t : TransferState) (b : Bus) (calls : List EpCall) (lent : Lent) (past : List Event) (after before : List Seen) (setup data_ : List ℕ)
        → Link t b calls → AllAnswered lent past → no_polls (calls_of past) ≡ no_polls calls
        → b.seen ≡ after ++ (InGot [] ∷ before) → setup_of before ≡ Some setup → is_write setup ≡ true → write_of before ≡ Some data_
        → ConfirmedBefore after setup data_ (session lent past) }
{}

/// Whatever the host got on endpoint 0, the device had given: in the transfer of just this SETUP packet just these packets, newest
/// first, none left out and none added, whatever was lost on the way and whatever came since. So a read of what the layer serves brings
/// its bytes from the first on, at most wLength of them, and all of these where it ends; any other brings what the device behind gave.
pub fn got_is_answered()
    ensures given { (t : TransferState) (b : Bus) (calls : List EpCall) (after before : List Seen) (setup packet : List ℕ)
        → Link t b calls → b.seen ≡ after ++ (InGot packet ∷ before) → setup_of before ≡ Some setup → WereGiven setup (packet ∷ got_of before) calls }
    ensures answered { (t : TransferState) (b : Bus) (calls : List EpCall) (lent : Lent) (past : List Event) (after before : List Seen) (setup packet : List ℕ)
        → Link t b calls → AllAnswered lent past → no_polls (calls_of past) ≡ no_polls calls
        → b.seen ≡ after ++ (InGot packet ∷ before) → setup_of before ≡ Some setup → WasAnswered lent past setup (packet ∷ got_of before) }
    // so a request that the layer leaves, and that the device behind stalls, brings nothing
    ensures stalled { (t : TransferState) (b : Bus) (calls : List EpCall) (lent : Lent) (past : List Event) → Link t b calls → is_pending b.met ≡ false
        → AllAnswered lent past → no_polls (calls_of past) ≡ no_polls calls → served_in lent past ≡ None → AllStalled (session lent past) → got_of b.seen ≡ [] }
{}

/// What endpoint 1 is, is what the last completed request says that sets it.
pub fn endpoint_is_looked_back()
    ensures { (lent : Lent) (past : List Event) → AllAnswered lent past → (state_of lent past).endpoint ≡ endpoint_by lent past }
{}

/// Whether remote wakeup is enabled, is what the last completed request says that sets it.
pub fn remote_wakeup_is_looked_back()
    ensures { (lent : Lent) (past : List Event) → AllAnswered lent past → (state_of lent past).wakeup ≡ wakeup_by lent past }
{}

/// Whether the transfer under way has set endpoint 1, is whether one of its requests was completed that sets it.
pub fn what_a_transfer_set_is_looked_back()
    ensures { (lent : Lent) (past : List Event) → AllAnswered lent past → (state_of lent past).renewed ≡ has_renewed lent past }
{}

/// What the host took as new since the last reset are the reports that the device gave, whole and in their order: all of them, or
/// all but the newest, whatever acknowledgements were lost, and whatever toggle the host wanted. But of the reports behind which
/// the protocol was set, one may be given up: one of which the host was not known to have a packet. So the first packet of a report
/// is handed over only while the protocol is that of the report.
pub fn reports_are_got_in_order()
    ensures { (s : ReportState) (b : Bus1) (calls : List EpCall) → b.reset ≡ false → Link1 s b calls → GotInOrder s.size b.got (sent_of calls) }
{}

/// What `ReportBuffers` asks of the device is nothing to endpoint 0.
pub fn a_poll_is_nothing_to_endpoint_0()
    ensures { (t : TransferState) (b : Bus) (answer : Option (List ℕ)) (calls : List EpCall) → Link t b calls → Link t b (Polled answer ∷ calls) }
{}

/// A transfer that does not set the protocol is nothing to endpoint 1.
#[tactic(auto, using(crate::proofs::Reporting::same_reports))]
pub fn a_transfer_is_nothing_to_endpoint_1()
    ensures { (s : ReportState) (b : Bus1) (calls later : List EpCall) → Link1 s b calls → sent_of later ≡ sent_of calls → asked_of later ≡ asked_of calls → Link1 s b later }
{}

/// No key stays down behind SET_PROTOCOL, though a release that waited was dropped: where reports without usages are owed, each poll is
/// answered by the first of them.
#[tactic(auto, using(crate::proofs::Blanks::given_first))]
pub fn what_is_owed_is_given()
    ensures { (calls kept after before : List EpCall) (answer : Option (List ℕ)) (report : List ℕ) → Shows calls kept → calls ≡ after ++ (Polled answer ∷ before)
        → first_of (owed before) ≡ Some report → answer ≡ Some report }
{}

/// What a string descriptor holds of a text is whole characters.
#[tactic(auto, using(crate::proofs::Characters::held))]
pub fn a_string_is_cut_at_a_character()
    ensures { (text : List ℕ) → Utf16 text → Utf16 (held_units text) }
{}

/// Endpoint 1 waits for the host at most 50 scans: in so many there is a moment at which it waits for nothing, whatever the host asks.
#[tactic(auto, using(crate::proofs::Pausing::at_most_50, crate::proofs::Pausing::ends))]
pub fn endpoint_1_waits_at_most_50_scans()
    ensures left { (lent : Lent) (past : List Event) → pause_of lent past ≤ 50 }
    ensures ends { (lent : Lent) (since before : List Event) → 50 ≤ scans_in since → Ends lent since before }
{}
