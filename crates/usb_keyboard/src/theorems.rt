//! What a host saw the end of, in the session of the keyboard and on its flash.

ghost use Rattle.std.specs.Prelude.{◌≡◌, ◌<◌, ◌≤◌, ◌+◌, ◌*◌, ◌∷◌, ◌++◌, [], ℕ, true, false, List, None, Some, length};
ghost use Rattle.layers.specs.Codes.{layers, keys, DefaultCodes};
ghost use Rattle.layers.specs.Entries.{written};
ghost use Rattle.layers.specs.declared.command.Command.{Command};
ghost use Rattle.keyboard.specs.Acknowledged.{confirmation, IsConfirmed, IsSettled, NoneAcceptedWrites};
ghost use Rattle.keyboard.specs.Calls.{Call};
ghost use Rattle.keyboard.specs.Commands.{accepted};
ghost use Rattle.keyboard.specs.Conforming.{IsConforming};
ghost use Rattle.keyboard.specs.representation.Value.{KeyboardValue};
ghost use Rattle.usb_device.specs.Answered.{AllStalled, served_in};
ghost use Rattle.usb_device.specs.Bus.{Bus, Seen, InGot, is_pending, is_write, setup_of, write_of};
ghost use Rattle.usb_device.specs.Given.{got_of};
ghost use Rattle.usb_device.specs.Bus1.{no_polls};
ghost use Rattle.usb_device.specs.Calls.{EpCall};
ghost use Rattle.usb_device.specs.Confirmed.{ConfirmedBefore, WasConfirmed};
ghost use Rattle.usb_device.specs.Events.{Event};
ghost use Rattle.usb_device.specs.Guarding.{GuardCall, AllGuarded, StaysLocked, calls_met, commands_taken, is_locked, passed, scans};
ghost use Rattle.usb_device.specs.Requests.{Lent};
ghost use Rattle.usb_device.specs.Steps.{AllAnswered, session};
ghost use Rattle.usb_device.specs.Through.{calls_of};
ghost use Rattle.usb_device.specs.Transfers.{TransferState};
ghost use Rattle.usb_device.specs.representation.Link.{Link};
ghost use Rattle.usb_device.specs.Forgetting.{Shows};
ghost use Rattle.usb_keyboard.specs.Checks.{IsRefused};
ghost use Rattle.usb_keyboard.specs.Plain.{usb_calls};
ghost use Rattle.keyboard.specs.Sessions.{Session, Follow};
ghost use Rattle.usb_keyboard.specs.Stored.{Brings, NoneSent, NoneWrites, HasNow, Has};
ghost use Rattle.usb_keyboard.specs.representation.Relation.{RefinesUsb, IsStored};

/// A feature command that the bus saw the end of is confirmed in the session of the keyboard, and settled.
pub fn confirmed_on_the_bus()
    ensures { (defaults : DefaultCodes) (start : List ℕ) (past : List Call) (setup data_ : List ℕ) (command : Command) → IsConforming defaults start past
        → WasConfirmed setup data_ (usb_calls past) → Brings setup data_ command
        → (before : List Call) × IsConfirmed past before command × IsSettled defaults start past before command }
{}

/// A confirmed command is in the flash, and stays there behind every power loss, until a later command is accepted that writes
/// the entry: in its own session, and in those behind it.
pub fn stored_until_written()
    ensures session { (defaults : DefaultCodes) (start : List ℕ) (past before : List Call) (command : Command) (layer key code : ℕ) → IsConforming defaults start past
        → (c : IsConfirmed past before command) → layer < layers → key < keys → written defaults command layer key ≡ Some code
        → NoneAcceptedWrites defaults (c.after ++ confirmation ∷ c.between) (c.packet ∷ before) layer key → Has defaults start past layer key code }
    ensures later { (defaults : DefaultCodes) (since earlier : List Session) (session : Session) (layer key code : ℕ) → Follow defaults (since ++ session ∷ earlier)
        → layer < layers → key < keys → NoneWrites defaults since layer key → Has defaults session.first session.past layer key code
        → HasNow defaults (since ++ session ∷ earlier) layer key code }
{}

/// The guarantee, from the bus to the flash: what `UsbDevice::serve` keeps of a feature command whose status stage the host
/// saw. The host sent this SETUP packet, the controller took this data first, and the host got the empty packet, whatever
/// acknowledgements were lost: then the command is confirmed in the session of the keyboard and settled, and it is in the
/// flash, also behind a power loss, until a later command that writes the entry is accepted. The commands that were accepted
/// since are those that the host sent behind this status stage: of one, another, and the first again, the last stays.
pub fn seen_is_stored()
    ensures direct { (defaults : DefaultCodes) (t : TransferState) (b : Bus) (calls : List EpCall) (lent : Lent) (past : List Event) (after before : List Seen)
        (keyboard : KeyboardValue) (image setup data_ : List ℕ) (command : Command)
        → Link t b calls → AllAnswered lent past → no_polls (calls_of past) ≡ no_polls calls → RefinesUsb defaults (session lent past) keyboard image
        → b.seen ≡ after ++ (InGot [] ∷ before) → setup_of before ≡ Some setup → is_write setup ≡ true → write_of before ≡ Some data_
        → Brings setup data_ command → IsStored defaults after keyboard image command }
    // likewise where a lock and a pace stand between
    ensures guarded { (defaults : DefaultCodes) (t : TransferState) (b : Bus) (calls : List EpCall) (lent : Lent) (past : List Event) (after before : List Seen)
        (pace : ℕ) (met : List GuardCall) (keyboard : KeyboardValue) (image setup data_ : List ℕ) (command : Command)
        → Link t b calls → AllAnswered lent past → no_polls (calls_of past) ≡ no_polls calls
        → calls_met met ≡ session lent past → AllGuarded pace met → RefinesUsb defaults (passed pace met) keyboard image
        → b.seen ≡ after ++ (InGot [] ∷ before) → setup_of before ≡ Some setup → is_write setup ≡ true → write_of before ≡ Some data_
        → Brings setup data_ command → IsStored defaults after keyboard image command }
    // in the host's words: until it sends a later command that writes the entry
    ensures until_sent { (defaults : DefaultCodes) (later : List Seen) (keyboard : KeyboardValue) (image : List ℕ) (command : Command) (layer key code : ℕ)
        → (stored : IsStored defaults later keyboard image command) → layer < layers → key < keys → written defaults command layer key ≡ Some code
        → NoneSent defaults later layer key → Has defaults stored.start stored.past layer key code }
{}

/// A request that neither the layer nor the tables of the keyboard serve (USB 2.0 section 9.2.7) is stalled in the session of the keyboard,
/// packet by packet, and brings the host nothing.
pub fn refused_requests_bring_nothing()
    ensures stalled { (defaults : DefaultCodes) (start : List ℕ) (past : List Call) → IsConforming defaults start past → IsRefused defaults start past
        → AllStalled (usb_calls past) }
    ensures on_the_bus { (defaults : DefaultCodes) (t : TransferState) (b : Bus) (calls : List EpCall) (lent : Lent) (past : List Event) (start : List ℕ) (keyboard : List Call)
        → Link t b calls → is_pending b.met ≡ false → AllAnswered lent past → no_polls (calls_of past) ≡ no_polls calls → served_in lent past ≡ None
        → IsConforming defaults start keyboard → usb_calls keyboard ≡ session lent past → IsRefused defaults start keyboard → got_of b.seen ≡ [] }
{}

/// The same where polls are answered between, by reports without usages that let a host forget: what such a session confirms is
/// stored. `usb_device::theorems::seen_is_confirmed` says what the session of a device confirms.
pub fn stored_where_forgotten()
    ensures { (defaults : DefaultCodes) (calls kept : List EpCall) (keyboard : KeyboardValue) (image : List ℕ) (later : List Seen) (setup data_ : List ℕ) (command : Command)
        → ConfirmedBefore later setup data_ calls → Shows calls kept → RefinesUsb defaults kept keyboard image → Brings setup data_ command
        → IsStored defaults later keyboard image command }
{}

/// A keyboard behind a lock and a pace accepts no command while the lock is set, at most one in fewer scans than the pace, and
/// since its start at most one for each pace.
pub fn accepted_behind_a_guard()
    ensures locked { (defaults : DefaultCodes) (pace : ℕ) (since before : List GuardCall) (start : List ℕ) (later past : List Call) → is_locked before ≡ true → StaysLocked since
        → usb_calls past ≡ passed pace before → usb_calls (later ++ past) ≡ passed pace (since ++ before)
        → length (accepted defaults start (later ++ past)) ≡ length (accepted defaults start past) }
    ensures paced { (defaults : DefaultCodes) (pace : ℕ) (since before : List GuardCall) (start : List ℕ) (later past : List Call) → AllGuarded pace (since ++ before) → scans since < pace
        → usb_calls past ≡ passed pace before → usb_calls (later ++ past) ≡ passed pace (since ++ before)
        → length (accepted defaults start (later ++ past)) ≤ length (accepted defaults start past) + 1 }
    ensures since_start { (defaults : DefaultCodes) (pace : ℕ) (met : List GuardCall) (start : List ℕ) (past : List Call) → AllGuarded pace met → usb_calls past ≡ passed pace met
        → length (accepted defaults start past) * pace ≤ scans met }
{}

/// A keyboard accepts no more commands than are acknowledged before `usb_device::Forgetting`, which answers polls in its place.
/// So it accepts none that `usb_device::guard_theorems::lock_and_pace_on_the_whole_device` says is not acknowledged behind a lock and a
/// pace: `calls` are then `passed pace before`, and `more` `passed pace (since ++ before)`.
pub fn accepted_where_forgotten()
    ensures since { (defaults : DefaultCodes) (start : List ℕ) (later past : List Call) (calls more : List EpCall) → Shows calls (usb_calls past) → Shows more (usb_calls (later ++ past))
        → length (accepted defaults start (later ++ past)) + commands_taken calls ≤ commands_taken more + length (accepted defaults start past) }
    // so none while the lock is set, at most one in fewer scans than the pace, and since the start at most one for each pace
    ensures locked { (defaults : DefaultCodes) (pace : ℕ) (since before : List GuardCall) (start : List ℕ) (later past : List Call) → is_locked before ≡ true → StaysLocked since
        → Shows (passed pace before) (usb_calls past) → Shows (passed pace (since ++ before)) (usb_calls (later ++ past))
        → length (accepted defaults start (later ++ past)) ≡ length (accepted defaults start past) }
    ensures paced { (defaults : DefaultCodes) (pace : ℕ) (since before : List GuardCall) (start : List ℕ) (later past : List Call) → AllGuarded pace (since ++ before) → scans since < pace
        → Shows (passed pace before) (usb_calls past) → Shows (passed pace (since ++ before)) (usb_calls (later ++ past))
        → length (accepted defaults start (later ++ past)) ≤ length (accepted defaults start past) + 1 }
    ensures since_start { (defaults : DefaultCodes) (pace : ℕ) (met : List GuardCall) (start : List ℕ) (past : List Call) → AllGuarded pace met
        → Shows (passed pace met) (usb_calls past) → length (accepted defaults start past) * pace ≤ scans met }
{}
