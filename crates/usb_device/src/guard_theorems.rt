//! What a lock and a pace hold, whatever the host asks.

ghost use Rattle.std.specs.Prelude.{◌≡◌, ◌≤◌, ◌<◌, ◌+◌, ◌*◌, ◌∷◌, ◌++◌, [], ℕ, Bool, true, false, List};
ghost use Rattle.usb_device.specs.declared.answer.EpAnswer.{EpAnswer};
ghost use Rattle.usb_device.specs.Bus.{Seen};
ghost use Rattle.usb_device.specs.Calls.{Out};
ghost use Rattle.usb_device.specs.Confirmed.{ConfirmedBefore, asked_of};
ghost use Rattle.usb_device.specs.Guarding.{GuardCall, Met, Locked, Passes, DeviceCall, Serves, SetsLock, Else, Brings, AllBring, locks, KeepsLock, rows_scanned, calls_met, scans, is_feature, is_command, is_locked, is_refused, passage, passed, AllGuarded, StaysLocked, IsStatusStage, commands_shown, commands_taken};
ghost use Rattle.usb_device.specs.declared.guarded.Guarded.{Guarded};
ghost use Rattle.usb_device.specs.representation.Guarded.{Guards, Went};

use crate::{Endpoints, Guarded};

/// While the lock is set a feature command is stalled, and the device behind sees none: so it accepts none.
pub fn none_while_locked()
    ensures stalled { (pace : ℕ) (past : List GuardCall) (packet : List ℕ) (answer : EpAnswer) → AllGuarded pace (Met (Out packet answer) ∷ past)
        → is_locked past ≡ true → is_command (calls_met past) packet ≡ true → answer ≡ EpAnswer.Stall }
    ensures shown { (pace : ℕ) (since before : List GuardCall) → is_locked before ≡ true → StaysLocked since
        → commands_shown (passed pace (since ++ before)) ≡ commands_shown (passed pace before) }
    ensures taken { (pace : ℕ) (since before : List GuardCall) → is_locked before ≡ true → StaysLocked since
        → commands_taken (passed pace (since ++ before)) ≡ commands_taken (passed pace before) }
{}

/// Whatever the lock is set to: a transfer that reads is the device's own, and so is the status stage of a packet that was
/// acknowledged before.
pub fn what_began_goes_on()
    ensures reading { (pace : ℕ) (past : List GuardCall) (packet : List ℕ) → is_feature (asked_of (calls_met past)) ≡ false
        → (is_refused past ≡ false) × (passage pace past packet ≡ Passes) }
    ensures status { (pace : ℕ) (since before : List GuardCall) (packet : List ℕ) → AllGuarded pace (Met (Out packet EpAnswer.Ack) ∷ before) → IsStatusStage since
        → is_refused (since ++ Met (Out packet EpAnswer.Ack) ∷ before) ≡ false }
{}

/// What a guarded device confirmed, the device behind confirmed.
pub fn guarded_is_confirmed()
    ensures { (pace : ℕ) (past : List GuardCall) (sent : List Seen) (setup data_ : List ℕ) → AllGuarded pace past
        → ConfirmedBefore sent setup data_ (calls_met past) → ConfirmedBefore sent setup data_ (passed pace past) }
{}

/// A device acknowledges at most one feature command in fewer scans than the pace, and since the start at most one for each pace.
pub fn one_command_in_a_pace()
    ensures between { (pace : ℕ) (since before : List GuardCall) → AllGuarded pace (since ++ before) → scans since < pace
        → commands_taken (passed pace (since ++ before)) ≤ commands_taken (passed pace before) + 1 }
    ensures since_start { (pace : ℕ) (past : List GuardCall) → AllGuarded pace past → commands_taken (passed pace past) * pace ≤ scans past }
{}

/// What a call of a whole device, `UsbDevice` over `Guarded`, is to the guard: `serve` brings it calls of the bus alone,
/// `set_locked` the lock alone, and a call that leaves the guard and the device behind as they were brings nothing.
/// `scan_rows` and `work` say it by their clause `made`.
pub fn a_call_of_the_whole_device<E: Endpoints>()
    ensures serves { (old now : Guarded E) → ((from : Guarded E) → ⟦<Guarded<E> as Endpoints>⟧.keeps from old → ⟦<Guarded<E> as Endpoints>⟧.keeps from now)
        → Went E.refines (Brings Serves) old now }
    ensures locks { (on : Bool) (old now : Guarded E)
        → ((pace : ℕ) (past : List GuardCall) → Guards E.refines pace past old.guard old.behind → Guards E.refines pace (Locked on ∷ past) now.guard now.behind)
        → Went E.refines (Brings (SetsLock on)) old now }
    ensures rests { (old now : Guarded E) → now ≡ old → Went E.refines (Brings Else) old now }
{}

/// What a history of such calls is to the guard is what each of them brings, one after the other.
pub fn a_history_of_the_whole_device<E: Endpoints>()
    ensures begins { (g : Guarded E) → Went E.refines (AllBring []) g g }
    ensures goes_on { (call : DeviceCall) (calls : List DeviceCall) (from old now : Guarded E)
        → Went E.refines (AllBring calls) from old → Went E.refines (Brings call) old now → Went E.refines (AllBring (call ∷ calls)) from now }
{}

/// What lock and pace hold on the whole device, by its calls. While the lock is set the device behind accepts no feature command,
/// and sees none. In fewer calls of `scan_rows` than the pace it accepts at most one, and since the start at most one for each pace.
/// One that was accepted before the lock goes on (`what_began_goes_on`).
pub fn lock_and_pace_on_the_whole_device()
    ensures locked { (calls : List DeviceCall) (past : List GuardCall) → AllBring calls past → is_locked past ≡ locks calls }
    ensures shown { (pace : ℕ) (calls : List DeviceCall) (since before : List GuardCall) → AllBring calls since → is_locked before ≡ true → KeepsLock calls
        → commands_shown (passed pace (since ++ before)) ≡ commands_shown (passed pace before) }
    ensures taken { (pace : ℕ) (calls : List DeviceCall) (since before : List GuardCall) → AllBring calls since → is_locked before ≡ true → KeepsLock calls
        → commands_taken (passed pace (since ++ before)) ≡ commands_taken (passed pace before) }
    ensures between { (pace : ℕ) (calls : List DeviceCall) (since before : List GuardCall) → AllBring calls since → AllGuarded pace (since ++ before) → rows_scanned calls < pace
        → commands_taken (passed pace (since ++ before)) ≤ commands_taken (passed pace before) + 1 }
    ensures since_start { (pace : ℕ) (calls : List DeviceCall) (past : List GuardCall) → AllBring calls past → AllGuarded pace past
        → commands_taken (passed pace past) * pace ≤ rows_scanned calls }
{}
