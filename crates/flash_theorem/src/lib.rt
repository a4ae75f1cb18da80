//! The keyboard's theorem on any flash that can be cut.
//!
//! A `Keyboard` guarantees the same on every `NorFlash`. What is added here is a power loss at any moment
//! on the flash that a maker has: between two operations, inside one, and inside a start, which may write.
//! `RestartableFlash` says what such a flash owes. One with error correction (`PairedFlash`) keeps it: a
//! step of the flash work makes up to two unit programs there, or an erase, and the power may fail inside
//! each of them and between the two, by any part of the cells.
//!
//! Nothing is kept here. The guarantee is that of `take_all`: each list of events is one more of the
//! histories of `world`, over all sessions. `work_cut` says the same of a keyboard without its host, and
//! `serve` that on a healthy flash a command ends stored.
#![tactic(auto)]

pub mod board;
pub mod interrupted;
pub mod paired;
pub mod plain;
pub mod restartable;

ghost use Rattle.std.specs.Prelude.{◌≡◌, ◌≢◌, ◌∷◌, ◌+◌, ◌++◌, [], ℕ, List, Ok, IfOk, IsOk, length};
ghost use Rattle.layers.specs.declared.command.Command.{Command};
ghost use Rattle.keyboard.specs.Acknowledged.{IsAcknowledgedInSession};
ghost use Rattle.keyboard.specs.Calls.{Call, SetUp, Out, In, Worked, image_after, keymap};
ghost use Rattle.keyboard.specs.Feature.{command_of_bytes};
ghost use Rattle.keyboard.specs.Conforming.{IsAnswered, MakesSuch};
ghost use Rattle.keyboard.specs.Progress.{set_feature, IsReady, AreWhole, steps_for, IsServed};
ghost use Rattle.keyboard.specs.Restart.{RestartsLegally, CutsLegally};
ghost use Rattle.keyboard.specs.representation.Relation.{Refines};
ghost use Rattle.keyboard.specs.representation.Value.{RunsOn};
ghost use Rattle.keymap_store.specs.declared.store.Work.{Work};
ghost use Rattle.page_turnover.specs.Next.{on_flash};
ghost use Rattle.flash_model.specs.Image.{IsImage};
ghost use Rattle.flash_theorem.specs.WorkCut.{WorkIsCut};

use arrayvec::ArrayVec;
pub use board::{Happening, Reported, begin, take, take_all};
use flash_model::NorFlash;
use interrupted::Interrupted;
use keyboard::theorems::{a_command_is_served, acknowledged_is_stored, restarts_are_legal};
use keyboard::{EpAnswer, KeyboardOf, Work};
use layers::Defaults;
pub use restartable::RestartableFlash;

/// A step of the flash work with the keyboard's guarantee: its answer is the one that it has to be; what
/// it leaves, and each image that its operation might have left, makes a legal restart; and what the host
/// was told is stored is there. On a healthy flash no step fails.
pub fn work<D: Defaults, F: NorFlash>(keyboard: &mut KeyboardOf<D>, flash: &mut F) -> Work
    requires { RunsOn D.defaults (F.image flash.old) keyboard.old }
    ensures runs_on { RunsOn D.defaults (F.image flash.new) keyboard.new }
    ensures refines { (start : List ℕ) (past : List Call) → Refines D.defaults start past keyboard.old → image_after start past ≡ F.image flash.old
        → Refines D.defaults start (Worked result (F.image flash.new) ∷ past) keyboard.new }
    ensures answer { (start : List ℕ) (past : List Call) → Refines D.defaults start past keyboard.old → image_after start past ≡ F.image flash.old
        → IsAnswered D.defaults start past (Worked result (F.image flash.new)) }
    ensures cut { (start : List ℕ) (past : List Call) → Refines D.defaults start past keyboard.old → image_after start past ≡ F.image flash.old
        → result ≢ Work.Idle → CutsLegally D.defaults start past result (F.image flash.new) }
    ensures operated { (start : List ℕ) (past : List Call) → Refines D.defaults start past keyboard.old → image_after start past ≡ F.image flash.old
        → result ≢ Work.Idle → MakesSuch D.defaults start past result (F.image flash.new) (λ operation. F.operates flash.old (on_flash operation) flash.new) }
    ensures untouched { result ≡ Work.Idle → flash.new ≡ flash.old }
    ensures faultless { (n : ℕ) → F.is_faultless flash.old (n + 1) → (result ≢ Work.Idle → F.is_faultless flash.new n) × (result ≢ Work.Failed) }
    ensures legal { (start : List ℕ) (past : List Call) → Refines D.defaults start past keyboard.old → image_after start past ≡ F.image flash.old
        → RestartsLegally D.defaults start past (F.image flash.new) }
    ensures acknowledged { (start : List ℕ) (past : List Call) (layer key code : ℕ) → Refines D.defaults start past keyboard.old → image_after start past ≡ F.image flash.old
        → IsAcknowledgedInSession D.defaults past layer key code → keymap D.defaults (F.image flash.new) layer key ≡ code }
{
    acknowledged_is_stored();
    restarts_are_legal();
    keyboard.work(flash)
}

/// A command as a host sends it: a SETUP packet of SET_REPORT, the report with the command, `steps` steps
/// of the flash work, and the status stage. It gives the answer to the report and that to the status
/// stage.
///
/// Progress: where each slot 0 is sound, the log is not worn, no command works and the flash is healthy,
/// `steps` being as many as the command takes, the report is acknowledged, no step fails, the last is
/// answered Settled, and the status stage by the empty packet. The flash is still healthy then.
pub fn serve<D: Defaults, F: NorFlash>(
    keyboard: &mut KeyboardOf<D>,
    flash: &mut F,
    report: [u8; 6],
    steps: usize,
) -> (EpAnswer, EpAnswer)
    requires { RunsOn D.defaults (F.image flash.old) keyboard.old }
    ensures served { (start : List ℕ) (past : List Call) (a b c d e : ℕ) (command : Command) → Refines D.defaults start past keyboard.old → image_after start past ≡ F.image flash.old
        → ((n : ℕ) → F.is_faultless flash.old n) → IsReady D.defaults start past → report ≡ 3 ∷ a ∷ b ∷ c ∷ d ∷ e ∷ [] → command_of_bytes (a ∷ b ∷ c ∷ d ∷ e ∷ []) ≡ Ok command → steps ≡ steps_for D.defaults (image_after start past) command
        → (worked : List Call) × IsServed result.0 worked result.1 × (length worked ≡ steps) × ((n : ℕ) → F.is_faultless flash.new n)
        × Refines D.defaults start (In result.1 ∷ worked ++ Out report result.0 ∷ SetUp set_feature ∷ past) keyboard.new }
{
    a_command_is_served();
    keyboard.setup(SET_FEATURE);
    let given = keyboard.out(&report);
    run(keyboard, flash, steps);
    let status = keyboard.in_packet();
    (given, status)
}

/// The SETUP packet of SET_REPORT for the feature report, ID 3, with six bytes (HID 1.11 section 7.2.2).
const SET_FEATURE: [u8; 8] = [0x21, 0x09, 3, 3, 0, 0, 6, 0];

/// So many steps of the flash work, and nothing between them.
fn run<D: Defaults, F: NorFlash>(keyboard: &mut KeyboardOf<D>, flash: &mut F, steps: usize)
    requires { RunsOn D.defaults (F.image flash.old) keyboard.old }
    ensures runs_on { RunsOn D.defaults (F.image flash.new) keyboard.new }
    ensures whole { (start : List ℕ) (past : List Call) → Refines D.defaults start past keyboard.old → image_after start past ≡ F.image flash.old → ((n : ℕ) → F.is_faultless flash.old n)
        → (worked : List Call) × AreWhole worked × (length worked ≡ steps) × ((n : ℕ) → F.is_faultless flash.new n) × Refines D.defaults start (worked ++ past) keyboard.new
        × (image_after start (worked ++ past) ≡ F.image flash.new) }
{
    for step in 0..steps {
        let _work = work(keyboard, flash);
    }
}

/// A step of the flash work in which the power fails, behind `whole` operations of the flash below: on a
/// flash with error correction with 0 inside the first unit program or erase or before it, with 1 inside
/// the second or between the two. Where no command works it fails between two operations. Then the power
/// fails inside each of `starts`, behind so many operations. It gives the flash that the start after them
/// finds; or the flash without power, where that start did not go through.
///
/// A restart on it is legal: it finds the keymap of the session's start, changed by a prefix of the
/// accepted commands that did not fail, with each settled one among them. And an entry whose code the
/// host was told is stored, and that no later command writes, has this code.
pub fn work_cut<D: Defaults, F: RestartableFlash>(
    keyboard: &mut KeyboardOf<D>,
    flash: F,
    whole: u32,
    starts: &ArrayVec<u32, 64>,
) -> Result<F, F::Off>
    requires { RunsOn D.defaults (F.image flash) keyboard.old }
    ensures legal { (start : List ℕ) (past : List Call) → Refines D.defaults start past keyboard.old → image_after start past ≡ F.image flash
        → IfOk result (λ next. RestartsLegally D.defaults start past (F.image next)) }
    ensures acknowledged { (start : List ℕ) (past : List Call) (layer key code : ℕ) → Refines D.defaults start past keyboard.old → image_after start past ≡ F.image flash
        → IsAcknowledgedInSession D.defaults past layer key code → IfOk result (λ next. keymap D.defaults (F.image next) layer key ≡ code) }
    ensures kept { IfOk result (λ next. IsImage (F.image next)) }
    ensures answered { (start : List ℕ) (past : List Call) → Refines D.defaults start past keyboard.old → image_after start past ≡ F.image flash
        → IfOk result (λ next. (work : Work) × IsAnswered D.defaults start past (Worked work (F.image next))) }
    ensures cut { (start : List ℕ) (past : List Call) → Refines D.defaults start past keyboard.old → image_after start past ≡ F.image flash
        → IfOk result (λ next. WorkIsCut D.defaults F.rests F.cuts start past flash whole next) }
    ensures ready { ((off : F.Off) → F.is_ready off) → IsOk result }
{
    let mut interrupted = Interrupted::new(flash, whole, copy_of(starts));
    let _work = work(keyboard, &mut interrupted);
    interrupted.end()
}

/// The same list once more.
fn copy_of(starts: &ArrayVec<u32, 64>) -> ArrayVec<u32, 64>
    ensures { result.items ≡ starts.now.items }
{
    let mut copy = ArrayVec::new();
    let _ = copy.try_extend_from_slice(starts.as_slice());
    copy
}
