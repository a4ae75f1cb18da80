//! Two histories that break the guarantee, computed from the definitions: each with the fields that it breaks. A third one, in
//! which a command is stored among scans and polls. And ([`pad`]) default codes other than the standard ones, with which a
//! keyboard keeps the guarantee.
//!
//! The contracts are the examples, and no crate stands on them. The first history meets the premise of `KeepsAcknowledged`
//! and of `ConfirmsSettled`. Since every field follows from `answered`, each breaks that one too; of the others those that are
//! named hold still.
pub mod pad;

ghost use Rattle.std.specs.Prelude.{◌≢◌, ℕ, suc};
ghost use Rattle.world.specs.Histories.{blank, reported_but_not_stored, settled_and_lost};
ghost use Rattle.world.specs.Meanwhile.{Answers, asked, IsStored};
ghost use Rattle.world.specs.Pad.{blank_pages};
ghost use Rattle.keyboard.specs.Conforming.{IsConforming};
ghost use Rattle.keymap_store.specs.declared.store.Work.TheVariants.{Failed};
ghost use Rattle.layers.specs.Standard.{standard};
ghost use Rattle.world.specs.Acknowledged.{KeepsAcknowledged};
ghost use Rattle.world.specs.History.{EachStep, EachPoint};
ghost use Rattle.world.specs.Moments.{MovesOn};
ghost use Rattle.world.specs.Promise.{Promise};
ghost use Rattle.world.specs.Readings.{ReadsWanted, GathersServed};
ghost use Rattle.world.specs.Restart.{StartsLegally, ConfirmsSettled, ShowsSettled};

/// The host is told that a command is stored, and no flash work was made for it.
pub fn reported_without_being_stored()
    ensures acknowledged { KeepsAcknowledged standard blank reported_but_not_stored → ⊥ }
    ensures confirmed { ConfirmsSettled standard blank reported_but_not_stored → ⊥ }
    ensures broken { Promise standard blank reported_but_not_stored → ⊥ }
{}

/// A command is settled, and after a cut the flash has no record of it.
pub fn a_settled_command_is_lost()
    ensures restarts { EachStep (StartsLegally standard) blank settled_and_lost → ⊥ }
    ensures broken { Promise standard blank settled_and_lost → ⊥ }
    // nothing is looked at, read or gathered
    ensures looks { EachStep (ShowsSettled standard) blank settled_and_lost }
    ensures reads { EachStep (ReadsWanted standard) blank settled_and_lost }
    ensures moments { EachStep (MovesOn standard) blank settled_and_lost }
    ensures gathered { EachPoint GathersServed blank settled_and_lost }
{}

/// A keyboard on blank pages stores its first command by two steps of the flash work, while it scans and is polled. The host is
/// answered NAK before each of them, and the empty packet after the second one.
pub fn a_command_is_stored_meanwhile()
    ensures { (pages : ℕ) (answers : Answers) → answers.header ≢ Failed → answers.record_made ≢ Failed → IsConforming standard (blank_pages (suc pages)).image (asked answers) → IsStored answers }
{}
