//! What the definitions of a store come to.

ghost use Rattle.std.specs.Prelude.{◌≡◌, ◌↔◌, ◌≤◌, ℕ, List, None, Some};
ghost use Rattle.flash_model.specs.Image.{IsImage};
ghost use Rattle.layers.specs.Codes.{DefaultCodes};
ghost use Rattle.page_turnover.specs.declared.operation.Operation.{Operation};
ghost use Rattle.page_turnover.specs.Next.{MayMake};
ghost use Rattle.keymap_store.specs.Value.{StoreValue};
ghost use Rattle.keymap_store.specs.Store.{working};
ghost use Rattle.keymap_store.specs.representation.Store.{Mirrors};
ghost use Rattle.keymap_store.specs.Next.{next_operation_of};
ghost use Rattle.keymap_store.specs.Cut.{CutLeaves};
ghost use Rattle.keymap_store.specs.Turnovers.{TurnsOver, Follows};

/// What the operation that a store makes next leaves of the flash, whole or torn: by a fault, or by
/// a cut of the power inside it, before anything is read back. The keymap is changed by the command
/// that works where its record is there as a whole, and else it is as before.
pub fn a_cut_inside()
    ensures next { (defaults : DefaultCodes) (image : List ℕ) (store : StoreValue) → Mirrors defaults image store → ((next_operation_of defaults image store ≡ None) ↔ (working store.job ≡ None)) }
    ensures leaves { (defaults : DefaultCodes) (old new : List ℕ) (store : StoreValue) (operation : Operation) → Mirrors defaults old store
        → next_operation_of defaults old store ≡ Some operation → IsImage new → MayMake old operation new → CutLeaves defaults old store operation new }
{}

/// Between two commits of a header, the first of which may have been a compaction from format 1, at least
/// 127 operations are appends of records, done or failed.
pub fn between_turnovers()
    ensures { (defaults : DefaultCodes) (first old new last : List ℕ) (n : ℕ) → TurnsOver defaults first old → Follows old n new → TurnsOver defaults new last → 127 ≤ n }
{}
