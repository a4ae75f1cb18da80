//! What the definitions of a log come to.

ghost use Rattle.std.specs.Prelude.{◌≡◌, ◌↔◌, ℕ, List, Some, None};
ghost use Rattle.flash_model.specs.Image.{IsImage};
ghost use Rattle.page_turnover.specs.Active.{IsActive, NoneActive, HasFormat, active, format};
ghost use Rattle.page_turnover.specs.declared.operation.Operation.{Operation};
ghost use Rattle.page_turnover.specs.Value.{LogValue};
ghost use Rattle.page_turnover.specs.representation.Log.{Describes};
ghost use Rattle.page_turnover.specs.Next.{next_operation, MayMake};
ghost use Rattle.page_turnover.specs.Leaves.{Leaves};

/// The active page of an image is the one with the greatest sequence number, of either format, the
/// lowest page among equals; and there is none exactly where no page has a header. The format of an
/// image is that of the active page's header.
pub fn active_page_is_newest()
    ensures some { (image : List ℕ) (page seq : ℕ) → (active image ≡ Some (page, seq)) ↔ IsActive image page seq }
    ensures none { (image : List ℕ) → (active image ≡ None) ↔ NoneActive image }
    ensures format { (image : List ℕ) (number : ℕ) → (format image ≡ Some number) ↔ HasFormat image number }
{}

/// What the operation that a log's next step makes leaves of the flash, whole or torn: by a fault,
/// or by a cut of the power inside it, before anything could be read back. A record, a header and an
/// erased page are there as a whole, or the words, their format and the active page are as before;
/// and no slot 0 is made unsound.
pub fn an_operation_leaves()
    ensures { (old new : List ℕ) (log : LogValue) (operation : Operation) → Describes old log
        → next_operation old log ≡ Some operation → IsImage new → MayMake old operation new → Leaves old log operation new }
{}
