//! Theorems of the definitions: what slots are, and what an operation that was cut short leaves of one.
//!
//! No code runs here. Each theorem is a clause about the definitions that the contracts of `encode`,
//! `classify` and `is_sound` cite.

ghost use Rattle.std.specs.Prelude.{◌≡◌, ◌≢◌, List, ℕ, ◌<◌, ◌^◌, ◌↔◌, replicate};
ghost use Rattle.records.specs.Slots.{encoded, slot_of, IsSlot, IsSound};
ghost use Rattle.records.specs.declared.Slot.{Slot};
ghost use Rattle.flash_model.specs.declared.TheConstants.{PAGE_SLOTS};
ghost use Rattle.flash_model.specs.Image.{slot_at, page_count, IsImage};
ghost use Rattle.flash_model.specs.Operations.{Programs, MayProgram, Erases, MayErase};
ghost use Rattle.flash_model.specs.Torn.{ProgramMayLeave, EraseMayLeave};

/// A slot is Free exactly where its eight bytes are FFh, and Good with a word exactly where they
/// are that word encoded. Free and Good slots are sound.
pub fn free_and_good()
    ensures free { (bytes : List ℕ) → IsSlot bytes → (slot_of bytes ≡ Slot.Free) ↔ (bytes ≡ replicate 8 255) }
    ensures good { (bytes : List ℕ) (word : ℕ) → IsSlot bytes → word < 2 ^ 32
        → (slot_of bytes ≡ Slot.Good word) ↔ (bytes ≡ encoded word) }
    ensures sound { (bytes : List ℕ) → IsSlot bytes → slot_of bytes ≢ Slot.Spoiled → IsSound bytes }
{}

/// A torn program of a Free slot with an encoded word leaves it sound, and Good with that word
/// alone; its bytes are then that word encoded.
pub fn torn_program()
    ensures good { (word : ℕ) (x y : List ℕ) (other : ℕ) → word < 2 ^ 32 → IsSlot x → IsSlot y → slot_of x ≡ Slot.Free
        → ProgramMayLeave x (encoded word) y → slot_of y ≡ Slot.Good other → other ≡ word }
    ensures sound { (word : ℕ) (x y : List ℕ) → word < 2 ^ 32 → IsSlot x → IsSlot y → slot_of x ≡ Slot.Free
        → ProgramMayLeave x (encoded word) y → IsSound y }
    ensures whole { (word : ℕ) (x y : List ℕ) (other : ℕ) → word < 2 ^ 32 → IsSlot x → IsSlot y → slot_of x ≡ Slot.Free
        → ProgramMayLeave x (encoded word) y → slot_of y ≡ Slot.Good other → y ≡ encoded word }
{}

/// A torn erase of a sound slot leaves it sound, and Good only where it is as it was.
pub fn torn_erase()
    ensures sound { (x y : List ℕ) → IsSlot x → IsSlot y → IsSound x → EraseMayLeave x y → IsSound y }
    ensures good { (x y : List ℕ) (word : ℕ) → IsSlot x → IsSlot y → IsSound x → EraseMayLeave x y
        → slot_of y ≡ Slot.Good word → y ≡ x }
{}

/// Reading back tells a whole operation from a torn one: a program of a Free slot with an encoded
/// word was whole exactly where the slot then reads Good with that word, and an erase exactly where
/// each slot of the page then reads Free.
pub fn read_back()
    ensures program { (old new : List ℕ) (page slot word : ℕ) → word < 2 ^ 32 → IsImage old → IsImage new → page < page_count old → slot < PAGE_SLOTS
        → slot_of (slot_at old page slot) ≡ Slot.Free → MayProgram old page slot (encoded word) new
        → (slot_of (slot_at new page slot) ≡ Slot.Good word) ↔ Programs old page slot (encoded word) new }
    ensures erase { (old new : List ℕ) (page : ℕ) → IsImage new → page < page_count old → MayErase old page new
        → ((s : ℕ) → s < PAGE_SLOTS → slot_of (slot_at new page s) ≡ Slot.Free) ↔ Erases old page new }
{}
