//! Theorems of the definitions: that two torn units give no other word, and that a flash of cells under
//! a code that corrects one of them does what `EccFlash` asks for.
//!
//! No code runs here. Each theorem is a clause about the definitions that the contracts cite.

ghost use Rattle.std.specs.Prelude.{◌≡◌, ℕ, List, Option, Some};
ghost use Rattle.ecc_flash.specs.Reading.{blank};
ghost use Rattle.ecc_flash.specs.Units.{IsEight, IsPair, IsCheckOf, Lacks};
ghost use Rattle.ecc_flash.specs.Model.{WriteUnit, IsProgrammed, MayBeErased};
ghost use Rattle.ecc_flash.specs.Cells.{IsCode, HasCells, ReadsCells, ProgramsCells, ErasesCells, code_word};
ghost use Rattle.ecc_flash.specs.Witness.{twice};

/// Where both units of a slot have each bit that they were meant to have set, but for one at most,
/// and read as a word and its check, it is the word that was meant.
pub fn no_other_word()
    ensures { (word check read read_check : List ℕ) → IsPair word → IsPair check → IsCheckOf word check → IsPair read → IsPair read_check → IsCheckOf read read_check
        → Lacks word read → Lacks check read_check → read ≡ word }
{}

/// There is such a code, so that the theorems on cells speak of some flash: each byte three times over.
pub fn a_code_corrects_one()
    ensures { IsCode 16 twice }
{}

/// Cells read as one thing only, and the cells of a code word as its bytes.
pub fn cells_read_as_one()
    ensures one { (size : ℕ) (check : List ℕ → List ℕ) (cells : List ℕ) (read again : Option (List ℕ)) → IsCode size check → ReadsCells check cells read → ReadsCells check cells again → read ≡ again }
    ensures word { (size : ℕ) (check : List ℕ → List ℕ) (bytes : List ℕ) (read : Option (List ℕ)) → IsCode size check → IsEight bytes → ReadsCells check (code_word check bytes) read → read ≡ Some bytes }
{}

/// A program, whole or torn, of a unit whose cells are all set is one that `EccFlash` asks for.
pub fn cells_are_programmed()
    ensures programmed { (size : ℕ) (check : List ℕ → List ℕ) (bytes cells : List ℕ) (new : WriteUnit) → IsCode size check → IsEight bytes → ProgramsCells check bytes cells → new.meant ≡ bytes → ReadsCells check cells new.reads → IsProgrammed bytes new }
    ensures cells { (size : ℕ) (check : List ℕ → List ℕ) (bytes cells : List ℕ) (new : WriteUnit) → IsCode size check → IsEight bytes → ProgramsCells check bytes cells → new.meant ≡ bytes → ReadsCells check cells new.reads → HasCells check new cells }
{}

/// So is an erase, whole or torn: cells that are only set move away from what was meant, so that what
/// did not read as meant does not come to do so, and what was blank stays blank.
pub fn cells_are_erased()
    ensures erased { (size : ℕ) (check : List ℕ → List ℕ) (old new : WriteUnit) (before after : List ℕ) → IsCode size check → HasCells check old before → ErasesCells before after → new.meant ≡ old.meant → ReadsCells check after new.reads → MayBeErased old new }
    ensures cells { (size : ℕ) (check : List ℕ → List ℕ) (old new : WriteUnit) (before after : List ℕ) → IsCode size check → HasCells check old before → ErasesCells before after → new.meant ≡ old.meant → ReadsCells check after new.reads → HasCells check new after }
{}
