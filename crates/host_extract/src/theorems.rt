//! Theorems on the definitions.

ghost use Rattle.std.specs.Prelude.{◌≡◌, ℕ, List};
ghost use Rattle.host_extract.specs.Pressed.{ArePressed};
ghost use Rattle.host_extract.specs.declared.reading.Found.{Found};

/// What is pressed is one list.
pub fn one_list_is_pressed()
    ensures { (readings : List Found) (a b : List ℕ) → ArePressed readings a → ArePressed readings b → a ≡ b }
{}
