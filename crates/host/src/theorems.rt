//! Theorems on the definitions.

ghost use Rattle.std.specs.Prelude.{◌≡◌, ℕ, List, true, ◌↔◌};
ghost use Rattle.descriptor_parse.specs.Faults.{IsFaultless};
ghost use Rattle.host.specs.Faultless.{is_faultless};

/// The test for a fault decides whether a text has one.
pub fn faultless_is_decided()
    ensures { (text : List ℕ) → is_faultless text ≡ true ↔ IsFaultless text }
{}
