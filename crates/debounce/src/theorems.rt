//! Theorems over the definitions.

ghost use Rattle.std.specs.Prelude.{◌≡◌, ◌<◌, false, ℕ, Bool, List};
ghost use Rattle.debounce.specs.Samples.{samples, down};
ghost use Rattle.debounce.specs.Windows.{IsWindow, IsNewestWindow};
ghost use Rattle.debounce.specs.declared.Scan.{Scan};

/// The value of a key is that of the newest window of five equal consecutive samples, and up where
/// there is no such window.
pub fn newest_window_decides()
    ensures newest { (scans : List Scan) (key start : ℕ) (value : Bool)
        → IsNewestWindow (samples scans key) start value → down scans key ≡ value }
    ensures none { (scans : List Scan) (key : ℕ)
        → ((start : ℕ) (value : Bool) → IsWindow (samples scans key) start value → ⊥) → down scans key ≡ false }
{}
