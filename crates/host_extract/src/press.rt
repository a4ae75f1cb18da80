//! The usages that are on.

ghost use Rattle.std.specs.Prelude.{◌≡◌, ◌≢◌, ℕ, pos, IfOk, OnErr, MatchBool, Contains, ◌↔◌};
ghost use Rattle.std.specs.List.Sorted.{IsStrictlyIncreasing};
ghost use Rattle.host_extract.specs.Pressed.{ArePressed, IsRead};

use crate::reading::Found;
use std::alloc::{AllocError, Global};

/// The usages with a value that is not 0, rising, each once.
///
/// The error says that a growth was refused; without such a usage no memory is taken.
pub fn pressed(alloc: Global, found: &[Found]) -> Result<Vec<u32>, AllocError>
    ensures pressed { IfOk result (λ usages. ArePressed found.now usages.items) }
    ensures refused { OnErr result ((usage : ℕ) × IsRead found.now usage) }
{
    let mut usages = Vec::new(alloc);
    for reading in found {
        if is_on(*reading) {
            usages.push(reading.usage)?;
        }
    }
    make_rising(&mut usages);
    Ok(usages)
}

/// Sorts numbers and drops repeats.
fn make_rising(usages: &mut Vec<u32>)
    ensures rising { IsStrictlyIncreasing usages.new.items }
    ensures members { (usage : ℕ) → Contains usages.new.items usage ↔ Contains usages.old.items usage }
{
    usages.sort_unstable();
    usages.dedup();
}

/// Whether a reading's value is not 0.
fn is_on(reading: Found) -> bool
    ensures { MatchBool result (reading.value ≢ pos 0) (reading.value ≡ pos 0) }
{
    reading.value < 0 || reading.value > 0
}
