//! Reading the keys that a scan names.

ghost use Rattle.std.specs.Prelude.{◌≡◌, MatchResult};
ghost use Rattle.script.specs.Keys.{WritesScan};
ghost use Rattle.script.specs.Statements.{FirstBad, key_kinds};
ghost use Rattle.script.specs.Words.{words};

use crate::LineFault;
use crate::number::number;
use crate::words::Words;
use debounce::Scan;

/// The scan of the keys that these words name, each a number of 0 to 95; `BadNumber` where one is
/// no such number. A key that is named twice is one key.
pub(crate) fn keys(rest: Words<'_>) -> Result<Scan, LineFault>
    ensures { MatchResult result
        (λ scan. WritesScan (words rest.entry.rest.now) scan)
        (λ f. (f ≡ LineFault.BadNumber)
        × FirstBad (key_kinds (words rest.entry.rest.now)) (words rest.entry.rest.now) LineFault.BadNumber) }
{
    let mut scan = Scan::NONE;
    for word in rest {
        scan = scan.with(number(word, 96)? as u8, true);
    }
    Ok(scan)
}
