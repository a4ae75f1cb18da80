//! That a flash can keep all clauses of `EccFlash`: one in memory, of which each operation is whole.
//!
//! It is healthy, so that the clauses on health are met by a flash that stores. No program calls it.

ghost use Rattle.std.specs.Prelude.{◌≡◌, ◌+◌, ◌*◌, ◌<◌, ◌≤◌, ℕ, Some, length};
ghost use Rattle.ecc_flash.specs.Reading.{blank};
ghost use Rattle.ecc_flash.specs.Model.{MayHold, MayBeErased, OneUnit, OnePageOfUnits};
ghost use Rattle.ecc_flash.specs.Witness.{unit_at};

use crate::reading::{BLANK, UNIT_BYTES};
use crate::{EccFlash, PAGE_UNITS};
use flash_model::FlashFault;

/// Pages of such a flash.
const PAGES: usize = 2;

/// A write unit: what it was last programmed with, and whether it is blank since.
#[derive(Clone, Copy, Debug)]
pub struct HeldUnit {
    meant: [u8; UNIT_BYTES],
    is_blank: bool,
}

impl HeldUnit {
    /// A unit that was never programmed.
    pub const NEVER: HeldUnit = HeldUnit {
        meant: BLANK,
        is_blank: true,
    };
}

/// Two pages of write units.
#[derive(Debug, Drop)]
pub struct WholeFlash {
    units: Vec<HeldUnit>,
    ghost two_pages: { length units.items ≡ 2048 },
}

impl WholeFlash {
    /// A flash of these units, of which there are 2,048.
    pub fn new(units: Vec<HeldUnit>) -> WholeFlash
        requires { length units.items ≡ 2048 }
        ensures { result.units ≡ units }
    {
        WholeFlash { units }
    }
}

impl EccFlash for WholeFlash {
    ghost units = { λ f. unit_at f.units.items };

    ghost page_total = { λ _. 2 };

    ghost takes = { λ _ _ _. Unit {0} };

    ghost is_healthy = { λ _. Unit {0} };

    ghost operates = { λ _ _ _. Unit {0} };

    fn pages(&self) -> usize {
        PAGES
    }

    #[tactic(auto, unfolding(crate::specs::Reading::blank))]
    fn read_unit(&self, page: usize, unit: usize) -> Option<[u8; UNIT_BYTES]> {
        let held = self.units[PAGE_UNITS * page + unit];
        if held.is_blank {
            Some(BLANK)
        } else {
            Some(held.meant)
        }
    }

    fn program_unit(
        &mut self,
        page: usize,
        unit: usize,
        bytes: [u8; UNIT_BYTES],
    ) -> Result<(), FlashFault> {
        self.units[PAGE_UNITS * page + unit] = HeldUnit {
            meant: bytes,
            is_blank: false,
        };
        Ok(())
    }

    fn erase_units(&mut self, page: usize) -> Result<(), FlashFault> {
        erase(&mut self.units, page);
        Ok(())
    }
}

/// Erases the units of a page.
fn erase(units: &mut [HeldUnit], page: usize)
    requires { 1024 * page + 1024 ≤ length units.old }
    ensures blank { (u : ℕ) → u < PAGE_UNITS → (unit_at units.new page u).reads ≡ Some blank }
    ensures outcome { (u : ℕ) → u < PAGE_UNITS → MayBeErased (unit_at units.old page u) (unit_at units.new page u) }
    ensures others { OnePageOfUnits (unit_at units.old) page (unit_at units.new) }
{
    for unit in 0..PAGE_UNITS {
        let at = PAGE_UNITS * page + unit;
        let held = units[at];
        let meant = held.meant;
        units[at] = HeldUnit {
            meant,
            is_blank: true,
        };
    }
}
