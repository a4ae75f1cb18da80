//! Which page of the flash holds which page of the log.

ghost use Rattle.std.specs.Prelude.{◌≡◌, ◌+◌, ◌*◌, ◌<◌, ◌≤◌, ◌^◌, ℕ, length};
ghost use Rattle.steady_flash.specs.Layout.{held_at};

use crate::marks::Place;

/// The most pages of a log.
pub const MOST_PAGES: usize = 8;

/// The page that holds one of the log, by its greatest claim.
#[derive(Clone, Copy, Debug)]
pub struct Held {
    pub page: u8,
    pub index: u8,
    /// 0 where no page was found.
    pub number: u32,
    pub is_opened: bool,
}

/// Of no page a claim is found.
pub const NOWHERE: Held = Held {
    page: 0,
    index: 0,
    number: 0,
    is_opened: false,
};

/// The pages of the log, each on a page of the flash, of which there is one more.
#[derive(Clone, Copy, Debug)]
pub struct Layout {
    /// How many pages the log has.
    pub pages: usize,
    pub held: [Held; MOST_PAGES],
    /// The page of the flash that holds none.
    pub spare: usize,
}

/// A slot of the log whose program was given up.
#[derive(Clone, Copy, Debug, PartialEq, Eq)]
pub struct Doubt {
    pub page: usize,
    pub slot: usize,
}

impl Layout {
    /// Where a page of the flash lies.
    pub fn place(&self, at: usize) -> Place
        ensures pages { result.pages ≡ self.now.pages }
        ensures at { result.at ≡ at }
    {
        Place {
            pages: self.pages,
            at,
        }
    }
}
