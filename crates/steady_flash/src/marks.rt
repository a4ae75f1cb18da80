//! The marks of a page, and their words.

ghost use Rattle.std.specs.Prelude.{◌≡◌, ◌+◌, ◌*◌, ◌<◌, ◌≤◌, ◌^◌, ℕ, IfSome, IsSome};
ghost use Rattle.steady_flash.specs.Marked.{IsMarkWord};
ghost use Rattle.steady_flash.specs.Claims.{IsClaim, word_of};

use flash_model::SLOT_BYTES;

/// A unit or a slot in which each cell is set.
pub const BLANK: [u8; SLOT_BYTES] = [0xFF; SLOT_BYTES];

/// What `open` and `about` are programmed with: that they are not blank is what counts.
pub const ZEROS: [u8; SLOT_BYTES] = [0; SLOT_BYTES];

/// The bits of a mark's word, from the lowest on: the number, the place of its page in the flash, the number of the log's pages less
/// one, and the virtual page. The highest bit is clear.
const PLACE_AT: u32 = 21;

const PAGES_AT: u32 = 25;

const PAGE_AT: u32 = 28;

/// The greatest number of a claim.
pub const LAST_NUMBER: u32 = (1 << PLACE_AT) - 1;

/// The mark of a page in which slots were programmed.
pub const OPEN: usize = 0;

/// The mark that claims a page for a virtual one.
pub fn claim(index: u16) -> usize
    ensures { result ≡ 1 + 3 * index }
{
    1 + 3 * index as usize
}

/// The mark behind a whole claim.
pub fn done(index: u16) -> usize
    ensures { result ≡ 2 + 3 * index }
{
    2 + 3 * index as usize
}

/// The mark before any greater claim of the same virtual page.
pub fn about(index: u16) -> usize
    ensures { result ≡ 3 + 3 * index }
{
    3 + 3 * index as usize
}

/// Where a mark stands: how many pages the log has, and which page of the flash the mark belongs to.
#[derive(Clone, Copy, Debug, PartialEq, Eq)]
pub struct Place {
    pub pages: usize,
    pub at: usize,
}

/// What a mark's word says: where the mark stands, the virtual page, and the number.
#[derive(Clone, Copy, Debug)]
pub struct Word {
    pub place: Place,
    pub page: usize,
    pub number: u32,
}

/// The bytes of a claim, whose number is 1 or more.
pub fn claim_bytes(place: Place, page: usize, number: u32) -> [u8; SLOT_BYTES]
    requires pages { (1 ≤ place.pages) × (place.pages ≤ 8) }
    requires at { place.at ≤ 8 }
    requires page { page < 8 }
    requires number { number < 2 ^ 21 }
    ensures { IsClaim place.pages place.at page number result }
{
    let pages = (place.pages - 1) as u32;
    let at = place.at as u32;
    mark_bytes(((page as u32) << PAGE_AT) + (pages << PAGES_AT) + (at << PLACE_AT) + number)
}

/// The word of a mark, of whatever geometry, if these bytes are one.
pub fn read_word(bytes: [u8; SLOT_BYTES]) -> Option<Word>
    ensures number { IfSome result (λ word. word.number < 2 ^ 21) }
    // no other bytes are a word
    ensures claims { IfSome result (λ word. IsClaim word.place.pages word.place.at word.page word.number bytes) }
    ensures found { (pages at page number : ℕ) → 2 ≤ pages → pages ≤ 8 → at ≤ pages → number < 2 ^ 21 → IsClaim pages at page number bytes → IfSome result (λ word. (word.page ≡ page) × (word.number ≡ number)) × IsSome result }
{
    let [a, b, c, d, _, _, _, _] = bytes;
    let word = u32::from_le_bytes([a, b, c, d]);
    let place = Place {
        pages: ((word >> PAGES_AT & 7) + 1) as usize,
        at: (word >> PLACE_AT & 15) as usize,
    };
    if mark_bytes(word) == bytes && place.pages > 1 && place.at <= place.pages {
        Some(Word {
            place,
            page: (word >> PAGE_AT) as usize,
            number: word & LAST_NUMBER,
        })
    } else {
        None
    }
}

/// What `done` is programmed with: no claim has this number.
pub fn done_bytes(place: Place) -> [u8; SLOT_BYTES]
    requires pages { (1 ≤ place.pages) × (place.pages ≤ 8) }
    requires at { place.at ≤ 8 }
    ensures { IsClaim place.pages place.at 0 0 result }
{
    claim_bytes(place, 0, 0)
}

/// A word beside its complement, which is turned by a bit: so no word of a log is a mark. Each has as many clear bits as each other
/// one, so that no torn program of one reads as another.
fn mark_bytes(word: u32) -> [u8; SLOT_BYTES]
    ensures marked { IsMarkWord result }
    ensures word { word_of result ≡ word }
{
    let [a, b, c, d] = word.to_le_bytes();
    let [e, f, g, h] = (!word).rotate_left(1).to_le_bytes();
    [a, b, c, d, e, f, g, h]
}
