//! Settings over all pages of a NOR flash: a map from ids of 16 bits to values of 0 to 1,024 bytes.
//!
//! Slot 0 of a page holds its number, and the place of a page among the N of the flash is its number modulo N. The greatest number
//! is the newest page's. It counts, with the N - 2 before it; the page behind it is the spare, and never counts. No page that
//! counts is erased. A change is written to the newest page as words that follow each other without a gap, and is in force with its last
//! word. Of each id the last change in force counts. A slot that holds no word of a change ends one, and joins none.
//!
//! Where the newest page has no room, the values alive on the oldest page are copied to the spare, and its header is written
//! last: then the oldest page is the spare. No older page stands then, so that a removal on the oldest page is not copied.
//!
//! Nothing is kept in RAM. Each call reads what it needs from the flash, makes all of its operations, and comes back.
#![tactic(auto)]

mod change;
mod moving;
mod operation;
mod ring;
mod scan;
mod store;
mod words;

pub use change::Change;
pub use moving::{BATCH, Batch, alive_from};
pub use ring::newest;
pub use store::{SettingsError, get, length, remove, room_left, set, transaction};
pub use words::MAX_BYTES;
