//! The values alive on a page, and their move to the spare.

ghost use Rattle.std.specs.Prelude.{◌≡◌, ◌+◌, ◌<◌, ◌≤◌, ◌^◌, IfSome, IfOk, length};
ghost use Rattle.flash_model.specs.Image.{page_count};

use crate::operation::{clear, head_in, put, word_in};
use crate::ring::{counting, newest, page_of};
use crate::scan::{Entry, Place, find_since, unknown};
use crate::store::SettingsError;
use crate::words::{Head, LAST_NUMBER, data_words, head_word, header};
use flash_model::{NorFlash, PAGE_SLOTS};

/// How many values are looked at together: each pass over the pages serves so many.
pub const BATCH: usize = 16;

/// Some of the values that begin on a page.
#[derive(Clone, Copy, Debug)]
pub struct Batch {
    page: usize,
    /// The slots of their heads; 0 where there is no value.
    heads: [u16; BATCH],
    entries: [Entry; BATCH],
    /// The slot from which on the page may have more, at most 512.
    next: usize,
}

impl Batch {
    /// The id of a value, from 0 to 15, if it is alive: no later change of its id is in force.
    pub fn id(&self, at: usize) -> Option<u16> {
        if at < BATCH && self.is_alive(at) {
            Some(self.entries[at].id)
        } else {
            None
        }
    }

    /// The slot from which on the page may have more values, and 512 where it has none.
    pub fn next(&self) -> usize {
        self.next
    }

    /// Whether a value is alive.
    fn is_alive(&self, at: usize) -> bool
        requires { at < 16 }
    {
        let head = self.heads[at];
        match self.entries[at].found {
            Some(place) => head > 0 && place.slot == head && place.page as usize == self.page,
            None => false,
        }
    }
}

/// The next values on the page so many before the newest, of those whose heads stand in its slots from one on.
pub fn alive_from<F: NorFlash>(flash: &F, newest: u32, back: usize, from: usize) -> Batch
    ensures on_a_page { result.page < page_count (F.image flash.now) }
    ensures further { from < 512 → from < result.next }
    ensures in_page { result.next ≤ 512 }
{
    let _pages = flash.pages();
    match counting(flash, newest, back) {
        Some(page) => {
            let mut batch = heads_from(flash, page, from);
            if back < 8 {
                find_since(flash, newest, back, &mut batch.entries);
            }
            batch
        }
        None => no_values(0),
    }
}

/// No values, and no more.
fn no_values(page: usize) -> Batch
    ensures page { result.page ≡ page }
    ensures next { result.next ≡ 512 }
{
    Batch {
        page,
        heads: [0; BATCH],
        entries: [unknown(0); BATCH],
        next: PAGE_SLOTS,
    }
}

/// The values whose heads stand in the slots of a page from one on, of which nothing is known.
fn heads_from<F: NorFlash>(flash: &F, page: usize, from: usize) -> Batch
    requires { page < page_count (F.image flash.now) }
    ensures page { result.page ≡ page }
    ensures further { from < 512 → from < result.next }
    ensures in_page { result.next ≤ 512 }
{
    let mut batch = no_values(page);
    let mut count = 0;
    for slot in from..PAGE_SLOTS {
        if let Some(head) = head_in(flash, page, slot) {
            if count >= BATCH {
                batch.next = slot;
                return batch;
            }
            if !head.removal {
                batch.heads[count] = slot as u16;
                batch.entries[count] = unknown(head.id);
                count += 1;
            }
        }
    }
    batch
}

/// How many words the values take that are alive on the page so many before the newest.
pub fn words_alive<F: NorFlash>(flash: &F, newest: u32, back: usize) -> usize
    ensures { result ≤ 2 ^ 22 }
{
    let mut words = 0;
    let mut from = 1;
    while from < PAGE_SLOTS {
        let batch = alive_from(flash, newest, back, from);
        words += words_in(flash, &batch);
        from = batch.next;
    }
    words
}

/// How many words the values alive of a batch take.
fn words_in<F: NorFlash>(flash: &F, batch: &Batch) -> usize
    requires { batch.now.page < page_count (F.image flash.now) }
    ensures { result ≤ 5488 }
{
    let mut words = 0;
    for at in 0..BATCH {
        if batch.is_alive(at) {
            if let Some(head) = head_in(flash, batch.page, batch.heads[at] as usize) {
                words += 1 + data_words(head.len) as usize;
            }
        }
    }
    words
}

/// Makes the spare the newest page, with the values that are alive on the oldest page that counts.
///
/// `Worn` where the newest page has the greatest number, and then no operation was made. `Fault` where the flash failed, and
/// `Damaged` where the words of a value can't be read again: then the pages count as before.
pub fn advance<F: NorFlash>(flash: &mut F) -> Result<(), SettingsError>
    ensures same_pages { page_count (F.image flash.new) ≡ page_count (F.image flash.old) }
{
    let newest = newest(flash);
    let number = match newest {
        Some(newest) => {
            if newest == LAST_NUMBER {
                return Err(SettingsError::Worn);
            }
            newest + 1
        }
        None => 0,
    };
    let spare = page_of(flash, number);
    clear(flash, spare)?;
    if let Some(newest) = newest {
        copy_oldest(flash, newest, spare)?;
    }
    put(flash, spare, 0, header(number))?;
    Ok(())
}

/// Copies the values alive on the oldest page that counts.
fn copy_oldest<F: NorFlash>(flash: &mut F, newest: u32, spare: usize) -> Result<(), SettingsError>
    requires { spare < page_count (F.image flash.old) }
    ensures same_pages { page_count (F.image flash.new) ≡ page_count (F.image flash.old) }
{
    let oldest = flash.pages() - 2;
    let mut to = 1;
    let mut from = 1;
    while from < PAGE_SLOTS {
        let batch = alive_from(flash, newest, oldest, from);
        to = copy_batch(flash, &batch, spare, to)?;
        from = batch.next;
    }
    Ok(())
}

/// Copies the values alive of a batch to the slots of a page from one on, and says which slot is next.
fn copy_batch<F: NorFlash>(
    flash: &mut F,
    batch: &Batch,
    spare: usize,
    to: usize,
) -> Result<usize, SettingsError>
    requires batch { batch.now.page < page_count (F.image flash.old) }
    requires spare { spare < page_count (F.image flash.old) }
    ensures same_pages { page_count (F.image flash.new) ≡ page_count (F.image flash.old) }
{
    let mut to = to;
    for at in 0..BATCH {
        if batch.is_alive(at) {
            to = copy_value(flash, batch.page, batch.heads[at] as usize, spare, to)?;
        }
    }
    Ok(to)
}

/// Copies a value, as a change of its own.
fn copy_value<F: NorFlash>(
    flash: &mut F,
    page: usize,
    head: usize,
    spare: usize,
    to: usize,
) -> Result<usize, SettingsError>
    requires page { page < page_count (F.image flash.old) }
    requires spare { spare < page_count (F.image flash.old) }
    requires head { head < 2 ^ 16 }
    ensures same_pages { page_count (F.image flash.new) ≡ page_count (F.image flash.old) }
{
    let Some(first) = head_in(flash, page, head) else {
        return Err(SettingsError::Damaged);
    };
    let mut to = put(flash, spare, to, head_word(alone(first)))?;
    for at in 0..data_words(first.len) {
        match word_in(flash, page, head + 1 + at as usize) {
            Some(word) => to = put(flash, spare, to, word)?,
            None => return Err(SettingsError::Damaged),
        }
    }
    Ok(to)
}

/// The head of a change that is in force by itself.
fn alone(head: Head) -> Head
    ensures { result.len ≡ head.len }
{
    Head {
        id: head.id,
        len: head.len,
        removal: head.removal,
        first: true,
        last: true,
    }
}
