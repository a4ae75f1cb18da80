//! The flash that a run starts on.

ghost use Rattle.std.specs.Prelude.{◌≡◌, ◌+◌, ◌<◌, ◌≤◌, ◌↔◌, ◌⊎◌, ℕ, List, length, IfOk, IfErr, IfSome, OnOk};
ghost use Rattle.std.specs.Io.KnownBytes.{Consumes};
ghost use Rattle.flash_model.specs.Image.{IsImage};
ghost use Rattle.kbsim.specs.Outputs.{blank, holding};
ghost use Rattle.kbsim.specs.Readers.{largest, IsImageFault};

use crate::RunError;
use flash_model::{FlashError, PAGE_BYTES, SimFlash};
use std::alloc::Global;
use std::io::Read;
use text_io::{ReadError, read_whole};

/// The length of the largest image in bytes.
const LARGEST: usize = 8 * PAGE_BYTES;

/// Makes a blank flash of this many pages of 4,096 bytes: every bit is set, and nothing is armed.
///
/// `PageCount` comes where there are not 2 to 8 pages, and else `Memory` where there is no memory
/// for them.
pub fn blank_flash(alloc: Global, pages: usize) -> Result<SimFlash, RunError>
    ensures blank { IfOk result (λ flash. flash ≡ blank pages) }
    ensures page_count { (result ≡ Err RunError.PageCount) ↔ ((pages < 2) ⊎ (8 < pages)) }
    ensures memory { IfErr result (λ e. (e ≡ RunError.PageCount) ⊎ (e ≡ RunError.Memory)) }
{
    match SimFlash::new(alloc, pages) {
        Ok(flash) => Ok(flash),
        Err(FlashError::PageCount) => Err(RunError::PageCount),
        Err(FlashError::Memory | FlashError::ImageSize) => Err(RunError::Memory),
    }
}

/// Makes a flash that holds the bytes that a reader gives, page after page, with nothing armed. At
/// most 32,769 bytes are taken from the reader.
///
/// `Input` comes at the first fault of the reader, an interruption too, and `Memory` where a
/// request for memory is refused. Then comes `Image` where the bytes are not those of 2 to 8 whole
/// pages of 4,096 bytes.
pub fn image_flash<R: Read>(alloc: Global, reader: &mut R) -> Result<SimFlash, RunError>
    ensures holds { IfOk result (λ flash. IfSome (R.remaining reader.old) (λ image. flash ≡ holding image)) }
    ensures whole { OnOk result (IfSome (R.remaining reader.old) IsImage) }
    ensures refused { IfErr result (λ e. IsImageFault (R.remaining reader.old) e) }
    ensures few { (taken : List ℕ) × Consumes (R.remaining reader.old) (R.remaining reader.new) taken × (length taken ≤ largest + 1) }
{
    match read_whole(alloc, reader, LARGEST) {
        Ok(image) => SimFlash::from_image(image).map_err(|_| RunError::Image),
        Err(ReadError::TooLong) => Err(RunError::Image),
        Err(ReadError::Input) => Err(RunError::Input),
        Err(ReadError::Memory) => Err(RunError::Memory),
    }
}
