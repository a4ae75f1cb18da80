//! Theorems of the definitions: what a start reads behind an operation that was torn.
//!
//! No code runs here. Each theorem is a clause about the definitions that the contracts cite.

ghost use Rattle.std.specs.Prelude.{◌≡◌, ◌<◌, ℕ};
ghost use Rattle.shapes.specs.Shapes.{Bytes};
ghost use Rattle.flash_model.specs.Operations.{MayProgram, MayErase};
ghost use Rattle.flash_model.specs.declared.TheConstants.{PAGE_SLOTS};
ghost use Rattle.steady_flash.specs.Cells.{IsEight, Written, IsReading, MayBeProgrammed, blank};
ghost use Rattle.steady_flash.specs.Marked.{Size, OnePlace};
ghost use Rattle.steady_flash.specs.Layout.{held_at, IsLaidOut};
ghost use Rattle.steady_flash.specs.Shown.{shown, image_of, IsSettled, IsReadImage};
ghost use Rattle.steady_flash.specs.Sound.{Standing, IsSound, IsCalm, IsTold, MayShow, Shrinks, IsStarted, steady_at, IsCut, IsOpen};
ghost use Rattle.steady_flash.specs.Claims.{IsOpenTold, IsClaimed};
ghost use Rattle.steady_flash.specs.Told.{IsFoundTold};
ghost use Rattle.steady_flash.specs.declared.layout.Layout.{Layout};

/// What the cells read as behind a program of a blank slot that was torn, whatever its cells in doubt read as, is a torn program.
pub fn a_torn_program_reads_as_torn()
    ensures { (size : Size) (old new : ℕ → ℕ → Written) (layout : Layout) (page slot : ℕ) (bytes image : Bytes) → IsLaidOut size layout → IsSettled old layout → page < layout.pages → slot < PAGE_SLOTS → IsEight bytes → shown old layout page slot ≡ blank
        → OnePlace old (held_at layout.held page).page slot new → MayBeProgrammed (old (held_at layout.held page).page slot) bytes (new (held_at layout.held page).page slot)
        → IsReadImage new layout image → MayProgram (image_of old layout) page slot bytes image }
{}

/// Behind such a program each page says whether it may have a cell in doubt, if the mark of the page that was written to does not read
/// as blank.
pub fn a_torn_program_is_told()
    ensures { (size : Size) (marks old new : ℕ → ℕ → Written) (layout : Layout) (page slot : ℕ) → IsLaidOut size layout → IsSettled old layout → page < layout.pages
        → OnePlace old (held_at layout.held page).page slot new → (IsReading (marks (held_at layout.held page).page 0).cells blank → ⊥)
        → (p : ℕ) → p < layout.pages → IsOpenTold marks new (held_at layout.held p).page }
{}

/// With no cell in doubt there is one image to read.
pub fn a_settled_flash_reads_as_shown()
    ensures { (slots : ℕ → ℕ → Written) (layout : Layout) (image : Bytes) → IsSettled slots layout → IsReadImage slots layout image → image ≡ image_of slots layout }
{}

/// So it may behind power losses.
pub fn a_sound_flash_may_be_mounted()
    ensures { (size : Size) (marks slots : ℕ → ℕ → Written) (standing : Standing) → IsSound size marks standing → IsTold marks slots standing → IsFoundTold size marks slots standing.layout.pages }
{}

/// Where claims count, and each page says whether it may have a cell in doubt, a flash may be mounted.
pub fn a_claimed_flash_may_be_mounted()
    ensures { (size : Size) (marks slots : ℕ → ℕ → Written) (before : Layout) → IsClaimed size marks before → ((p : ℕ) → p < before.pages → IsOpenTold marks slots (held_at before.held p).page) → IsFoundTold size marks slots before.pages }
{}

/// There is a flash on which claims count, so that what is said of starts speaks of some.
pub fn some_flash_is_claimed()
    ensures { (layout : Layout) × (marks : ℕ → ℕ → Written) × IsClaimed (record { pages = 3; triples = 8 }) marks layout }
{}

/// A start that was cut behind another one leaves what one start that was cut may leave.
pub fn cut_starts_are_as_one()
    ensures { (size : Size) (first second third : Standing) (marks slots marks' slots' marks'' slots'' : ℕ → ℕ → Written)
        → Shrinks size first marks slots second marks' slots' → Shrinks size second marks' slots' third marks'' slots'' → Shrinks size first marks slots third marks'' slots'' }
{}

/// A start that is completed behind any that were cut has no cell in doubt, and shows what the cells may have shown before these.
pub fn a_start_behind_cut_ones_shows_what_was_there()
    ensures { (size : Size) (before between : Standing) (marks slots marks' slots' marks'' slots'' : ℕ → ℕ → Written) (layout : Layout)
        → Shrinks size before marks slots between marks' slots' → IsStarted size between marks' slots' layout marks'' slots'' → IsTold marks slots before
        → IsSettled slots'' layout × MayShow slots before (shown slots'' layout) }
{}

/// Between the operations of a session each page has one image to show.
pub fn a_calm_flash_shows_one_image()
    ensures { (slots : ℕ → ℕ → Written) (layout : Layout) (read : ℕ → ℕ → Bytes) (p s : ℕ) → IsSettled slots layout → MayShow slots (steady_at layout) read → p < layout.pages → s < PAGE_SLOTS → read p s ≡ shown slots layout p s }
{}

/// There is a flash of which this is true.
pub fn some_flash_is_calm()
    ensures { (layout : Layout) × (marks : ℕ → ℕ → Written) × IsCalm (record { pages = 3; triples = 8 }) marks layout }
{}

/// A start that is completed behind a session, and behind any that were cut, shows the image that the session had.
pub fn a_start_behind_a_session_shows_its_image()
    ensures { (size : Size) (marks slots marks' slots' marks'' slots'' : ℕ → ℕ → Written) (session layout : Layout) (between : Standing) → IsSettled slots session
        → Shrinks size (steady_at session) marks slots between marks' slots' → IsStarted size between marks' slots' layout marks'' slots''
        → IsSettled slots'' layout × (image_of slots'' layout ≡ image_of slots session) }
{}

/// What a start shows that is completed behind an erase that was cut, and behind any starts that were: one image, as a torn erase
/// leaves it.
pub fn a_start_behind_a_cut_erase_shows_it_torn()
    ensures { (size : Size) (marks slots marks' slots' marks'' slots'' : ℕ → ℕ → Written) (pages page : ℕ) (old : Bytes) (between : Standing) (layout : Layout) (cut : IsCut size marks slots pages (Unit {0}) (MayErase old page))
        → Shrinks size cut.standing marks slots between marks' slots' → IsStarted size between marks' slots' layout marks'' slots''
        → IsSettled slots'' layout × MayErase old page (image_of slots'' layout) }
{}

/// And behind a program, where the mark of the page reads as programmed.
pub fn a_start_behind_a_cut_program_shows_it_torn()
    ensures { (size : Size) (marks slots marks' slots' marks'' slots'' : ℕ → ℕ → Written) (pages page slot at : ℕ) (bytes old : Bytes) (between : Standing) (layout : Layout) (cut : IsCut size marks slots pages (IsOpen marks at) (MayProgram old page slot bytes))
        → Shrinks size cut.standing marks slots between marks' slots' → IsStarted size between marks' slots' layout marks'' slots'' → IsOpen marks at
        → IsSettled slots'' layout × MayProgram old page slot bytes (image_of slots'' layout) }
{}
