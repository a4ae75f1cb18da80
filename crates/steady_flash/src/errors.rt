//! Why a steady flash is not mounted.

/// Why a [`SteadyFlash`](crate::SteadyFlash) is not mounted.
#[derive(Clone, Copy, Debug, PartialEq, Eq)]
pub enum MountError {
    /// A log has 2 to 8 pages, so this flash has 3 to 9. Nothing was read or written.
    PageCount,
    /// A page has 8 to 80 triples of marks. Nothing was read or written.
    Triples,
    /// Not every page is found, and none was ever finished: nothing was formatted here, or a format or a taking over was cut. Nothing
    /// was written.
    Unformatted,
    /// Not every page is found, though some was finished: something else has written here, or the flash has broken a premise. Nothing
    /// was written.
    Damaged,
    /// Marks of another geometry stand here: of another number of pages, or of pages at another place. Nothing was written.
    OtherGeometry,
    /// A page has no marks left: the power was lost inside too many starts in a row.
    OutOfMarks,
    /// A page has come to its last number, 2,097,151; or, in [`format`](crate::SteadyFlash::format), beyond 2,096,127: then each
    /// program and erase of it fails, and the flash reads on. Nothing was written.
    Worn,
    /// The flash has failed 8 times in a row.
    Fault,
    /// A read failed, so pages may be missing. Nothing was written.
    Unreadable,
}

/// A flash that is not mounted, and why.
#[derive(Drop)]
pub struct Unmounted<F: Drop> {
    /// The flash as it is.
    pub flash: F,
    /// Why.
    pub why: MountError,
}
