//! The flash operations of a log, of which contracts speak.

/// A flash operation.
#[derive(Clone, Copy)]
pub enum Operation {
    /// Into a page's slot a word is programmed.
    Program(u8, u16, u32),
    /// A page is erased.
    Erase(u8),
}
