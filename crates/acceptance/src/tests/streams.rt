//! Readers and writers that fail.

use arrayvec::ArrayVec;
use std::io;
use std::io::{ErrorKind, Read, Write};

/// Gives a text in pieces of at most five bytes, and fails at one of its reads.
#[derive(Drop)]
pub(super) struct FailingReader<'a> {
    pub(super) text: &'a [u8],
    pub(super) reads_left: usize,
    pub(super) kind: ErrorKind,
}

impl Read for FailingReader<'_> {
    fn read(&mut self, buf: &mut [u8]) -> io::Result<usize> {
        if self.reads_left == 0 {
            return Err(io::Error::from(self.kind));
        }
        self.reads_left -= 1;
        let count = self.text.len().min(buf.len()).min(5);
        let (front, rest) = self.text.split_at(count);
        buf[..count].copy_from_slice(front);
        self.text = rest;
        Ok(count)
    }
}

/// What a writer does at one of its writes.
#[derive(Clone, Copy)]
pub(super) enum Then {
    Fails(ErrorKind),
    TakesNoByte,
}

pub(super) const KINDS: [Then; 3] = [
    Then::Fails(ErrorKind::Other),
    Then::Fails(ErrorKind::Interrupted),
    Then::TakesNoByte,
];

/// Takes pieces of at most three bytes, but at one of its writes none. After that it takes bytes again.
#[derive(Drop)]
pub(super) struct FailingWriter {
    taken: ArrayVec<u8, 512>,
    writes_left: usize,
    then: Then,
    failed: bool,
}

impl FailingWriter {
    pub(super) fn new(writes_left: usize, then: Then) -> FailingWriter {
        FailingWriter {
            taken: ArrayVec::new(),
            writes_left,
            then,
            failed: false,
        }
    }

    /// What it took.
    pub(super) fn taken(&self) -> &[u8] {
        self.taken.as_slice()
    }
}

impl Write for FailingWriter {
    fn write(&mut self, buf: &[u8]) -> io::Result<usize> {
        if self.writes_left == 0 && !self.failed {
            self.failed = true;
            return match self.then {
                Then::Fails(kind) => Err(io::Error::from(kind)),
                Then::TakesNoByte => Ok(0),
            };
        }
        self.writes_left = self.writes_left.saturating_sub(1);
        let count = buf.len().min(self.taken.remaining_capacity()).min(3);
        let _ = self.taken.try_extend_from_slice(&buf[..count]);
        Ok(count)
    }

    fn flush(&mut self) -> io::Result<()> {
        Ok(())
    }
}

/// What a failing writer takes of a text before the write at which it fails.
pub(super) fn before_it_fails(printed: &str, writes: usize) -> &str {
    printed.get(..writes.saturating_mul(3)).unwrap_or(printed)
}
