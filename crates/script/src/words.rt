//! Cutting a line into words.

ghost use Rattle.std.specs.Prelude.{◌≡◌, ◌<◌, ◌∷◌, length};
ghost use Rattle.std.specs.Iterator.{YieldsFirstBy, item_count};
ghost use Rattle.std.specs.List.{position_or_len, prefix_len};
ghost use Rattle.script.specs.Words.{is_blank, words};

/// What stands between the words of a line.
fn is_blank(byte: u8) -> bool
    ensures { result ≡ is_blank byte }
{
    byte == b' ' || byte == b'\t'
}

/// How many blanks a line begins with.
fn blanks(line: &[u8]) -> usize
    ensures { result ≡ prefix_len is_blank line.now }
{
    line.iter().take_while(|byte| is_blank(**byte)).count()
}

/// How many bytes stand before the first blank of a line.
fn word_end(line: &[u8]) -> usize
    ensures { result ≡ position_or_len is_blank line.now }
{
    line.iter().take_while(|byte| !is_blank(**byte)).count()
}

/// The words of a line from the left.
#[derive(Clone, Copy)]
pub(crate) struct Words<'a> {
    rest: &'a [u8],
}

impl<'a> Words<'a> {
    /// All words of this line.
    pub(crate) fn new(line: &'a [u8]) -> Words<'a>
        ensures { result.rest.now ≡ line.entry.now }
    {
        Words { rest: line }
    }

    /// How many bytes of the line are left.
    pub(crate) fn bytes_left(&self) -> usize {
        self.rest.len()
    }

    /// The next word, where there is one.
    pub(crate) fn word(&mut self) -> &'a [u8]
        requires { 0 < length (words self.old.rest.now) }
        ensures { words self.old.rest.now ≡ result.now ∷ words self.new.rest.now }
    {
        self.next().unwrap()
    }
}

impl<'a> Iterator for Words<'a> {
    type Item = &'a [u8];

    ghost next_gives = { YieldsFirstBy (λ w. w.now) (λ s. words s.rest.now) };

    ghost remaining = { item_count (λ s. words s.rest.now) };

    fn next(&mut self) -> Option<&'a [u8]> {
        let line = self.rest;
        let (_, rest) = line.split_at(blanks(line));
        let (word, rest) = rest.split_at(word_end(rest));
        self.rest = rest;
        if word.is_empty() { None } else { Some(word) }
    }
}
