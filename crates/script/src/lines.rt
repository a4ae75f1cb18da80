//! Cutting a text into lines.

ghost use Rattle.std.specs.Prelude.{◌≡◌, ◌==◌};
ghost use Rattle.std.specs.Iterator.{YieldsFirstBy, item_count};
ghost use Rattle.std.specs.List.{position_or_len};
ghost use Rattle.std.specs.Str.Lines.{lines, strip_carriage_return};

/// The lines of a text in order. A line ends with LF, and one CR before it is no part of it; the
/// last LF may be missing.
#[derive(Clone, Copy)]
pub(crate) struct Lines<'a> {
    rest: &'a [u8],
}

impl<'a> Lines<'a> {
    /// All lines of this text.
    pub(crate) fn new(text: &'a [u8]) -> Lines<'a>
        ensures { result.rest.now ≡ text.entry.now }
    {
        Lines { rest: text }
    }
}

impl<'a> Iterator for Lines<'a> {
    type Item = &'a [u8];

    ghost next_gives = { YieldsFirstBy (λ l. l.now) (λ s. lines s.rest.now) };

    ghost remaining = { item_count (λ s. lines s.rest.now) };

    fn next(&mut self) -> Option<&'a [u8]> {
        let text = self.rest;
        let (line, rest) = text.split_at(line_end(text));
        match rest.split_first() {
            Some((_, rest)) => {
                self.rest = rest;
                Some(without_return(line))
            }
            None => {
                self.rest = rest;
                if line.is_empty() { None } else { Some(line) }
            }
        }
    }
}

/// How many bytes stand before the first LF of a text.
fn line_end(text: &[u8]) -> usize
    ensures { result ≡ position_or_len (λ b. b == 10) text.now }
{
    text.iter().take_while(|byte| **byte != b'\n').count()
}

/// A line without the CR at its end, if it has one.
fn without_return(line: &[u8]) -> &[u8]
    ensures { result.now ≡ strip_carriage_return line.entry.now }
{
    match line {
        [front @ .., b'\r'] => front,
        _ => line,
    }
}
