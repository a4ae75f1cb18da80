//! A text as the list of its items.

ghost use Rattle.std.specs.Prelude.{◌≡◌, ◌+◌, ◌^◌, ◌<◌, ◌≤◌, ℕ, List, length, drop, slice_index, MatchOption, IfSome, IfNone};
ghost use Rattle.std.specs.Iterator.{YieldsFirstBy, item_count};
ghost use Rattle.descriptor_parse.specs.Items.{data_size, item_size, front_item, items_at};
ghost use Rattle.descriptor_parse.specs.Tags.{tag_of};
ghost use Rattle.descriptor_parse.specs.ItemViews.{item_view, result_view};

use crate::fault::{ParseError, ParseFault};
use crate::tag::Tag;
use std::marker::Model;

/// The prefix of a long item.
pub(crate) const LONG: u8 = 0xFE;

/// How many bytes of a long item come before its data.
const LONG_HEAD: usize = 3;

/// An item of a report descriptor: the offset of its prefix in the text, the prefix, and the data.
#[derive(Clone, Copy, Debug, PartialEq, Eq)]
pub struct Item<'a> {
    pub offset: usize,
    pub prefix: u8,
    pub bytes: &'a [u8],
}

impl Item<'_> {
    /// Returns what the item is, by its prefix.
    pub fn tag(&self) -> Tag
        ensures { result ≡ tag_of self.now.prefix }
    {
        Tag::of(self.prefix)
    }
}

/// The items of a text, one after the other, ended by the first that is not whole.
///
/// ```rust
/// use wuzhikar_reader::{GlobalTag, Items, Kind, MainTag, Tag};
///
/// let mut tags = Vec::new();
/// for item in Items::new(&[0x75, 0x08, 0x81, 0x02]) {
///     tags.push(item?.tag());
/// }
/// assert_eq!(tags, [Tag::Global(GlobalTag::ReportSize), Tag::Main(MainTag::Data(Kind::Input))]);
/// # Ok::<(), wuzhikar_reader::ParseError>(())
/// ```
#[derive(Debug, Drop)]
pub struct Items<'a> {
    rest: &'a [u8],
    offset: usize,
}

impl<'a> Model for Items<'a> {
    ghost use Rattle.std.specs.Prelude.{List, Result, ◌+◌, ◌^◌, ◌<◌, length};
    ghost use Rattle.descriptor_parse.specs.Items.{ItemValue, items_at};
    ghost use Rattle.descriptor_parse.specs.declared.fault.ParseError.{ParseError};

    ghost Value = { List (Result ItemValue ParseError) };

    ghost view = { λ s. items_at s.offset s.rest.now };

    ghost invariant = { λ s. s.offset + length s.rest.now < 2 ^ 64 };
}

impl<'a> Items<'a> {
    /// Cuts a text into its items.
    pub fn new(text: &'a [u8]) -> Items<'a>
        ensures { result ≡ items_at 0 text.now }
    {
        Items {
            rest: text,
            offset: 0,
        }
    }
}

impl<'a> Iterator for Items<'a> {
    type Item = Result<Item<'a>, ParseError>;

    ghost next_gives = { YieldsFirstBy result_view (λ s. s) };

    ghost remaining = { item_count (λ s. s) };

    #[tactic(auto, using(crate::proofs::ItemLemmas::items_end, crate::proofs::ItemLemmas::items_short, crate::proofs::ItemLemmas::items_more))]
    fn next(&mut self) -> Option<Result<Item<'a>, ParseError>> {
        if self.rest.is_empty() {
            return None;
        }
        match cut(self.offset, self.rest) {
            Some((item, rest, _)) => {
                self.offset += self.rest.len() - rest.len();
                self.rest = rest;
                Some(Ok(item))
            }
            None => {
                self.rest = &[];
                Some(Err(ParseError {
                    fault: ParseFault::Truncated,
                    offset: self.offset,
                }))
            }
        }
    }
}

/// The item at the front of a text that stands at `offset`, the text after it, and how many bytes the item takes; `None` where
/// the text ends before it.
#[inline(always)]
pub(crate) fn cut(offset: usize, text: &[u8]) -> Option<(Item<'_>, &[u8], usize)>
    ensures size { MatchOption result (length text.now < item_size text.now) (λ _. item_size text.now ≤ length text.now) }
    ensures few { IfNone result (length text.now ≤ 258) }
    ensures most { IfSome result (λ _. item_size text.now ≤ 258) }
    ensures item { IfSome result (λ r. item_view r.0 ≡ front_item offset text.now) }
    ensures rest { IfSome result (λ r. r.1.now ≡ drop (item_size text.now) text.now) }
    ensures taken { IfSome result (λ r. r.2 ≡ item_size text.now) }
{
    let Some((prefix, more)) = text.split_first() else {
        return None;
    };
    // Not by another function, so that the item of the other way stays in registers.
    if *prefix == LONG {
        let size = size_of_front(text);
        if text.len() < size {
            return None;
        }
        let (whole, rest) = text.split_at(size);
        let item = Item {
            offset,
            prefix: LONG,
            bytes: &whole[LONG_HEAD..],
        };
        return Some((item, rest, size));
    }
    let size = data_len(*prefix);
    if more.len() < size {
        return None;
    }
    let (bytes, rest) = more.split_at(size);
    let item = Item {
        offset,
        prefix: *prefix,
        bytes,
    };
    Some((item, rest, 1 + size))
}

/// How many bytes the item at the front of a text takes.
pub(crate) fn size_of_front(text: &[u8]) -> usize
    ensures size { result ≡ item_size text.now }
    ensures most { result ≤ 258 }
{
    match text {
        [LONG, size, ..] => 3 + *size as usize,
        [LONG] => 3,
        [prefix, ..] => 1 + data_len(*prefix),
        [] => 1,
    }
}

/// How many bytes of data follow the prefix of a short item.
fn data_len(prefix: u8) -> usize
    ensures size { result ≡ data_size prefix }
    ensures most { result ≤ 4 }
{
    // 0, 1, 2 and 4, by a shift.
    (1 << (prefix % 4)) / 2
}
