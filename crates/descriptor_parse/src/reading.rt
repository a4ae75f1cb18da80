//! A text that comes in pieces, item by item.

ghost use Rattle.std.specs.Prelude.{◌≡◌, ◌≢◌, ◌+◌, ◌-◌, ◌≤◌, ◌<◌, ℕ, List, [], ◌++◌, length, drop, MatchBool, IfSome, IfNone, OnOk, IfOk, IfErr};
ghost use Rattle.descriptor_parse.specs.Items.{item_size, front_item};
ghost use Rattle.descriptor_parse.specs.ItemViews.{item_view};
ghost use Rattle.descriptor_parse.specs.Fed.{RefusesAll};
ghost use Rattle.descriptor_parse.specs.Parse.{Answers, Refuses};
ghost use Rattle.descriptor_parse.specs.representation.Fed.{AreBytes, IsAt, IsFront};

use crate::descriptor::Descriptor;
use crate::fault::{ParseError, ParseFault};
use crate::items::{Item, cut, size_of_front};
use crate::state::State;
use arrayvec::ArrayVec;
use std::alloc::Global;

/// The most bytes of a text.
const MAX_LEN: usize = 4096;

/// The most bytes of an item: the three before the data of a long one, and 255.
pub(crate) const MAX_ITEM: usize = 258;

/// What the whole items so far leave to the next one, and the bytes of an item that is not whole yet.
#[derive(Drop)]
pub(crate) struct Reading {
    pub(crate) state: State,
    pub(crate) part: ArrayVec<u8, MAX_ITEM>,
    /// Where the next item begins.
    pub(crate) offset: usize,
}

impl Reading {
    ghost use Rattle.descriptor_parse.specs.representation.Fed.{IsReading};

    pub(crate) fn new(alloc: Global) -> Reading
        ensures { IsReading [] result }
    {
        Reading {
            state: State::new(alloc),
            part: ArrayVec::new(),
            offset: 0,
        }
    }

    /// Reads a piece of the text: each item that it makes whole, and what is left is kept.
    pub(crate) fn read(&mut self, piece: &[u8]) -> Result<(), ParseError>
        ensures read { OnOk result ((text : List ℕ) → IsReading text self.old → IsReading (text ++ piece.now) self.new) }
        ensures refused { IfErr result (λ e. (text : List ℕ) → IsReading text self.old → RefusesAll (text ++ piece.now) e) }
    {
        if self.part.is_empty() {
            return self.read_rest(piece);
        }
        self.read_kept(piece)
    }

    /// Reads a piece where bytes of an item may be kept.
    // Not inlined, so that the other pieces cost less.
    #[inline(never)]
    fn read_kept(&mut self, piece: &[u8]) -> Result<(), ParseError>
        ensures read { OnOk result ((text : List ℕ) → IsReading text self.old → IsReading (text ++ piece.now) self.new) }
        ensures refused { IfErr result (λ e. (text : List ℕ) → IsReading text self.old → RefusesAll (text ++ piece.now) e) }
    {
        let rest = fill(&mut self.part, piece);
        let Some((item, _, _)) = cut(self.offset, &self.part) else {
            return Ok(());
        };
        self.offset = take_item(&mut self.state, &item, self.part.len())?;
        self.part.clear();
        self.read_rest(rest)
    }

    /// Reads a piece where no bytes of an item are kept.
    fn read_rest(&mut self, piece: &[u8]) -> Result<(), ParseError>
        ensures read { OnOk result ((text : List ℕ) → self.old.part.items ≡ [] → IsAt text piece.now self.old.offset self.old.state → IsReading text self.new) }
        ensures refused { IfErr result (λ e. (text : List ℕ) → IsAt text piece.now self.old.offset self.old.state → RefusesAll text e) }
    {
        let (offset, left) = read_items(&mut self.state, self.offset, piece)?;
        self.offset = offset;
        keep(&mut self.part, left);
        Ok(())
    }
}

impl Reading {
    ghost use Rattle.descriptor_parse.specs.representation.Fed.{IsReading};

    /// Ends the text: its descriptor, or that it ends too early.
    pub(crate) fn finish(self) -> Result<Descriptor, ParseError>
        requires { ∥ ((text : List ℕ) × AreBytes text × IsReading text self) ∥₁ }
        ensures { (text : List ℕ) → IsReading text self → Answers text result }
    {
        let Reading {
            state,
            part,
            offset,
        } = self;
        end(state, &part, offset)
    }
}

/// Ends a text of which these bytes at an offset are left, which make no item.
pub(crate) fn end(state: State, left: &[u8], offset: usize) -> Result<Descriptor, ParseError>
    requires short { length left.now < item_size left.now }
    requires read { ∥ ((text : List ℕ) × AreBytes text × IsAt text left.now offset state) ∥₁ }
    ensures { (text : List ℕ) → IsAt text left.now offset state → Answers text result }
{
    if let Some(error) = end_error(&state, left, offset) {
        return Err(error);
    }
    Ok(Descriptor::new(state.into_reports()))
}

/// The error of a text of which these bytes at an offset are left, which make no item; `None` if it may end there.
pub(crate) fn end_error(state: &State, left: &[u8], offset: usize) -> Option<ParseError>
    requires short { length left.now < item_size left.now }
    ensures refused { IfSome result (λ e. (text : List ℕ) → IsAt text left.now offset state.now → Refuses text e) }
    ensures whole { IfNone result (length left.now ≡ 0) }
    ensures closed { IfNone result (state.now.collections ≡ 0) }
{
    if has_bytes(left) {
        return Some(ParseError {
            fault: ParseFault::Truncated,
            offset,
        });
    }
    if state.collections > 0 {
        return Some(ParseError {
            fault: ParseFault::CollectionOpen,
            offset,
        });
    }
    None
}

/// Whether there are bytes of an item that is not whole.
fn has_bytes(part: &[u8]) -> bool
    ensures { MatchBool result (0 < length part.now) (length part.now ≡ 0) }
{
    part.len() > 0
}

/// Moves bytes from a piece to those of an item, until that is whole: what is left of the piece.
fn fill<'a>(part: &mut ArrayVec<u8, MAX_ITEM>, piece: &'a [u8]) -> &'a [u8]
    ensures moved { part.new.items ++ result.now ≡ part.old.items ++ piece.now }
    ensures most { length part.old.items ≤ item_size part.old.items → length part.new.items ≤ item_size part.new.items }
    ensures all { length part.new.items < item_size part.new.items → result.now ≡ [] }
{
    let mut rest = piece;
    while part.len() < size_of_front(part) {
        let Some((byte, after)) = rest.split_first() else {
            return rest;
        };
        part.push(*byte);
        rest = after;
    }
    rest
}

/// Keeps the bytes of an item that is not whole.
fn keep(part: &mut ArrayVec<u8, MAX_ITEM>, bytes: &[u8])
    ensures { part.old.items ≡ [] → length bytes.now ≤ 258 → part.new.items ≡ bytes.now }
{
    if !bytes.is_empty() {
        let _ = part.try_extend_from_slice(bytes);
    }
}

/// Reads the whole items at the front of a text: the offset that they go up to, and what is left.
pub(crate) fn read_items<'a>(
    state: &mut State,
    offset: usize,
    piece: &'a [u8],
) -> Result<(usize, &'a [u8]), ParseError>
    ensures read { IfOk result (λ r. (text : List ℕ) → IsAt text piece.now offset state.old → IsAt text r.1.now r.0 state.new) }
    ensures short { IfOk result (λ r. length r.1.now < item_size r.1.now) }
    ensures few { IfOk result (λ r. length r.1.now ≤ 258) }
    ensures refused { IfErr result (λ e. (text : List ℕ) → IsAt text piece.now offset state.old → RefusesAll text e) }
{
    let mut at = offset;
    let mut rest = piece;
    while let Some((item, after, size)) = cut(at, rest) {
        at = take_item(state, &item, size)?;
        rest = after;
    }
    Ok((at, rest))
}

/// Judges and takes a whole item of so many bytes: the offset after it.
///
/// An item that reaches past the greatest length of a text is checked, and never taken.
#[inline(always)]
pub(crate) fn take_item(
    state: &mut State,
    item: &Item<'_>,
    size: usize,
) -> Result<usize, ParseError>
    requires few { item.now.prefix ≢ 254 → length item.now.bytes.now ≤ 4 }
    requires not_three { item.now.prefix ≢ 254 → length item.now.bytes.now ≢ 3 }
    requires small { size ≤ 258 }
    ensures taken { IfOk result (λ after. (text rest : List ℕ) (offset : ℕ) → IsAt text rest offset state.old → IsFront (item_view item.now) rest offset
        → size ≡ item_size rest → IsAt text (drop size rest) after state.new) }
    ensures refused { IfErr result (λ e. (text rest : List ℕ) (offset : ℕ) → IsAt text rest offset state.old → IsFront (item_view item.now) rest offset
        → size ≡ item_size rest → RefusesAll text e) }
{
    let after = item.offset.wrapping_add(size);
    if after > MAX_LEN {
        return Err(check_last(state, item.offset, item.prefix, item.bytes));
    }
    match state.step(item) {
        Ok(()) => Ok(after),
        Err(fault) => Err(ParseError {
            fault,
            offset: item.offset,
        }),
    }
}

const TOO_LONG: ParseError = ParseError {
    fault: ParseFault::TooLong,
    offset: MAX_LEN,
};

/// The error of a text with an item that reaches past its greatest length: that item's fault, or that the text is too
/// long.
#[inline(never)]
fn check_last(state: &State, offset: usize, prefix: u8, bytes: &[u8]) -> ParseError
    requires few { prefix ≢ 254 → length bytes.now ≤ 4 }
    requires not_three { prefix ≢ 254 → length bytes.now ≢ 3 }
    ensures { (text rest : List ℕ) → IsAt text rest offset state.now
        → IsFront (record { offset = offset; prefix = prefix; bytes = bytes.now }) rest offset → 4096 < offset + item_size rest → RefusesAll text result }
{
    let item = Item {
        offset,
        prefix,
        bytes,
    };
    match state.check(&item) {
        Some(fault) => ParseError { fault, offset },
        None => TOO_LONG,
    }
}
