//! The text that is parsed in place of another one.

ghost use Rattle.std.specs.Prelude.{◌≡◌, ◌≢◌, ◌≤◌, List, [], IfOk, OnOk, OnErr, IfSome, IfNone, MatchBool, None, map, length, drop, slice_index_or};
ghost use Rattle.descriptor_parse.specs.Items.{ItemValue};
ghost use Rattle.descriptor_parse.specs.ItemViews.{item_view};
ghost use Rattle.lenient_parse.specs.Late.{has_id};
ghost use Rattle.lenient_parse.specs.Lenient.{text_from, origins_from, passed_from, passed_over, lenient_of};
ghost use Rattle.lenient_parse.specs.representation.Relation.{AreShort};
ghost use Rattle.lenient_parse.specs.representation.Goes.{Goes};

use crate::output::Output;
use crate::parts::{part_from, whole_items};
use crate::state::State;
use descriptor_parse::{Item, ParseError};
use std::alloc::{AllocError, Global};
use std::marker::Model;

/// The greatest length of a text.
const MAX_LEN: usize = 4096;

/// The text that the strict reader parses in place of one with faults that the lenient mode passes over.
#[derive(Debug, Drop)]
pub struct Lenient {
    text: Vec<u8>,
    origins: Vec<usize>,
    passed: Vec<ParseError>,
    len: usize,
}

impl Model for Lenient {
    ghost use Rattle.lenient_parse.specs.Lenient.{LenientValue};

    ghost Value = { LenientValue };

    ghost view = { λ s. record { text = s.text.items; origins = s.origins.items; passed = s.passed.items; len = s.len } };
}

impl Lenient {
    /// Returns the text for the strict reader. It may have more than 4,096 bytes, which it then refuses.
    pub fn text(&self) -> &[u8]
        ensures { result.now ≡ self.now.text }
    {
        &self.text
    }

    /// Returns the faults that were passed over, in the order of the text, with their offsets in it.
    pub fn passed(&self) -> &[ParseError]
        ensures { result.now ≡ self.now.passed }
    {
        &self.passed
    }

    /// Returns where an offset of the new text stands in the old one: that of its item, or its length past the end.
    pub fn origin(&self, offset: usize) -> usize
        ensures { result ≡ slice_index_or self.now.origins offset self.now.len }
    {
        match self.origins.get(offset) {
            Some(origin) => *origin,
            None => self.len,
        }
    }

    /// Returns the faults alone.
    pub fn into_passed(self) -> Vec<ParseError>
        ensures { result.items ≡ self.passed }
    {
        let Lenient {
            passed,
            text: _,
            origins: _,
            len: _,
        } = self;
        passed
    }
}

/// Makes the text that the strict reader parses in place of one of at most 4,096 bytes.
///
/// `None` where no fault is passed over, and the strict reader answers for the text itself, as for a longer one.
pub fn rewritten(alloc: Global, text: &[u8]) -> Result<Option<Lenient>, AllocError>
    ensures some { IfOk result (λ r. IfSome r (λ l. l ≡ lenient_of text.now)) }
    ensures passes { IfOk result (λ r. IfSome r (λ l. passed_over text.now ≢ [])) }
    ensures none { IfOk result (λ r. IfNone r (passed_over text.now ≡ [])) }
    ensures refused { OnErr result (length text.now ≤ 4096) }
{
    if text.len() > MAX_LEN {
        return Ok(None);
    }
    let (items, end) = whole_items(alloc, text)?;
    let mut output = rewrite(alloc, &items)?;
    if is_strict(&output) {
        return Ok(None);
    }
    output.put(end, part_from(text, end))?;
    let Output {
        text: written,
        origins,
        passed,
    } = output;
    Ok(Some(Lenient {
        text: written,
        origins,
        passed,
        len: text.len(),
    }))
}

/// What stands in place of items, and the faults that are passed over in them.
fn rewrite(alloc: Global, items: &[Item<'_>]) -> Result<Output, AllocError>
    requires { AreShort (map item_view items.now) }
    ensures text { IfOk result (λ o. o.text.items ≡ text_from (has_id (map item_view items.now)) None [] (map item_view items.now)) }
    ensures origins { IfOk result (λ o. o.origins.items ≡ origins_from (has_id (map item_view items.now)) None [] (map item_view items.now)) }
    ensures passed { IfOk result (λ o. o.passed.items ≡ passed_from (has_id (map item_view items.now)) None [] (map item_view items.now)) }
{
    let mut output = Output::new(alloc);
    let mut state = State::new(alloc, items);
    let mut at = 0;
    while at < items.len() {
        let (_, rest) = items.split_at(at);
        step(&mut output, &mut state, rest)?;
        at += 1;
    }
    Ok(output)
}

/// Whether no fault is passed over.
fn is_strict(output: &Output) -> bool
    ensures { MatchBool result (output.now.passed.items ≡ []) (output.now.passed.items ≢ []) }
{
    match output.passed.first() {
        Some(_) => false,
        None => true,
    }
}

/// Takes the first of the items that are left.
fn step(output: &mut Output, state: &mut State, rest: &[Item<'_>]) -> Result<(), AllocError>
    requires { AreShort (map item_view rest.now) }
    ensures { OnOk result ((items : List ItemValue) → Goes items (map item_view rest.now) output.old state.old
        → Goes items (map item_view (drop 1 rest.now)) output.new state.new) }
{
    let Some((item, more)) = rest.split_first() else {
        return Ok(());
    };
    output.take(state, item, more)?;
    state.take(item, more)?;
    Ok(())
}
