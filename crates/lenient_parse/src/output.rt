//! The text that is parsed in place of another one, as it grows.

ghost use Rattle.std.specs.Prelude.{◌≡◌, ◌++◌, List, [], ◌∷◌, OnOk, length, replicate, map};
ghost use Rattle.descriptor_parse.specs.Items.{ItemValue};
ghost use Rattle.descriptor_parse.specs.ItemViews.{item_view};
ghost use Rattle.lenient_parse.specs.Padding.{padding, byte_at};
ghost use Rattle.lenient_parse.specs.Lenient.{instead, passed, written, bytes_of, reported};
ghost use Rattle.lenient_parse.specs.representation.Relation.{Relation};

use crate::sizes::Sizes;
use crate::state::{Instead, State};
use descriptor_parse::{Item, ParseError};
use std::alloc::{AllocError, Global};

#[derive(Drop)]
pub(crate) struct Output {
    pub(crate) text: Vec<u8>,
    /// The offset of the item that each byte comes from.
    pub(crate) origins: Vec<usize>,
    /// The faults that were passed over.
    pub(crate) passed: Vec<ParseError>,
}

/// The prefix of a long item.
const LONG: u8 = 0xFE;

/// How many bytes write padding.
const PADDING: usize = 25;

impl Output {
    pub(crate) fn new(alloc: Global) -> Output
        ensures text { result.text.items ≡ [] }
        ensures origins { result.origins.items ≡ [] }
        ensures passed { result.passed.items ≡ [] }
    {
        Output {
            text: Vec::new(alloc),
            origins: Vec::new(alloc),
            passed: Vec::new(alloc),
        }
    }

    /// Puts what stands in place of an item.
    pub(crate) fn take(
        &mut self,
        state: &State,
        item: &Item<'_>,
        more: &[Item<'_>],
    ) -> Result<(), AllocError>
        ensures text { OnOk result ((before : List ItemValue) → Relation before (item_view item.now ∷ map item_view more.now) state.now
            → self.new.text.items ≡ self.old.text.items
            ++ bytes_of (instead state.now.late state.now.set before (item_view item.now) (map item_view more.now)) before (item_view item.now)) }
        ensures origins { OnOk result ((before : List ItemValue) → Relation before (item_view item.now ∷ map item_view more.now) state.now
            → self.new.origins.items ≡ self.old.origins.items
            ++ replicate (length (bytes_of (instead state.now.late state.now.set before (item_view item.now) (map item_view more.now)) before (item_view item.now))) item.now.offset) }
        ensures passed { OnOk result ((before : List ItemValue) → Relation before (item_view item.now ∷ map item_view more.now) state.now
            → self.new.passed.items ≡ self.old.passed.items
            ++ reported (passed state.now.late state.now.set before (item_view item.now) (map item_view more.now)) (item_view item.now)) }
    {
        self.tell(state, item, more)?;
        match state.instead(item, more) {
            Instead::Item => self.put_item(item),
            Instead::Nothing => Ok(()),
            Instead::Padding => {
                let padding = padding(item.prefix, &state.sizes.now);
                self.put(item.offset, &padding)?;
                Ok(())
            }
        }
    }

    /// Notes the fault that is passed over at an item.
    fn tell(&mut self, state: &State, item: &Item<'_>, more: &[Item<'_>]) -> Result<(), AllocError>
        ensures text { OnOk result (self.new.text ≡ self.old.text) }
        ensures origins { OnOk result (self.new.origins ≡ self.old.origins) }
        ensures passed { OnOk result ((before : List ItemValue) → Relation before (item_view item.now ∷ map item_view more.now) state.now
            → self.new.passed.items ≡ self.old.passed.items
            ++ reported (passed state.now.late state.now.set before (item_view item.now) (map item_view more.now)) (item_view item.now)) }
    {
        if let Some(fault) = state.passed(item, more) {
            self.passed.push(ParseError {
                fault,
                offset: item.offset,
            })?;
        }
        Ok(())
    }

    /// Puts an item itself.
    fn put_item(&mut self, item: &Item<'_>) -> Result<(), AllocError>
        ensures text { OnOk result (self.new.text.items ≡ self.old.text.items ++ written (item_view item.now)) }
        ensures origins { OnOk result (self.new.origins.items ≡ self.old.origins.items ++ replicate (length (written (item_view item.now))) item.now.offset) }
        ensures passed { OnOk result (self.new.passed ≡ self.old.passed) }
    {
        if item.prefix == LONG {
            return Ok(());
        }
        self.put(item.offset, &[item.prefix])?;
        self.put(item.offset, item.bytes)
    }

    /// Puts bytes that come from an offset.
    pub(crate) fn put(&mut self, offset: usize, bytes: &[u8]) -> Result<(), AllocError>
        ensures text { OnOk result (self.new.text.items ≡ self.old.text.items ++ bytes.now) }
        ensures origins { OnOk result (self.new.origins.items ≡ self.old.origins.items ++ replicate (length bytes.now) offset) }
        ensures passed { OnOk result (self.new.passed ≡ self.old.passed) }
    {
        self.text.extend_from_slice(bytes)?;
        self.put_origins(offset, bytes.len())
    }

    /// Notes that so many bytes come from an offset.
    #[tactic(auto, using(std::proofs::lemmas::List::replicate_more, std::proofs::lemmas::List::append_assoc))]
    fn put_origins(&mut self, offset: usize, count: usize) -> Result<(), AllocError>
        ensures text { OnOk result (self.new.text ≡ self.old.text) }
        ensures origins { OnOk result (self.new.origins.items ≡ self.old.origins.items ++ replicate count offset) }
        ensures passed { OnOk result (self.new.passed ≡ self.old.passed) }
    {
        let mut done = 0;
        while done < count {
            self.origins.push(offset)?;
            done += 1;
        }
        Ok(())
    }
}

/// Padding in place of a data item.
fn padding(prefix: u8, sizes: &Sizes) -> [u8; PADDING]
    ensures { result ≡ padding prefix sizes.now.size sizes.now.count }
{
    let Sizes { size, count } = *sizes;
    let bits = size as u64 * count as u64;
    let constant = prefix - prefix % 4 + 1;
    let (places, left) = (bits / 1024, bits % 1024);
    [
        0x76,
        0x00,
        0x04,
        0x96,
        byte_0(places),
        byte_1(places),
        constant,
        1,
        0x76,
        byte_0(left),
        byte_1(left),
        0x95,
        1,
        constant,
        1,
        0x77,
        byte_0(size as u64),
        byte_1(size as u64),
        byte_2(size as u64),
        byte_3(size as u64),
        0x97,
        byte_0(count as u64),
        byte_1(count as u64),
        byte_2(count as u64),
        byte_3(count as u64),
    ]
}

fn byte_0(number: u64) -> u8
    ensures { result ≡ byte_at 0 number }
{
    (number % 0x100) as u8
}

fn byte_1(number: u64) -> u8
    ensures { result ≡ byte_at 1 number }
{
    (number / 0x100 % 0x100) as u8
}

fn byte_2(number: u64) -> u8
    ensures { result ≡ byte_at 2 number }
{
    (number / 0x1_0000 % 0x100) as u8
}

fn byte_3(number: u64) -> u8
    ensures { result ≡ byte_at 3 number }
{
    (number / 0x100_0000 % 0x100) as u8
}
