//! The walk over the items of a text, which keeps what is in force beside the parser.

ghost use Rattle.std.specs.Prelude.{◌≡◌, ◌≢◌, ◌≤◌, IsTrue, List, [], ◌∷◌, OnOk, OnErr, length, None, Some, option_map};
ghost use Rattle.std.specs.Option.{option_or};
ghost use Rattle.descriptor_parse.specs.Items.{ItemValue};
ghost use Rattle.descriptor_parse.specs.Tags.{tag_of};
ghost use Rattle.descriptor_parse.specs.Beside.{wants_beside};
ghost use Rattle.descriptor_parse.specs.Globals.{unsigned};
ghost use Rattle.descriptor_parse.specs.declared.tag.Tag.{Tag};
ghost use Rattle.descriptor_parse.specs.declared.tag.MainTag.{MainTag};
ghost use Rattle.descriptor_parse.specs.representation.ReportsRefine.{fills};
ghost use Rattle.descriptor_parse.specs.representation.StateRefines.{StateRefines};
ghost use Rattle.descriptor_parse.specs.representation.Written.{usage_on};
ghost use Rattle.field_details.specs.Collections.{innermost, declared_collection};
ghost use Rattle.field_details.specs.Details.{declared_detail};
ghost use Rattle.field_details.specs.representation.Named.{ArePending};
ghost use Rattle.field_details.specs.representation.Relation.{WalkRefines, detail_by};

use crate::collection::Collection;
use crate::detail::Detail;
use crate::details::Details;
use crate::extents::{Extents, take_global, take_skipped};
use crate::pending::AllPending;
use descriptor_parse::beside::Beside;
use descriptor_parse::globals::Globals;
use descriptor_parse::number::unsigned;
use descriptor_parse::stack::Stack;
use descriptor_parse::state::State;
use descriptor_parse::usage::{Usage, read_usage};
use descriptor_parse::{Item, Kind, LocalTag, MainTag, Tag};
use std::alloc::{AllocError, Global};

/// What the items so far leave to the next one, and what they declared.
#[derive(Drop)]
pub(crate) struct Walk {
    pub(crate) extents: Stack<Extents>,
    /// The first Usage since the latest Main item.
    pub(crate) usage: Option<Usage>,
    /// The numbers of the collections that are open, outermost first.
    pub(crate) opened: Vec<usize>,
    pub(crate) pending: AllPending,
    pub(crate) reported: Details,
}

impl Walk {
    pub(crate) fn new(alloc: Global) -> Walk
        ensures { WalkRefines [] result }
    {
        Walk {
            extents: Stack::new(alloc, Extents::NONE),
            usage: None,
            opened: Vec::new(alloc),
            pending: AllPending::new(alloc),
            reported: Details::new(alloc),
        }
    }

    /// What was declared.
    pub(crate) fn into_details(self) -> Details
        ensures { result ≡ self.reported }
    {
        let Walk {
            reported,
            extents: _,
            usage: _,
            opened: _,
            pending: _,
        } = self;
        reported
    }

    /// Takes a Local item.
    fn take_local(&mut self, tag: LocalTag, bytes: &[u8])
        requires few { length bytes.now ≤ 4 }
        requires not_three { length bytes.now ≢ 3 }
        ensures { (before : List ItemValue) (item : ItemValue) → tag_of item.prefix ≡ Tag.Local tag → item.bytes ≡ bytes.now
            → WalkRefines before self.old → WalkRefines (item ∷ before) self.new }
    {
        match tag {
            LocalTag::Usage => self.note_usage(read_usage(bytes)),
            _ => {}
        }
    }

    /// Keeps a usage, if it is the first since the latest Main item.
    fn note_usage(&mut self, usage: Usage)
        ensures { self.new ≡ record self.old { usage = option_or self.old.usage (Some usage) } }
    {
        if self.usage.is_none() {
            self.usage = Some(usage);
        }
    }

    /// Takes a Main item.
    fn take_main(
        &mut self,
        tag: MainTag,
        offset: usize,
        value: u32,
        before: &State,
    ) -> Result<(), AllocError>
        ensures taken { OnOk result ((items : List ItemValue) (item : ItemValue) → tag_of item.prefix ≡ Tag.Main tag → item.offset ≡ offset
            → unsigned item.bytes ≡ value → StateRefines items before.now → WalkRefines items self.old → WalkRefines (item ∷ items) self.new) }
        ensures refused { OnErr result (IsTrue (wants_beside (Tag.Main tag))) }
    {
        match tag {
            MainTag::Data(kind) => self.take_data(kind, offset, value, before),
            MainTag::Collection => self.open_collection(offset, value, before),
            MainTag::EndCollection => {
                self.close_collection();
                Ok(())
            }
        }
    }

    /// Takes a data item.
    fn take_data(
        &mut self,
        kind: Kind,
        offset: usize,
        flags: u32,
        before: &State,
    ) -> Result<(), AllocError>
        ensures { OnOk result ((items : List ItemValue) (item : ItemValue) → tag_of item.prefix ≡ Tag.Main (MainTag.Data kind) → item.offset ≡ offset
            → unsigned item.bytes ≡ flags → StateRefines items before.now → WalkRefines items self.old → WalkRefines (item ∷ items) self.new) }
    {
        if !fills(before.globals()) {
            self.end_locals();
            return Ok(());
        }
        let detail = self.detail(kind, offset, flags, before);
        let place = self.reported.fields.len();
        self.reported.names.name_field(place, &self.pending)?;
        self.reported.fields.push(detail)?;
        self.end_locals();
        Ok(())
    }

    /// What a data item declares.
    fn detail(&self, kind: Kind, offset: usize, flags: u32, before: &State) -> Detail
        ensures { (items : List ItemValue) (item : ItemValue) → tag_of item.prefix ≡ Tag.Main (MainTag.Data kind) → item.offset ≡ offset
            → unsigned item.bytes ≡ flags → StateRefines items before.now → WalkRefines items self.now → result ≡ declared_detail items item }
    {
        let (globals, extents) = (before.globals(), &self.extents.now);
        detail_by(
            kind,
            offset,
            flags,
            before.bits(kind),
            self.innermost(),
            globals,
            extents,
        )
    }

    /// The number of the innermost collection that is open, if one is.
    fn innermost(&self) -> Option<usize>
        ensures { result ≡ innermost self.now.opened.items }
    {
        self.opened.last().copied()
    }

    /// Takes a Collection item.
    fn open_collection(
        &mut self,
        offset: usize,
        kind: u32,
        before: &State,
    ) -> Result<(), AllocError>
        ensures { OnOk result ((items : List ItemValue) (item : ItemValue) → tag_of item.prefix ≡ Tag.Main MainTag.Collection → item.offset ≡ offset
            → unsigned item.bytes ≡ kind → StateRefines items before.now → WalkRefines items self.old → WalkRefines (item ∷ items) self.new) }
    {
        let collection = self.collection(offset, kind, before);
        let number = self.reported.collections.len();
        self.reported.names.name_collection(number, &self.pending)?;
        self.opened.push(number)?;
        self.reported.collections.push(collection)?;
        self.end_locals();
        Ok(())
    }

    /// What a Collection item declares.
    fn collection(&self, offset: usize, kind: u32, before: &State) -> Collection
        ensures { (items : List ItemValue) (item : ItemValue) → item.offset ≡ offset → unsigned item.bytes ≡ kind
            → StateRefines items before.now → WalkRefines items self.now → result ≡ declared_collection items item }
    {
        Collection {
            offset,
            kind,
            usage: usage_on(before.globals().page, self.usage),
            outer: self.innermost(),
        }
    }

    /// Takes an End Collection item.
    fn close_collection(&mut self)
        ensures { (before : List ItemValue) (item : ItemValue) → tag_of item.prefix ≡ Tag.Main MainTag.EndCollection
            → WalkRefines before self.old → WalkRefines (item ∷ before) self.new }
    {
        let _ = self.opened.pop();
        self.end_locals();
    }

    /// Ends the Local items at a Main item.
    fn end_locals(&mut self)
        ensures usage { self.new.usage ≡ None }
        ensures pending { ArePending [] self.new.pending }
        ensures same { self.new ≡ record self.old { usage = self.new.usage; pending = self.new.pending } }
    {
        self.usage = None;
        self.pending.clear();
    }
}

impl Beside for Walk {
    ghost refines = { WalkRefines };

    fn take(&mut self, item: &Item<'_>, before: &State) -> Result<(), AllocError> {
        match item.tag() {
            Tag::Main(tag) => self.take_main(tag, item.offset, unsigned(item.bytes), before),
            Tag::Global(tag) => take_global(&mut self.extents, tag),
            Tag::Local(tag) => {
                self.take_local(tag, item.bytes);
                Ok(())
            }
            Tag::Skipped => {
                take_skipped(&mut self.extents, item.prefix, item.bytes);
                self.pending.take(item)
            }
        }
    }
}

/// A data item under these values, from a bit on.
fn detail_by(
    kind: Kind,
    offset: usize,
    flags: u32,
    bit: u64,
    inside: Option<usize>,
    globals: &Globals,
    extents: &Extents,
) -> Detail
    ensures { result ≡ detail_by kind offset flags bit inside globals.now extents.now }
{
    Detail {
        offset,
        kind,
        flags,
        id: globals.id as u32,
        bit,
        size: globals.size,
        count: globals.count,
        min: globals.min,
        max: globals.max(),
        physical_min: extents.min,
        physical_max: extents.greatest(),
        unit: extents.unit,
        exponent: extents.exponent,
        inside,
    }
}

/// Whether a data item under these Globals takes a bit.
fn fills(globals: &Globals) -> bool
    ensures { result ≡ fills globals.now }
{
    globals.size > 0 && globals.count > 0
}

/// The number of a usage, if there is one.
fn usage_on(page: u16, usage: Option<Usage>) -> Option<u32>
    ensures { result ≡ option_map (usage_on page) usage }
{
    match usage {
        Some(usage) => Some(usage.on(page)),
        None => None,
    }
}
