//! What the parser keeps between two items.

ghost use Rattle.std.specs.Prelude.{◌≡◌, ◌≢◌, ◌≤◌, ◌<◌, ◌==◌, ◌||◌, ℕ, List, [], ◌∷◌, OnOk, OnErr, IfErr, IsTrue, length, if◌then◌else◌, nat_lt, not};
ghost use Rattle.descriptor_parse.specs.Items.{ItemValue};
ghost use Rattle.descriptor_parse.specs.ItemViews.{item_view};
ghost use Rattle.descriptor_parse.specs.Tags.{tag_of};
ghost use Rattle.descriptor_parse.specs.Globals.{unsigned, in_force, report_id};
ghost use Rattle.descriptor_parse.specs.Fields.{open_collections, report_bits};
ghost use Rattle.descriptor_parse.specs.Faults.{fault_at};
ghost use Rattle.descriptor_parse.specs.representation.GlobalsOf.{globals_of};
ghost use Rattle.descriptor_parse.specs.representation.ReportsRefine.{FitsData, fills};
ghost use Rattle.descriptor_parse.specs.representation.Written.{usage_of};
ghost use Rattle.descriptor_parse.specs.representation.StateRefines.{StateRefines, Takes, IsRefused, IsData, fault_of_data, fault_of_main, fault_of_global};
ghost use Rattle.descriptor_parse.specs.declared.tag.Tag.{Tag};
ghost use Rattle.descriptor_parse.specs.declared.tag.MainTag.{MainTag};
ghost use Rattle.descriptor_parse.specs.declared.tag.GlobalTag.{GlobalTag};
ghost use Rattle.descriptor_parse.specs.declared.tag.LocalTag.{LocalTag};

use crate::fault::ParseFault;
use crate::field::Kind;
use crate::globals::{Globals, take_global};
use crate::items::{Item, LONG};
use crate::locals::Locals;
use crate::number::unsigned;
use crate::reports::{MAX_COUNT, MAX_SIZE, Reports, declares};
use crate::stack::Stack;
use crate::tag::{GlobalTag, LocalTag, MainTag, Tag};
use crate::usage::{Usage, read_usage};
use std::alloc::{AllocError, Global};
use std::fmt;
use std::fmt::Debug;

/// The most bits of a Constant item's place.
const MAX_CONSTANT_SIZE: u32 = 1024;

const MAX_FIELDS: usize = 256;

const MAX_COLLECTIONS: usize = 16;

const MAX_PUSHES: usize = 8;

/// What the items so far leave to the next one.
#[derive(Drop)]
pub struct State {
    pub(crate) globals: Stack<Globals>,
    pub(crate) locals: Locals,
    pub(crate) reports: Reports,
    /// The collections that are open.
    pub(crate) collections: usize,
}

impl State {
    pub(crate) fn new(alloc: Global) -> State
        ensures { StateRefines [] result }
    {
        State {
            globals: Stack::new(alloc, Globals::NONE),
            locals: Locals::new(alloc),
            reports: Reports::new(alloc),
            collections: 0,
        }
    }

    /// The Globals in force.
    pub fn globals(&self) -> &Globals
        ensures { (before : List ItemValue) → StateRefines before self.now → result.now ≡ globals_of (in_force before) }
    {
        &self.globals.now
    }

    /// The bits so far of the report of a kind that has the ID in force.
    pub fn bits(&self, kind: Kind) -> u64
        ensures { (before : List ItemValue) → StateRefines before self.now → result ≡ report_bits kind (report_id before) before }
    {
        self.reports.totals.bits(kind, self.globals.now.id)
    }

    pub(crate) fn into_reports(self) -> Reports
        ensures { result ≡ self.reports }
    {
        let State {
            reports,
            globals: _,
            locals: _,
            collections: _,
        } = self;
        reports
    }

    /// The first fault of a whole item.
    pub(crate) fn check(&self, item: &Item<'_>) -> Option<ParseFault>
        requires few { item.now.prefix ≢ 254 → length item.now.bytes.now ≤ 4 }
        requires not_three { item.now.prefix ≢ 254 → length item.now.bytes.now ≢ 3 }
        ensures { (before : List ItemValue) → StateRefines before self.now → result ≡ fault_at before (item_view item.now) }
    {
        if item.prefix == LONG {
            return None;
        }
        match Tag::of(item.prefix) {
            Tag::Main(tag) => self.check_main(tag, unsigned(item.bytes)),
            Tag::Global(tag) => self.check_global(tag, item.bytes),
            Tag::Local(tag) => self.locals.check(tag, read_usage(item.bytes)),
            Tag::Skipped => None,
        }
    }

    /// The fault of a Global item.
    #[inline(always)]
    fn check_global(&self, tag: GlobalTag, bytes: &[u8]) -> Option<ParseFault>
        requires { length bytes.now ≤ 4 }
        ensures { result ≡ fault_of_global tag (unsigned bytes.now) self.now }
    {
        match tag {
            GlobalTag::Pop if self.globals.saved.is_empty() => Some(ParseFault::PopEmpty),
            GlobalTag::Push if self.globals.saved.len() >= MAX_PUSHES => Some(ParseFault::PushDeep),
            GlobalTag::ReportId if !is_report_id(unsigned(bytes)) => Some(ParseFault::BadReportId),
            GlobalTag::ReportId if self.reports.has_bare => Some(ParseFault::MixedIds),
            _ => None,
        }
    }

    /// The fault of a Main item.
    #[inline(always)]
    fn check_main(&self, tag: MainTag, flags: u32) -> Option<ParseFault>
        ensures { result ≡ fault_of_main tag flags self.now }
    {
        match tag {
            MainTag::Data(_) => self.check_data(flags),
            MainTag::Collection if self.collections >= MAX_COLLECTIONS => Some(
                ParseFault::CollectionDeep,
            ),
            MainTag::EndCollection if self.collections == 0 => Some(
                ParseFault::EndWithoutCollection,
            ),
            _ if self.locals.half.is_some() => Some(ParseFault::UnpairedUsage),
            _ => None,
        }
    }

    /// The fault of a data item.
    #[inline(always)]
    fn check_data(&self, flags: u32) -> Option<ParseFault>
        ensures { result ≡ fault_of_data flags self.now }
    {
        let globals = &self.globals.now;
        let constant = flags % 2 == 1;
        if globals.size > size_limit(constant) {
            return Some(ParseFault::SizeTooLarge);
        }
        if globals.count > MAX_COUNT {
            return Some(ParseFault::CountTooLarge);
        }
        if self.locals.half.is_some() {
            return Some(ParseFault::UnpairedUsage);
        }
        if flags / 2 % 2 == 0 && !constant && globals.max() < globals.min {
            return Some(ParseFault::LogicalInverted);
        }
        if declares(flags, globals) && self.reports.fields.len() >= MAX_FIELDS {
            return Some(ParseFault::TooManyFields);
        }
        if globals.id == 0 && self.reports.has_ids {
            return Some(ParseFault::MixedIds);
        }
        None
    }

    /// Judges a whole item and takes it. The error is its first fault, or `Memory` where it shows none and a growth
    /// was refused.
    #[inline(always)]
    pub(crate) fn step(&mut self, item: &Item<'_>) -> Result<(), ParseFault>
        requires few { item.now.prefix ≢ 254 → length item.now.bytes.now ≤ 4 }
        requires not_three { item.now.prefix ≢ 254 → length item.now.bytes.now ≢ 3 }
        ensures taken { OnOk result ((before : List ItemValue) → StateRefines before self.old → length before ≤ 4096
            → Takes before (item_view item.now) self.new) }
        ensures refused { (before : List ItemValue) → StateRefines before self.old → IfErr result (IsRefused before (item_view item.now)) }
    {
        // A long item is one of those that are skipped.
        match Tag::of(item.prefix) {
            // The compiler makes a shorter way for each kind of item that stands alone: most are of these.
            Tag::Main(MainTag::Data(kind)) => self.step_main(
                MainTag::Data(kind),
                unsigned(item.bytes),
            ),
            Tag::Main(tag) => self.step_main(tag, unsigned(item.bytes)),
            Tag::Global(tag) => self.step_global(tag, item.bytes),
            Tag::Local(LocalTag::Usage) => self.step_local(LocalTag::Usage, read_usage(item.bytes)),
            Tag::Local(tag) => self.step_local(tag, read_usage(item.bytes)),
            Tag::Skipped => Ok(()),
        }
    }

    #[inline(always)]
    fn step_main(&mut self, tag: MainTag, flags: u32) -> Result<(), ParseFault>
        ensures taken { OnOk result ((before : List ItemValue) (item : ItemValue) → tag_of item.prefix ≡ Tag.Main tag → unsigned item.bytes ≡ flags
            → StateRefines before self.old → length before ≤ 4096 → Takes before item self.new) }
        ensures refused { (before : List ItemValue) (item : ItemValue) → tag_of item.prefix ≡ Tag.Main tag → unsigned item.bytes ≡ flags
            → StateRefines before self.old → IfErr result (IsRefused before item) }
    {
        if let Some(fault) = self.check_main(tag, flags) {
            return Err(fault);
        }
        match self.take_main(tag, flags) {
            Ok(()) => Ok(()),
            Err(_) => Err(ParseFault::Memory),
        }
    }

    #[inline(always)]
    fn step_global(&mut self, tag: GlobalTag, bytes: &[u8]) -> Result<(), ParseFault>
        requires { length bytes.now ≤ 4 }
        ensures taken { OnOk result ((before : List ItemValue) (item : ItemValue) → tag_of item.prefix ≡ Tag.Global tag → item.bytes ≡ bytes.now
            → StateRefines before self.old → Takes before item self.new) }
        ensures refused { (before : List ItemValue) (item : ItemValue) → tag_of item.prefix ≡ Tag.Global tag → item.bytes ≡ bytes.now
            → StateRefines before self.old → IfErr result (IsRefused before item) }
    {
        if let Some(fault) = self.check_global(tag, bytes) {
            return Err(fault);
        }
        match self.take_global(tag, bytes) {
            Ok(()) => Ok(()),
            Err(_) => Err(ParseFault::Memory),
        }
    }

    #[inline(always)]
    fn step_local(&mut self, tag: LocalTag, usage: Usage) -> Result<(), ParseFault>
        ensures taken { OnOk result ((before : List ItemValue) (item : ItemValue) → tag_of item.prefix ≡ Tag.Local tag → usage_of item.bytes ≡ usage
            → StateRefines before self.old → Takes before item self.new) }
        ensures refused { (before : List ItemValue) (item : ItemValue) → tag_of item.prefix ≡ Tag.Local tag → usage_of item.bytes ≡ usage
            → StateRefines before self.old → IfErr result (IsRefused before item) }
    {
        if let Some(fault) = self.locals.check(tag, usage) {
            return Err(fault);
        }
        match self.locals.take(tag, usage) {
            Ok(()) => Ok(()),
            Err(_) => Err(ParseFault::Memory),
        }
    }

    #[inline(always)]
    fn take_global(&mut self, tag: GlobalTag, bytes: &[u8]) -> Result<(), AllocError>
        requires { length bytes.now ≤ 4 }
        ensures taken { OnOk result ((before : List ItemValue) (item : ItemValue) → tag_of item.prefix ≡ Tag.Global tag → item.bytes ≡ bytes.now
            → StateRefines before self.old → fault_at before item ≡ None → StateRefines (item ∷ before) self.new) }
        ensures refused { OnErr result (tag ≡ GlobalTag.Push) }
    {
        take_global(&mut self.globals, tag, bytes)?;
        self.reports.note(tag);
        Ok(())
    }

    #[inline(always)]
    fn take_main(&mut self, tag: MainTag, flags: u32) -> Result<(), AllocError>
        ensures taken { OnOk result ((before : List ItemValue) (item : ItemValue) → tag_of item.prefix ≡ Tag.Main tag → unsigned item.bytes ≡ flags
            → StateRefines before self.old → length before ≤ 4096 → fault_at before item ≡ None → StateRefines (item ∷ before) self.new) }
        ensures refused { OnErr result (IsData tag × IsTrue (fills self.old.globals.now)) }
    {
        match tag {
            MainTag::Data(kind) => self.take_data(kind, flags),
            MainTag::Collection => {
                self.open_collection();
                Ok(())
            }
            MainTag::EndCollection => {
                self.close_collection();
                Ok(())
            }
        }
    }

    /// Takes a data item that shows no fault.
    #[inline(always)]
    fn take_data(&mut self, kind: Kind, flags: u32) -> Result<(), AllocError>
        ensures taken { OnOk result ((before : List ItemValue) (item : ItemValue) → tag_of item.prefix ≡ Tag.Main (MainTag.Data kind)
            → unsigned item.bytes ≡ flags → FitsData before item → length before ≤ 4096
            → StateRefines before self.old → StateRefines (item ∷ before) self.new) }
        ensures refused { OnErr result (IsTrue (fills self.old.globals.now)) }
    {
        self.reports
            .take(kind, flags, &self.globals.now, &self.locals)?;
        self.locals.clear();
        Ok(())
    }

    #[inline(always)]
    fn open_collection(&mut self)
        ensures { (before : List ItemValue) (item : ItemValue) → tag_of item.prefix ≡ Tag.Main MainTag.Collection → open_collections before < 16
            → StateRefines before self.old → StateRefines (item ∷ before) self.new }
    {
        self.collections = self.collections.saturating_add(1);
        self.locals.clear();
    }

    #[inline(always)]
    fn close_collection(&mut self)
        ensures { (before : List ItemValue) (item : ItemValue) → tag_of item.prefix ≡ Tag.Main MainTag.EndCollection → 0 < open_collections before
            → StateRefines before self.old → StateRefines (item ∷ before) self.new }
    {
        self.collections = self.collections.saturating_sub(1);
        self.locals.clear();
    }
}

impl Debug for State {
    fn fmt<W: fmt::Write>(&self, f: &mut fmt::Formatter<W>) -> fmt::Result {
        f.debug_struct("State")
            .field("collections", &self.collections)
            .finish_non_exhaustive()
    }
}

/// Whether a number can be a Report ID.
#[inline(always)]
fn is_report_id(number: u32) -> bool
    ensures { result ≡ not (number == 0 || nat_lt 255 number) }
{
    number > 0 && number <= 255
}

/// The most bits of a place.
fn size_limit(constant: bool) -> u32
    ensures { result ≡ (if constant then 1024 else 32) }
{
    if constant {
        MAX_CONSTANT_SIZE
    } else {
        MAX_SIZE
    }
}
