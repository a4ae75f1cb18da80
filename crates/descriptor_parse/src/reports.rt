//! What the data items declare.

ghost use Rattle.std.specs.Prelude.{◌≡◌, ◌≤◌, ◌<◌, ◌^◌, ℕ, List, [], ◌∷◌, OnOk, OnErr, IsTrue, length, map, true, false};
ghost use Rattle.descriptor_parse.specs.Items.{ItemValue};
ghost use Rattle.descriptor_parse.specs.Tags.{tag_of};
ghost use Rattle.descriptor_parse.specs.Globals.{unsigned, in_force, report_size, report_count, usage_page};
ghost use Rattle.descriptor_parse.specs.Locals.{usages_since_main};
ghost use Rattle.descriptor_parse.specs.Fields.{is_constant};
ghost use Rattle.descriptor_parse.specs.representation.GlobalsOf.{globals_of};
ghost use Rattle.descriptor_parse.specs.representation.Linked.{AreLinked, HasFirst, ends_of};
ghost use Rattle.descriptor_parse.specs.representation.DescriptorView.{value_of};
ghost use Rattle.descriptor_parse.specs.representation.LocalsRefine.{LocalsRefine};
ghost use Rattle.descriptor_parse.specs.representation.ReportsRefine.{CanLink, ReportsRefine, FitsData, Declares, declares, fills, field_by};
ghost use Rattle.descriptor_parse.specs.declared.tag.Tag.{Tag};
ghost use Rattle.descriptor_parse.specs.declared.tag.MainTag.{MainTag};

use crate::field::{Field, Kind};
use crate::globals::Globals;
use crate::locals::Locals;
use crate::tag::GlobalTag;
use crate::totals::{NO_FIELD, Totals};
use std::alloc::{AllocError, Global};

/// The most bits of a place.
pub(crate) const MAX_SIZE: u32 = 32;

/// The most places of a field.
pub(crate) const MAX_COUNT: u32 = 1024;

/// How many fields there is room for at first.
const FIRST_FIELDS: usize = 16;

/// How many ranges of usages there is room for at first.
const FIRST_RANGES: usize = 64;

/// What stands beside a field.
#[derive(Clone, Copy)]
pub(crate) struct Link {
    /// Where the usages of the field end in `ranges`.
    pub(crate) end: usize,
    /// The next field of its report, once all are there; none while they come.
    pub(crate) next: u16,
}

/// The fields so far with their usages, the bits of each report, and whether report IDs are used.
#[derive(Clone, Drop)]
pub(crate) struct Reports {
    pub(crate) totals: Totals,
    pub(crate) fields: Vec<Field>,
    /// Beside each field, where its usages end and which field comes next.
    pub(crate) links: Vec<Link>,
    /// The usages of all fields.
    pub(crate) ranges: Vec<(u32, u32)>,
    /// Beside each range, how many usages its field has up to it.
    pub(crate) counts: Vec<u32>,
    /// A Report ID item came.
    pub(crate) has_ids: bool,
    /// A data item came without a Report ID in force.
    pub(crate) has_bare: bool,
}

impl Reports {
    pub(crate) fn new(alloc: Global) -> Reports
        ensures { ReportsRefine [] result }
    {
        Reports {
            totals: Totals::new(alloc),
            fields: Vec::new(alloc),
            links: Vec::new(alloc),
            ranges: Vec::new(alloc),
            counts: Vec::new(alloc),
            has_ids: false,
            has_bare: false,
        }
    }

    /// Notes a Global item: whether it is a Report ID.
    pub(crate) fn note(&mut self, tag: GlobalTag)
        ensures { (before : List ItemValue) (item : ItemValue) → tag_of item.prefix ≡ Tag.Global tag
            → ReportsRefine before self.old → ReportsRefine (item ∷ before) self.new }
    {
        match tag {
            GlobalTag::ReportId => self.has_ids = true,
            _ => {}
        }
    }

    /// Takes a data item that shows no fault.
    #[inline(always)]
    pub(crate) fn take(
        &mut self,
        kind: Kind,
        flags: u32,
        globals: &Globals,
        locals: &Locals,
    ) -> Result<(), AllocError>
        ensures taken { OnOk result ((before : List ItemValue) (item : ItemValue) → tag_of item.prefix ≡ Tag.Main (MainTag.Data kind)
            → unsigned item.bytes ≡ flags → globals.now ≡ globals_of (in_force before) → LocalsRefine before locals.now
            → FitsData before item → length before ≤ 4096 → ReportsRefine before self.old → ReportsRefine (item ∷ before) self.new) }
        ensures refused { OnErr result (IsTrue (fills globals.now)) }
    {
        let more = (globals.size as u64).saturating_mul(globals.count as u64);
        let bit = self.totals.add(kind, globals.id, more)?;
        self.has_bare |= globals.id == 0;
        self.declare(kind, bit, flags, globals, locals)?;
        Ok(())
    }

    /// Adds the field of a data item, from this bit on, if it declares one.
    #[inline(always)]
    fn declare(
        &mut self,
        kind: Kind,
        bit: u64,
        flags: u32,
        globals: &Globals,
        locals: &Locals,
    ) -> Result<(), AllocError>
        ensures declared { OnOk result (Declares kind bit flags globals.now locals.now self.old self.new) }
        ensures refused { OnErr result (IsTrue (fills globals.now)) }
    {
        if !declares(flags, globals) {
            return Ok(());
        }
        if self.fields.is_empty() {
            self.make_room()?;
        }
        locals.append_to(&mut self.ranges, &mut self.counts, globals.page)?;
        self.links.push(Link {
            end: self.ranges.len(),
            next: NO_FIELD,
        })?;
        self.fields.push(field(kind, bit, flags, globals))?;
        Ok(())
    }

    /// Ties the fields of each report together, the last first.
    pub(crate) fn link(&mut self)
        requires { CanLink self.old }
        ensures nexts { AreLinked self.new.fields.items self.new.links.items }
        ensures first { HasFirst self.new.totals 0 self.new.fields.items }
        ensures same { value_of self.new ≡ value_of self.old }
        ensures ends { ends_of self.new.links.items ≡ ends_of self.old.links.items }
        ensures ranges { self.new.ranges.items ≡ self.old.ranges.items }
        ensures counts { self.new.counts.items ≡ self.old.counts.items }
    {
        let mut place = self.fields.len();
        while place > 0 {
            place -= 1;
            let next = self.totals.lead(&self.fields[place], place as u16);
            self.links[place].next = next;
        }
    }

    /// Takes memory for some fields.
    // Not inlined, so that the other items cost less.
    #[inline(never)]
    fn make_room(&mut self) -> Result<(), AllocError>
        ensures fields { self.new.fields.items ≡ self.old.fields.items }
        ensures links { self.new.links.items ≡ self.old.links.items }
        ensures ranges { self.new.ranges.items ≡ self.old.ranges.items }
        ensures counts { self.new.counts.items ≡ self.old.counts.items }
        ensures totals { self.new.totals ≡ self.old.totals }
        ensures has_ids { self.new.has_ids ≡ self.old.has_ids }
        ensures has_bare { self.new.has_bare ≡ self.old.has_bare }
    {
        self.fields.reserve(FIRST_FIELDS)?;
        self.links.reserve(FIRST_FIELDS)?;
        self.ranges.reserve(FIRST_RANGES)?;
        self.counts.reserve(FIRST_RANGES)?;
        Ok(())
    }
}

/// Whether a data item declares a field.
pub(crate) fn declares(flags: u32, globals: &Globals) -> bool
    ensures { result ≡ declares flags globals.now }
{
    flags % 2 == 0 && globals.size > 0 && globals.count > 0
}

/// The field of a data item, whose size and count were found to fit.
#[inline(always)]
fn field(kind: Kind, bit: u64, flags: u32, globals: &Globals) -> Field
    ensures { globals.now.size ≤ 32 → globals.now.count ≤ 1024 → result ≡ field_by kind bit flags globals.now }
{
    Field {
        kind,
        id: globals.id,
        bit,
        size: (globals.size % 0x100) as u8,
        count: (globals.count % 0x1_0000) as u16,
        min: globals.min,
        max: globals.max(),
        array: flags / 2 % 2 == 0,
    }
}
