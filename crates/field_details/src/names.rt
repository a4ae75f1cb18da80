//! The strings and designators of data items and collections.

ghost use Rattle.std.specs.Prelude.{◌≡◌, ◌≤◌, ℕ, List, [], ◌∷◌, ◌++◌, true, OnOk, IfOk, length};
ghost use Rattle.shapes.specs.Shapes.{Bytes};
ghost use Rattle.descriptor_parse.specs.Items.{ItemValue};
ghost use Rattle.descriptor_parse.specs.Tags.{tag, is_collection};
ghost use Rattle.descriptor_parse.specs.Faults.{all_items};
ghost use Rattle.descriptor_parse.specs.Locals.{since_main};
ghost use Rattle.field_details.specs.Collections.{collections};
ghost use Rattle.field_details.specs.Details.{has_place, details};
ghost use Rattle.field_details.specs.declared.naming.Naming.{Naming};
ghost use Rattle.field_details.specs.Names.{field_names, collection_names};
ghost use Rattle.field_details.specs.representation.Named.{IsPart, part_of, AreGiven, given_at, NamedRefines, NamesRefine, ArePending};

use crate::pending::AllPending;
use std::alloc::{AllocError, Global};

/// Some ranges that stand together, from `start` to before `end`.
#[derive(Clone, Copy, Debug)]
pub(crate) struct Part {
    pub(crate) start: usize,
    pub(crate) end: usize,
}

impl Part {
    /// No range.
    const NONE: Part = Part { start: 0, end: 0 };
}

/// The strings or the designators of a text.
#[derive(Debug, Drop)]
pub(crate) struct Named {
    /// All ranges in the order of the text, first and last number of each.
    pub(crate) ranges: Vec<(u32, u32)>,
    /// Those of each data item by its place, up to the last one that has any.
    pub(crate) fields: Vec<Part>,
    /// Those of each collection by its number, up to the last one that has any.
    pub(crate) collections: Vec<Part>,
}

impl Named {
    fn new(alloc: Global) -> Named
        ensures ranges { result.ranges.items ≡ [] }
        ensures fields { result.fields.items ≡ [] }
        ensures collections { result.collections.items ≡ [] }
    {
        Named {
            ranges: Vec::new(alloc),
            fields: Vec::new(alloc),
            collections: Vec::new(alloc),
        }
    }

    /// Gives the data item at a place its ranges.
    fn name_field(&mut self, place: usize, own: &[(u32, u32)]) -> Result<(), AllocError>
        ensures fields { OnOk result ((given : List (List (ℕ × ℕ))) → place ≡ length given
            → AreGiven self.old.ranges.items self.old.fields.items given → AreGiven self.new.ranges.items self.new.fields.items (given ++ own.now ∷ [])) }
        ensures others { OnOk result ((given : List (List (ℕ × ℕ)))
            → AreGiven self.old.ranges.items self.old.collections.items given → AreGiven self.new.ranges.items self.new.collections.items given) }
    {
        if own.is_empty() {
            return Ok(());
        }
        let part = add(&mut self.ranges, own)?;
        put(&mut self.fields, place, part)
    }

    /// Gives the collection with a number its ranges.
    fn name_collection(&mut self, number: usize, own: &[(u32, u32)]) -> Result<(), AllocError>
        ensures collections { OnOk result ((given : List (List (ℕ × ℕ))) → number ≡ length given
            → AreGiven self.old.ranges.items self.old.collections.items given → AreGiven self.new.ranges.items self.new.collections.items (given ++ own.now ∷ [])) }
        ensures others { OnOk result ((given : List (List (ℕ × ℕ)))
            → AreGiven self.old.ranges.items self.old.fields.items given → AreGiven self.new.ranges.items self.new.fields.items given) }
    {
        if own.is_empty() {
            return Ok(());
        }
        let part = add(&mut self.ranges, own)?;
        put(&mut self.collections, number, part)
    }

    /// The ranges of a data item.
    pub(crate) fn of_field(&self, place: usize) -> &[(u32, u32)]
        ensures { (naming : Naming) (text : Bytes) → NamedRefines naming (all_items text) self.now
            → result.now ≡ field_names naming (all_items text) place }
    {
        ranges_at(&self.ranges, &self.fields, place)
    }

    /// Those of a collection.
    pub(crate) fn of_collection(&self, number: usize) -> &[(u32, u32)]
        ensures { (naming : Naming) (text : Bytes) → NamedRefines naming (all_items text) self.now
            → result.now ≡ collection_names naming (all_items text) number }
    {
        ranges_at(&self.ranges, &self.collections, number)
    }
}

/// The strings and the designators of a text.
#[derive(Debug, Drop)]
pub(crate) struct Names {
    pub(crate) strings: Named,
    pub(crate) designators: Named,
}

impl Names {
    pub(crate) fn new(alloc: Global) -> Names
        ensures { NamesRefine [] result }
    {
        Names {
            strings: Named::new(alloc),
            designators: Named::new(alloc),
        }
    }

    /// Gives the data item at a place what is pending.
    pub(crate) fn name_field(
        &mut self,
        place: usize,
        pending: &AllPending,
    ) -> Result<(), AllocError>
        ensures { OnOk result ((before : List ItemValue) (item : ItemValue) → has_place before item ≡ true
            → place ≡ length (details before) → ArePending (since_main before) pending.now
            → NamesRefine before self.old → NamesRefine (item ∷ before) self.new) }
    {
        self.strings.name_field(place, &pending.strings.ranges)?;
        self.designators
            .name_field(place, &pending.designators.ranges)
    }

    /// Gives the collection with a number what is pending.
    pub(crate) fn name_collection(
        &mut self,
        number: usize,
        pending: &AllPending,
    ) -> Result<(), AllocError>
        ensures { OnOk result ((before : List ItemValue) (item : ItemValue) → is_collection (tag item) ≡ true
            → number ≡ length (collections before) → ArePending (since_main before) pending.now
            → NamesRefine before self.old → NamesRefine (item ∷ before) self.new) }
    {
        self.strings
            .name_collection(number, &pending.strings.ranges)?;
        self.designators
            .name_collection(number, &pending.designators.ranges)
    }
}

/// Adds ranges, and tells where they stand.
fn add(ranges: &mut Vec<(u32, u32)>, own: &[(u32, u32)]) -> Result<Part, AllocError>
    ensures ranges { OnOk result (ranges.new.items ≡ ranges.old.items ++ own.now) }
    ensures part { IfOk result (λ part. IsPart ranges.new.items part × (part_of ranges.new.items part ≡ own.now)) }
{
    let start = ranges.len();
    ranges.extend_from_slice(own)?;
    Ok(Part {
        start,
        end: ranges.len(),
    })
}

/// Puts a part at a place, after empty ones at the places before that have none.
fn put(parts: &mut Vec<Part>, place: usize, part: Part) -> Result<(), AllocError>
    ensures { OnOk result ((ranges : List (ℕ × ℕ)) (given : List (List (ℕ × ℕ))) → place ≡ length given → IsPart ranges part
        → AreGiven ranges parts.old.items given → AreGiven ranges parts.new.items (given ++ part_of ranges part ∷ [])) }
{
    while parts.len() < place {
        parts.push(Part::NONE)?;
    }
    parts.push(part)?;
    Ok(())
}

/// The ranges at a place, none where there is no part.
fn ranges_at<'a>(ranges: &'a [(u32, u32)], parts: &[Part], place: usize) -> &'a [(u32, u32)]
    ensures { (given : List (List (ℕ × ℕ))) → AreGiven ranges.now parts.now given → result.now ≡ given_at given place }
{
    match parts.get(place) {
        Some(part) => between(ranges, *part),
        None => &[],
    }
}

/// The ranges of a part.
fn between(ranges: &[(u32, u32)], part: Part) -> &[(u32, u32)]
    ensures { IsPart ranges.now part → result.now ≡ part_of ranges.now part }
{
    match ranges.get(part.start..part.end) {
        Some(own) => own,
        None => &[],
    }
}
