//! What was declared.

ghost use Rattle.std.specs.Prelude.{◌≡◌, List, []};
ghost use Rattle.shapes.specs.Shapes.{Bytes};
ghost use Rattle.descriptor_parse.specs.Items.{ItemValue};
ghost use Rattle.descriptor_parse.specs.Faults.{all_items};
ghost use Rattle.field_details.specs.declared.naming.Naming.{Naming};

use crate::applications::Applications;
use crate::around::{Around, application_of};
use crate::collection::Collection;
use crate::detail::Detail;
use crate::names::Names;
use crate::placed::{PlacedFields, Question};
use crate::report::{Reports, ReportsOf};
use descriptor_parse::Kind;
use std::alloc::Global;

/// What a report descriptor declares, padding among it.
///
/// `fields` are all data items that take a bit, in order of declaration: those that are not Constant are the fields of
/// `descriptor_parse::Descriptor`, in its order, and the others are padding. A collection is known by its number, which is
/// its place in `collections`.
#[derive(Debug, Drop)]
pub struct Details {
    /// The data items that take a bit.
    pub fields: Vec<Detail>,
    /// The collections, in order of declaration.
    pub collections: Vec<Collection>,
    pub(crate) names: Names,
}

impl Details {
    ghost use Rattle.field_details.specs.Around.{Tells, around, application};
    ghost use Rattle.field_details.specs.Names.{field_names, collection_names};
    ghost use Rattle.field_details.specs.representation.Named.{TellsNames};
    ghost use Rattle.field_details.specs.Reports.{data_fields, padding, report, reports, reports_of, applications, applications_of};

    pub(crate) fn new(alloc: Global) -> Details
        ensures fields { result.fields.items ≡ [] }
        ensures collections { result.collections.items ≡ [] }
        ensures names { TellsNames [] result }
    {
        Details {
            fields: Vec::new(alloc),
            collections: Vec::new(alloc),
            names: Names::new(alloc),
        }
    }

    /// The number of the innermost Application collection around a data item, if it is in one.
    pub fn application(&self, place: usize) -> Option<usize>
        ensures { (items : List ItemValue) → Tells items self.now → result ≡ application items place }
    {
        application_of(&self.fields, &self.collections, place)
    }

    /// The numbers of the collections around a data item, outermost first; none where there is no such item.
    pub fn around(&self, place: usize) -> Around<'_>
        ensures { (items : List ItemValue) → Tells items self.now → result ≡ around items place }
    {
        Around::new(&self.fields, &self.collections, place)
    }

    /// The data items that are no padding: those that `descriptor_parse::Descriptor::fields` has, in its order.
    pub fn data_fields(&self) -> PlacedFields<'_>
        ensures { result ≡ data_fields self.now.fields.items }
    {
        PlacedFields::new(Question::Data, &self.fields, &self.collections)
    }

    /// The Constant data items, in order: padding.
    pub fn padding(&self) -> PlacedFields<'_>
        ensures { result ≡ padding self.now.fields.items }
    {
        PlacedFields::new(Question::Padding, &self.fields, &self.collections)
    }

    /// The data items of one report in order, padding among them. The ID is 0 where none is used.
    pub fn report(&self, kind: Kind, id: u32) -> PlacedFields<'_>
        ensures { result ≡ report kind id self.now.fields.items }
    {
        PlacedFields::new(Question::Report(kind, id), &self.fields, &self.collections)
    }

    /// All reports, in order of their first data items.
    pub fn reports(&self) -> Reports<'_>
        ensures { (items : List ItemValue) → Tells items self.now → result ≡ reports items }
    {
        Reports::new(&self.fields, &self.collections)
    }

    /// The Application collections with their places in `collections`, in order.
    pub fn applications(&self) -> Applications<'_>
        ensures { result ≡ applications self.now.collections.items }
    {
        Applications::new(None, &self.fields, &self.collections)
    }

    /// The reports that have a data item in an application, innermost, in order of their first data items in it. One report
    /// may be of several. The application is given by its place in `collections`.
    pub fn reports_of(&self, application: usize) -> ReportsOf<'_>
        ensures { (items : List ItemValue) → Tells items self.now → result ≡ reports_of items application }
    {
        ReportsOf::new(&self.fields, &self.collections, application)
    }

    /// The applications that the data items of a report belong to, with their places in `collections`, in order. There can be
    /// several, as there can be data items outside of all.
    pub fn applications_of(&self, kind: Kind, id: u32) -> Applications<'_>
        ensures { (items : List ItemValue) → Tells items self.now → result ≡ applications_of items kind id }
    {
        Applications::new(Some((kind, id)), &self.fields, &self.collections)
    }

    /// The strings of a data item, as ranges of string indices, first and last of each: those that the Local items since the
    /// Main item before it declare, in order. A String Index is a range of its own, and so is a String Minimum with the Maximum
    /// after it. A Minimum or Maximum without its other half gives none; where the Minimum is over the Maximum, both are given
    /// as they stand (HID 1.11, 6.2.2.8). It is empty where there is no such data item.
    pub fn strings(&self, place: usize) -> &[(u32, u32)]
        ensures { (text : Bytes) → TellsNames (all_items text) self.now → result.now ≡ field_names Naming.Strings (all_items text) place }
    {
        self.names.strings.of_field(place)
    }

    /// The designators of a data item, as [`strings`](Details::strings) gives strings: indices in the physical descriptor.
    pub fn designators(&self, place: usize) -> &[(u32, u32)]
        ensures { (text : Bytes) → TellsNames (all_items text) self.now → result.now ≡ field_names Naming.Designators (all_items text) place }
    {
        self.names.designators.of_field(place)
    }

    /// The strings of a collection.
    pub fn collection_strings(&self, number: usize) -> &[(u32, u32)]
        ensures { (text : Bytes) → TellsNames (all_items text) self.now → result.now ≡ collection_names Naming.Strings (all_items text) number }
    {
        self.names.strings.of_collection(number)
    }

    /// The designators of a collection.
    pub fn collection_designators(&self, number: usize) -> &[(u32, u32)]
        ensures { (text : Bytes) → TellsNames (all_items text) self.now → result.now ≡ collection_names Naming.Designators (all_items text) number }
    {
        self.names.designators.of_collection(number)
    }
}
