//! Values of Global items, which Push saves and Pop puts in force again (HID 1.11, 6.2.2.7).

ghost use Rattle.std.specs.Prelude.{◌≡◌, List, [], ◌∷◌, OnOk};
ghost use Rattle.descriptor_parse.specs.Items.{ItemValue};
ghost use Rattle.descriptor_parse.specs.Tags.{tag_of};
ghost use Rattle.descriptor_parse.specs.representation.StackRefines.{StackRefines};
ghost use Rattle.descriptor_parse.specs.declared.tag.Tag.{Tag};
ghost use Rattle.descriptor_parse.specs.declared.tag.GlobalTag.{GlobalTag};

use std::alloc::{AllocError, Global};

/// The values in force, and those of the Pushes that are still to be popped, the latest last.
#[derive(Debug, Drop)]
pub struct Stack<T: Drop> {
    /// Those in force.
    pub now: T,
    /// Those that are saved.
    pub saved: Vec<T>,
}

impl<T: Copy + Drop> Stack<T> {
    /// These values, and none saved.
    pub fn new(alloc: Global, now: T) -> Stack<T>
        ensures { (values : List ItemValue → T) → now ≡ values [] → StackRefines values [] result }
    {
        Stack {
            now,
            saved: Vec::new(alloc),
        }
    }

    /// Saves the values in force.
    #[inline(always)]
    pub fn save(&mut self) -> Result<(), AllocError>
        ensures { OnOk result ((values : List ItemValue → T) (before : List ItemValue) (item : ItemValue)
            → ((items : List ItemValue) → values (item ∷ items) ≡ values items)
            → tag_of item.prefix ≡ Tag.Global GlobalTag.Push → StackRefines values before self.old → StackRefines values (item ∷ before) self.new) }
    {
        self.saved.push(self.now)?;
        Ok(())
    }

    /// Puts the latest saved values in force again, if there are any.
    pub fn restore(&mut self)
        ensures { (values : List ItemValue → T) (before : List ItemValue) (item : ItemValue) → tag_of item.prefix ≡ Tag.Global GlobalTag.Pop
            → StackRefines values before self.old → StackRefines values (item ∷ before) self.new }
    {
        match self.saved.pop() {
            Some(values) => self.now = values,
            None => {}
        }
    }
}
