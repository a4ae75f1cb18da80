//! Theorems on the definitions.

ghost use Rattle.std.specs.Prelude.{◌≡◌, ◌++◌, ℕ, List, map, Result, Ok};
ghost use Rattle.descriptor_parse.specs.Items.{ItemValue, items_at};
ghost use Rattle.descriptor_parse.specs.Cut.{IsCut, HasNoItem, cut_off_at};
ghost use Rattle.descriptor_parse.specs.declared.fault.ParseError.{ParseError};
ghost use Rattle.descriptor_parse.specs.Descriptor.{DescriptorValue, Describes};
ghost use Rattle.descriptor_parse.specs.Faults.{all_items, IsFaultless, IsFirstFault};
ghost use Rattle.descriptor_parse.specs.Parse.{Answers, IsOfTheText, AreSame};

/// Each text can be cut into items, as far as it holds whole ones.
pub fn has_cut()
    ensures { (offset : ℕ) (text : List ℕ)
        → (items : List ItemValue) × (end : ℕ) × (rest : List ℕ) × IsCut offset text items end rest × HasNoItem rest }
{}

/// There is one way to cut a text, and the items of a text are those of that cut.
pub fn one_cut()
    ensures { (offset end : ℕ) (text rest : List ℕ) (items : List ItemValue) → IsCut offset text items end rest → HasNoItem rest
        → items_at offset text ≡ map (λ item. Ok item) items ++ cut_off_at end rest }
{}

/// Two answers to one text are the same, want of memory aside. So in whatever pieces a text comes, the first refusal of
/// the parser, or else the answer of its end, is that of `parse` of the whole.
pub fn one_answer()
    ensures { (text : List ℕ) (a b : Result DescriptorValue ParseError) → Answers text a → Answers text b → IsOfTheText a → IsOfTheText b → AreSame a b }
{}

/// A text has one list of fields, with their usages, their bits and whether IDs are used, and one first fault; and it has
/// a first fault only where it is not faultless. So whatever reads it, by a state or by looking back, reads the same.
pub fn one_reading()
    ensures fields { (text : List ℕ) (a b : DescriptorValue) → Describes (all_items text) a → Describes (all_items text) b → AreSame (Ok a) (Ok b) }
    ensures fault { (text : List ℕ) (a b : ParseError) → IsFirstFault text a → IsFirstFault text b → a ≡ b }
    ensures either { (text : List ℕ) (e : ParseError) → IsFaultless text → IsFirstFault text e → ⊥ }
{}
