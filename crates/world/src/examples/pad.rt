//! Default codes of a maker, none of them the standard one of its entry: the guarantee of a keyboard with them.

ghost use Rattle.std.specs.Prelude.{◌≡◌, ◌≢◌, ◌<◌, ℕ, is_ok};
ghost use Rattle.layers.specs.Codes.{layers, keys, default_code};
ghost use Rattle.layers.specs.Standard.{standard};
ghost use Rattle.world.specs.Promise.{Promise};
ghost use Rattle.world.specs.Relation.{Runs, room_for};
ghost use Rattle.world.specs.Pad.{pad, blank_pages, shown_at_first, read_at_first};

use crate::{Answer, Event, WorldOf};
use layers::{Code, Defaults};
use std::alloc::AllocError;

/// Key 0 of layer 0 types the letter b, and every other key does nothing.
#[derive(Clone, Copy, Debug, PartialEq, Eq)]
pub struct Pad {}

impl Defaults for Pad {
    ghost defaults = { pad };

    fn code_at(place: usize) -> Code {
        if place == 0 { letter_b() } else { Code::NONE }
    }

    fn reset(codes: &mut [Code], start: usize, end: usize) {
        for place in start..end {
            codes[place] = Pad::code_at(place);
        }
    }
}

/// The code of the letter b.
fn letter_b() -> Code
    ensures { result ≡ 0x0005 }
{
    match Code::read(0x0005) {
        Ok(code) => code,
        Err(_) => Code::NONE,
    }
}

/// No entry has its standard code.
pub fn none_is_standard()
    ensures { (layer key : ℕ) → layer < layers → key < keys → default_code pad layer key ≢ default_code standard layer key }
{}

/// On a blank flash a look at an entry shows its code: the guarantee of this keyboard holds of that history, and the one of a
/// standard keyboard does not.
pub fn a_look_shows_a_code_of_the_maker()
    ensures holds { (pages : ℕ) → Promise pad (blank_pages pages) (shown_at_first pages) }
    ensures broken { (pages : ℕ) → Promise standard (blank_pages pages) (shown_at_first pages) → ⊥ }
{}

/// The first key is down for five scans, and a host in boot protocol reads the maker's letter: the guarantee of this keyboard
/// holds of that history, and the one of a standard keyboard does not.
pub fn a_host_reads_a_code_of_the_maker()
    ensures holds { (pages : ℕ) → Promise pad (blank_pages pages) (read_at_first pages) }
    ensures broken { (pages : ℕ) → Promise standard (blank_pages pages) (read_at_first pages) → ⊥ }
{}

/// Takes events on such a keyboard, as `WorldOf::run` does: the guarantee holds of the history that they make longer.
pub fn run(
    world: &mut WorldOf<Pad>,
    events: &[Event],
    answers: &mut Vec<Answer>,
) -> Result<(), AllocError>
    ensures { Runs pad (Promise pad) world.old world.new events.now (room_for answers.old) answers.old.items answers.new.items (is_ok result) }
{
    world.run(events, answers)
}
