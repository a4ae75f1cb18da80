//! The held keys after the edges of a scan, and the bytes of the reports for them.

ghost use Rattle.std.specs.Prelude.{◌≡◌, true, List};
ghost use Rattle.debounce.specs.declared.debouncer.Edges.{Edges};
ghost use Rattle.layers.specs.representation.HeldRelation.{HeldRefines};
ghost use Rattle.reports.specs.Calls.{PollerCall};
ghost use Rattle.reports.specs.representation.Relation.{Refines, IsMade, IsMadeFor};
ghost use Rattle.key_reports.specs.Calls.{KeyCall};
ghost use Rattle.key_reports.specs.representation.Edges.{with_releases, with_presses, with_edges, Takes};
ghost use Rattle.key_reports.specs.Past.{held_calls, wanted_after};

use debounce::KeySet;
use layers::{Defaults, Held, KeyNo, KeymapOf};
use reports::{Poller, Protocol};

/// Takes the edges of a scan: the releases, then the presses, each by rising number.
pub(crate) fn take_edges<D: Defaults>(
    held: &mut Held,
    keymap: &KeymapOf<D>,
    released: &KeySet,
    pressed: &KeySet,
)
    ensures takes { Takes (with_edges keymap.now (record { released = released.now; pressed = pressed.now })) held.old held.new }
    ensures named { held.new.named ≡ true }
{
    release_all(held, released);
    press_all(held, keymap, pressed);
    held.name_usages();
}

/// Releases these keys, by rising number.
fn release_all(held: &mut Held, released: &KeySet)
    ensures { Takes (with_releases released.now) held.old held.new }
{
    for key in released.keys() {
        held.release(KeyNo::known(key));
    }
}

/// Presses these keys, by rising number.
fn press_all<D: Defaults>(held: &mut Held, keymap: &KeymapOf<D>, pressed: &KeySet)
    ensures { Takes (with_presses keymap.now pressed.now) held.old held.new }
{
    for key in pressed.keys() {
        held.press(keymap, KeyNo::known(key));
    }
}

/// Makes the bytes of the protocol's reports where those of the other protocol were made last.
pub(crate) fn make_for(poller: &mut Poller, held: &Held, protocol: Protocol)
    requires { held.now.named ≡ true }
    ensures refines { (calls : List PollerCall) → Refines calls poller.old → Refines calls poller.new }
    ensures made { (past : List KeyCall) → HeldRefines (held_calls past) held.now
        → IsMade (wanted_after past) poller.old → IsMadeFor protocol (wanted_after past) poller.new }
{
    if !poller.is_made_for(protocol) {
        make_anew(poller, held, protocol);
    }
}

/// Makes the bytes of the protocol's reports. Rare.
#[inline(never)]
fn make_anew(poller: &mut Poller, held: &Held, protocol: Protocol)
    requires { held.now.named ≡ true }
    ensures refines { (calls : List PollerCall) → Refines calls poller.old → Refines calls poller.new }
    ensures made { (past : List KeyCall) → HeldRefines (held_calls past) held.now
        → IsMadeFor protocol (wanted_after past) poller.new }
{
    poller.make(held.lent(), protocol);
}
