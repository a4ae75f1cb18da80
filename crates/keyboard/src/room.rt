//! What a keyboard takes memory for.

ghost use Rattle.std.specs.Prelude.{[]};

use key_reports::KeyReports;
use std::alloc::{AllocError, Global};
use std::marker::Model;

/// The memory of a keyboard: room for the reports that wait for a poll. To take it is all that can be
/// refused.
#[derive(Debug, Drop)]
pub struct Room {
    keys: KeyReports,
}

// No report waits in it: its keys stand for no call.
impl Model for Room {
    ghost use Rattle.std.specs.Prelude.{[]};
    ghost use Rattle.key_reports.specs.representation.Value.{KeysValue};
    ghost use Rattle.key_reports.specs.representation.Relation.{Refines};

    ghost Value = { KeysValue };

    ghost view = { λ r. r.keys };

    ghost invariant = { λ r. Refines [] r.keys };
}

impl Room {
    ghost use Rattle.key_reports.specs.representation.Relation.{Refines};

    /// Takes the room of one keyboard. `AllocError` where there is no memory for it.
    pub fn take(alloc: Global) -> Result<Room, AllocError> {
        let keys = KeyReports::new(alloc)?;
        Ok(Room { keys })
    }

    /// The keys and their reports, in this room.
    pub(crate) fn into_keys(self) -> KeyReports
        ensures { Refines [] result }
    {
        self.keys
    }
}
