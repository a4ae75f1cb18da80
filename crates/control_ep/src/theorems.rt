//! What the definitions of this crate say together.

ghost use Rattle.std.specs.Prelude.{◌≡◌, ℕ, ◌*◌, List, ◌∷◌, take};
ghost use Rattle.control_ep.specs.Packets.{joined_packets};
ghost use Rattle.control_ep.specs.Calls.{EpCall};
ghost use Rattle.control_ep.specs.Stage.{stage};
ghost use Rattle.control_ep.specs.Moves.{stage_then};
ghost use Rattle.control_ep.specs.Relation.{AllAnswered};

/// The packets of a read, put together, are the bytes that are sent: those of the data, no more than
/// were asked for.
pub fn packets_joined()
    ensures { (bytes : List ℕ) (asked n : ℕ)
        → joined_packets bytes asked n ≡ take (8 * n) (take asked bytes) }
{}

/// What each call does to the stage: where each call was answered by the tables, the stage that the
/// history function finds after one more call is `stage_then` of the stage before it.
#[tactic(auto, using(crate::proofs::Next::stage_moves))]
pub fn stage_moves()
    ensures { (past : List EpCall) (call : EpCall) → AllAnswered (call ∷ past)
        → stage (call ∷ past) ≡ stage_then (stage past) call }
{}
