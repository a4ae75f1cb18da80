//! What a log is asked to do.

ghost use Rattle.std.specs.Prelude.{◌≡◌, ◌↔◌, ◌<◌, ◌^◌, ℕ, List, [], ◌∷◌, None, IsTrue, MatchResult};
ghost use Rattle.page_turnover.specs.Value.{Rest, Append, Wait, Unread};
ghost use Rattle.page_turnover.specs.Turn.{IsWaiting, CanOffer, with_copy, with_seal};

use super::{Log, Target, Task};
use crate::header::LAST_SEQ;
use flash_model::PAGE_SLOTS;

/// Why no compaction was begun.
#[derive(Clone, Copy, Debug, PartialEq, Eq)]
pub enum TurnRefusal {
    /// Slot 0 of a page is not sound.
    Unsound,
    /// The active page has the greatest sequence number, 0FFFFFFFh.
    Worn,
}

impl Log {
    ghost use Rattle.page_turnover.specs.Log.{HasTailRoom};
    ghost use Rattle.page_turnover.specs.representation.Log.{Describes};
    ghost use Rattle.page_turnover.specs.Refusal.{MayTurn, Refuses};

    /// Takes a word to append; the next step programs it.
    pub fn begin_append(&mut self, word: u32)
        requires rests { self.old.task ≡ Rest }
        requires usable { self.old.unsound ≡ None }
        requires room { HasTailRoom self.old }
        ensures pending { self.new ≡ record self.old { task = Append word } }
        ensures describes { (image : List ℕ) → Describes image self.old → Describes image self.new }
    {
        self.task = Task::Append(word);
    }

    /// Begins a compaction to the page after the active one, or to page 0 without one. The compaction then wants
    /// its copies and its commit header. Refused are first `Unsound` and then `Worn`, and nothing changes.
    pub fn begin_turn(&mut self) -> Result<(), TurnRefusal>
        requires { self.old.task ≡ Rest }
        ensures begun { MatchResult result
            (λ _. MayTurn self.old × (self.new ≡ record self.old { task = Wait Unread }))
            (λ why. Refuses self.old why × (self.new ≡ self.old)) }
        ensures describes { (image : List ℕ) → Describes image self.old → Describes image self.new }
    {
        self.may_turn()?;
        self.task = Task::Wait(Target::Unread);
        Ok(())
    }

    /// Whether a compaction may begin, or the first reason why not.
    fn may_turn(&self) -> Result<(), TurnRefusal>
        ensures { MatchResult result (λ _. MayTurn self.now) (λ why. Refuses self.now why) }
    {
        if self.unsound.is_some() {
            return Err(TurnRefusal::Unsound);
        }
        match self.active {
            Some(active) if active.seq == LAST_SEQ => Err(TurnRefusal::Worn),
            Some(_) | None => Ok(()),
        }
    }

    /// Whether a compaction is under way, and neither a copy nor its commit header is pending.
    pub fn wants(&self) -> bool
        ensures { IsTrue result ↔ IsWaiting self.now.task }
    {
        match self.task {
            Task::Wait(_) => true,
            Task::Rest | Task::Append(_) | Task::Copy(..) | Task::Seal(_) => false,
        }
    }

    /// Whether a compaction is under way that wants a copy or its commit header and has made fewer than 511 copies,
    /// so that it can take one more.
    pub fn wants_copy(&self) -> bool
        ensures { IsTrue result ↔ CanOffer self.now.task }
    {
        match self.task {
            Task::Wait(Target::Holds(copied)) => copied < PAGE_SLOTS as u16 - 1,
            Task::Wait(Target::Unread) => true,
            Task::Rest | Task::Append(_) | Task::Copy(..) | Task::Seal(_) => false,
        }
    }

    /// Offers the next word to copy to a compaction that wants one and has made fewer than 511 copies
    /// (`wants_copy`); the next step that does not erase the target programs it.
    pub fn offer_copy(&mut self, word: u32)
        requires { CanOffer self.old.task }
        ensures pending { self.new ≡ record self.old { task = with_copy self.old.task word } }
        ensures describes { (image : List ℕ) → Describes image self.old → Describes image self.new }
    {
        if let Task::Wait(target) = self.task {
            self.task = Task::Copy(target, word);
        }
    }

    /// Ends the copies of a compaction that wants one: the header is next, and commits the compaction.
    pub fn seal(&mut self)
        requires { IsWaiting self.old.task }
        ensures pending { self.new ≡ record self.old { task = with_seal self.old.task } }
        ensures describes { (image : List ℕ) → Describes image self.old → Describes image self.new }
    {
        if let Task::Wait(target) = self.task {
            self.task = Task::Seal(target);
        }
    }
}
