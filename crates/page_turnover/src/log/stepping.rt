//! The steps of a log: one flash operation each.

ghost use Rattle.std.specs.Prelude.{◌≡◌, ◌≢◌, ◌⊎◌, ◌↔◌, ◌+◌, ◌-◌, ◌%◌, ◌<◌, ◌≤◌, ◌^◌, ℕ, List, None, Some, Option, MatchOption, IsSomeAnd, ⊤};
ghost use Rattle.flash_model.specs.Image.{page_count};
ghost use Rattle.page_turnover.specs.declared.operation.Operation.{Operation};
ghost use Rattle.page_turnover.specs.Usable.{IsUsable};
ghost use Rattle.page_turnover.specs.Value.{Rest, Wait, Copy, Holds};
ghost use Rattle.page_turnover.specs.representation.Value.{target_value, task_value};
ghost use Rattle.page_turnover.specs.Turn.{target_page, copied, HasShortWord, IsAppend, HasOffer, CanOffer, with_copy};
ghost use Rattle.page_turnover.specs.Next.{is_ready, TakesNext};
ghost use Rattle.page_turnover.specs.representation.Made.{IsPassedOver};
ghost use Rattle.page_turnover.specs.representation.Turn.{task_of};

use super::{ActivePage, Log, Target, Task};
use crate::attempt::{erase, program};
use crate::header::{FORMAT, header};
use crate::reading::{is_blank, is_free};
use flash_model::{NorFlash, PAGE_SLOTS};

/// What a step did.
#[derive(Clone, Copy, Debug, PartialEq, Eq)]
#[must_use]
pub enum Step {
    /// Nothing is pending, and no operation was made.
    Idle,
    /// An operation was made, and the words are as before.
    Moved,
    /// The record or the header is Good.
    Committed,
    /// The flash answered a fault, and the slot or page does not read as intended. Nothing is under
    /// way any more, and the words are as before.
    Failed,
}

impl Log {
    ghost use Rattle.page_turnover.specs.representation.Log.{Describes};
    ghost use Rattle.page_turnover.specs.Next.{next_operation, on_flash};
    ghost use Rattle.page_turnover.specs.Operates.{Operates, MayOperate, FillsAtMostOne};
    ghost use Rattle.page_turnover.specs.Steps.{EndsAs, AttemptsNext, CountsAs, Moves, Commits, IsStep};

    /// Makes the one operation that is pending, or none where nothing is.
    ///
    /// The flash has to be the one that the log describes. A compaction first erases its target if that is
    /// not blank, and what is pending stays so. A copy goes to the slot after those made before it,
    /// from slot 1 on. The commit header programs slot 0 with the header of the next sequence number, 1 without
    /// an active page, in format 2, which commits the compaction: the copies are then the words.
    ///
    /// After a fault the slot or the page is read back. Where it reads as intended the operation
    /// counts as done; where it does not, and only there, the answer is `Failed`. The words are then
    /// as before; an append or a compaction has to be begun anew, and a compaction then erases what it wrote.
    pub fn step<F: NorFlash>(&mut self, flash: &mut F) -> Step
        requires { Describes (F.image flash.old) self.old }
        // the log describes the flash again, and has done what was pending, or nothing of it
        ensures ends { EndsAs (F.image flash.old) self.old result (F.image flash.new) self.new }
        // the operation that was next is made; Failed exactly where it does not read as intended
        ensures attempts { AttemptsNext (next_operation (F.image flash.old) self.old) (F.image flash.old) (result ≡ Step.Idle) (result ≡ Step.Failed) (F.image flash.new) }
        ensures untouched { result ≡ Step.Idle → flash.new ≡ flash.old }
        // what the answers mean for the words
        ensures moved { result ≡ Step.Moved → Moves (F.image flash.old) self.old.task (F.image flash.new) self.new.task }
        ensures committed { result ≡ Step.Committed → Commits (F.image flash.old) self.old.task (F.image flash.new) }
        // a flash with an unsound slot 0 is never written, and no other gets one
        ensures usable { IsUsable (F.image flash.old) → IsUsable (F.image flash.new) }
        ensures unusable { (IsUsable (F.image flash.old) → ⊥) → result ≡ Step.Idle }
        // what the operation is, whole and torn
        ensures operates { result ≢ Step.Idle → result ≢ Step.Failed → Operates (F.image flash.old) (F.image flash.new) }
        ensures torn { result ≡ Step.Failed → MayOperate (F.image flash.old) (F.image flash.new) }
        ensures fills { FillsAtMostOne (F.image flash.old) (F.image flash.new) }
        ensures counts { CountsAs (result ≡ Step.Idle) (result ≡ Step.Failed) (F.operations flash.old) (F.operations flash.new) (F.faults flash.old) (F.faults flash.new) }
        // each healthy flash takes a word whose bit 31 is clear, and each header is one; other words only where it says so
        ensures faultless { (n : ℕ) → F.is_faultless flash.old (n + 1) → HasShortWord self.old.task ⊎ TakesNext (F.takes_also flash.old) (F.image flash.old) self.old
            → (result ≢ Step.Idle → F.is_faultless flash.new n) × (result ≢ Step.Failed) }
        // what this flash says of that operation
        ensures operated { (operation : Operation) → next_operation (F.image flash.old) self.old ≡ Some operation → F.operates flash.old (on_flash operation) flash.new }
    {
        match self.task {
            Task::Rest | Task::Wait(_) => Step::Idle,
            Task::Append(_) => self.step_append(flash),
            Task::Copy(..) | Task::Seal(_) => self.step_turn(flash),
        }
    }

    /// Makes the append that is under way, as `step` does.
    pub fn step_append<F: NorFlash>(&mut self, flash: &mut F) -> Step
        requires describes { Describes (F.image flash.old) self.old }
        requires appends { IsAppend self.old.task }
        ensures steps { IsStep (F.image flash.old) self.old result (F.image flash.new) self.new }
        ensures counts { CountsAs (result ≡ Step.Idle) (result ≡ Step.Failed) (F.operations flash.old) (F.operations flash.new) (F.faults flash.old) (F.faults flash.new) }
        ensures faultless { (n : ℕ) → F.is_faultless flash.old (n + 1) → HasShortWord self.old.task ⊎ TakesNext (F.takes_also flash.old) (F.image flash.old) self.old → F.is_faultless flash.new n × (result ≢ Step.Failed) }
        ensures operated { (operation : Operation) → next_operation (F.image flash.old) self.old ≡ Some operation → F.operates flash.old (on_flash operation) flash.new }
    {
        let Task::Append(word) = self.task else {
            unreachable!()
        };
        let Some(active) = self.active else {
            unreachable!()
        };
        if !program(flash, active.page, active.tail, word) {
            return self.fail(flash);
        }
        use_tail(&mut self.active);
        self.task = Task::Rest;
        Step::Committed
    }

    /// Offers the next word to copy to a compaction that wants one and has made fewer than 511 copies, and makes the step:
    /// `offer_copy` and `step` as one call.
    #[inline(always)]
    pub fn step_copy<F: NorFlash>(&mut self, flash: &mut F, word: u32) -> Step
        requires describes { Describes (F.image flash.old) self.old }
        requires can { CanOffer self.old.task }
        ensures steps { IsStep (F.image flash.old) (record self.old { task = with_copy self.old.task word }) result (F.image flash.new) self.new }
        ensures counts { CountsAs (result ≡ Step.Idle) (result ≡ Step.Failed) (F.operations flash.old) (F.operations flash.new) (F.faults flash.old) (F.faults flash.new) }
        ensures faultless { (n : ℕ) → F.is_faultless flash.old (n + 1) → HasShortWord (with_copy self.old.task word) ⊎ TakesNext (F.takes_also flash.old) (F.image flash.old) (record self.old { task = with_copy self.old.task word })
            → F.is_faultless flash.new n × (result ≢ Step.Failed) }
        ensures operated { (operation : Operation) → next_operation (F.image flash.old) (record self.old { task = with_copy self.old.task word }) ≡ Some operation → F.operates flash.old (on_flash operation) flash.new }
    {
        if let Task::Wait(Target::Holds(copied)) = self.task {
            return self.put(flash, copied, word);
        }
        self.offer_copy(word);
        self.step_turn(flash)
    }

    /// Makes the copy or the commit header that a compaction was offered, as `step` does.
    pub fn step_turn<F: NorFlash>(&mut self, flash: &mut F) -> Step
        requires describes { Describes (F.image flash.old) self.old }
        requires offered { HasOffer self.old.task }
        ensures steps { IsStep (F.image flash.old) self.old result (F.image flash.new) self.new }
        ensures counts { CountsAs (result ≡ Step.Idle) (result ≡ Step.Failed) (F.operations flash.old) (F.operations flash.new) (F.faults flash.old) (F.faults flash.new) }
        ensures faultless { (n : ℕ) → F.is_faultless flash.old (n + 1) → HasShortWord self.old.task ⊎ TakesNext (F.takes_also flash.old) (F.image flash.old) self.old → F.is_faultless flash.new n × (result ≢ Step.Failed) }
        ensures operated { (operation : Operation) → next_operation (F.image flash.old) self.old ≡ Some operation → F.operates flash.old (on_flash operation) flash.new }
    {
        let (target, next) = offer_of(self.task);
        let page = self.target(flash);
        if !is_ready(flash, page, target) {
            if !erase(flash, page) {
                return self.fail(flash);
            }
            self.task = task_of(Target::Holds(0), next);
            return Step::Moved;
        }
        let slot = copies_of(target) + 1;
        match next {
            Some(word) => {
                if !program(flash, page, slot, word) {
                    return self.fail(flash);
                }
                self.task = Task::Wait(Target::Holds(slot));
                Step::Moved
            }
            None => {
                let seq = self.next_seq();
                if !program(flash, page, 0, header(seq)) {
                    return self.fail(flash);
                }
                self.active = Some(ActivePage {
                    page,
                    seq,
                    format: FORMAT,
                    tail: slot,
                });
                self.task = Task::Rest;
                Step::Committed
            }
        }
    }

    /// A copy goes to the slot after those before it.
    #[inline(always)]
    fn put<F: NorFlash>(&mut self, flash: &mut F, copied: u16, word: u32) -> Step
        requires describes { Describes (F.image flash.old) self.old }
        requires waits { self.old.task ≡ Wait (Holds copied) }
        requires few { copied < 511 }
        ensures steps { IsStep (F.image flash.old) (record self.old { task = Copy (Holds copied) word }) result (F.image flash.new) self.new }
        ensures counts { CountsAs (result ≡ Step.Idle) (result ≡ Step.Failed) (F.operations flash.old) (F.operations flash.new) (F.faults flash.old) (F.faults flash.new) }
        ensures faultless { (n : ℕ) → F.is_faultless flash.old (n + 1) → (word < 2 ^ 31) ⊎ TakesNext (F.takes_also flash.old) (F.image flash.old) (record self.old { task = Copy (Holds copied) word }) → F.is_faultless flash.new n × (result ≢ Step.Failed) }
        ensures operated { (operation : Operation) → next_operation (F.image flash.old) (record self.old { task = Copy (Holds copied) word }) ≡ Some operation → F.operates flash.old (on_flash operation) flash.new }
    {
        let page = self.target(flash);
        if !program(flash, page, copied + 1, word) {
            return self.fail(flash);
        }
        self.task = Task::Wait(Target::Holds(copied + 1));
        Step::Moved
    }

    /// Ends what is under way: its operation does not read as intended.
    fn fail<F: NorFlash>(&mut self, flash: &F) -> Step
        requires { MatchOption self.old.active ⊤ (λ a. a.page < page_count (F.image flash.now)) }
        ensures active { MatchOption self.old.active (self.new.active ≡ None) (λ a. IsSomeAnd self.new.active (λ b. IsPassedOver (F.image flash.now) a b)) }
        ensures unsound { self.new.unsound ≡ self.old.unsound }
        ensures rests { self.new.task ≡ Rest }
        ensures failed { result ≡ Step.Failed }
    {
        if let Some(active) = &mut self.active {
            pass_over(flash, active);
        }
        self.task = Task::Rest;
        Step::Failed
    }

    /// The page that a compaction writes.
    fn target<F: NorFlash>(&self, flash: &F) -> u8
        requires { Describes (F.image flash.now) self.now }
        ensures page { result ≡ target_page (F.image flash.now) }
        ensures in_pages { result < page_count (F.image flash.now) }
    {
        let pages = flash.pages();
        match self.active {
            Some(active) => page_after(active.page, pages),
            None => 0,
        }
    }

    /// The sequence number of the next header.
    fn next_seq(&self) -> u32
        requires { MatchOption self.now.active ⊤ (λ a. a.seq < 2 ^ 28) }
        ensures { MatchOption self.now.active (result ≡ 1) (λ a. result ≡ a.seq + 1) }
    {
        match self.active {
            Some(active) => active.seq + 1,
            None => 1,
        }
    }
}

/// The page after this one, from the last on to page 0 again.
fn page_after(page: u8, pages: usize) -> u8
    requires inside { page < pages }
    requires few { pages ≤ 8 }
    ensures { result ≡ (page + 1) % pages }
{
    let next = page + 1;
    if (next as usize) < pages { next } else { 0 }
}

/// Passes over the tail slot of the active page after a fault, if it is no longer Free.
fn pass_over<F: NorFlash>(flash: &F, active: &mut ActivePage)
    requires { active.old.page < page_count (F.image flash.now) }
    ensures { IsPassedOver (F.image flash.now) active.old active.new }
{
    if active.tail < PAGE_SLOTS as u16
        && !is_free(flash, active.page as usize, active.tail as u32)
    {
        active.tail += 1;
    }
}

/// One slot more of the active page is used.
#[inline(always)]
fn use_tail(active: &mut Option<ActivePage>)
    requires { MatchOption active.old ⊤ (λ a. a.tail < 2 ^ 16 - 1) }
    ensures { MatchOption active.old ⊤ (λ a. active.new ≡ Some (record a { tail = a.tail + 1 })) }
{
    if let Some(active) = active {
        active.tail += 1;
    }
}

/// What a compaction was offered: its target, and the word to copy, or none for its commit header.
#[inline(always)]
fn offer_of(task: Task) -> (Target, Option<u32>)
    requires { HasOffer (task_value task) }
    ensures { task_value task ≡ task_of (target_value result.0) result.1 }
{
    match task {
        Task::Copy(target, word) => (target, Some(word)),
        Task::Seal(target) => (target, None),
        Task::Rest | Task::Append(_) | Task::Wait(_) => unreachable!(),
    }
}

/// A compaction to this target that was offered a word to copy, or its commit header.
#[inline(always)]
fn task_of(target: Target, next: Option<u32>) -> Task
    ensures { task_value result ≡ task_of (target_value target) next }
{
    match next {
        Some(word) => Task::Copy(target, word),
        None => Task::Seal(target),
    }
}

/// How many copies a compaction's target holds.
fn copies_of(target: Target) -> u16
    ensures { result ≡ copied (target_value target) }
{
    match target {
        Target::Holds(copied) => copied,
        Target::Unread => 0,
    }
}

/// Whether a compaction's target holds its copies, or is blank before the first: else it is erased.
fn is_ready<F: NorFlash>(flash: &F, page: u8, target: Target) -> bool
    requires in_pages { page < page_count (F.image flash.now) }
    requires is_target { page ≡ target_page (F.image flash.now) }
    ensures { result ≡ is_ready (F.image flash.now) (target_value target) }
{
    match target {
        Target::Holds(_) => true,
        Target::Unread => is_blank(flash, page as usize),
    }
}
