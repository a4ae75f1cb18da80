//! The keymap in RAM and in flash.

ghost use Rattle.std.specs.Prelude.{◌≡◌, ◌≢◌, ◌+◌, ◌%◌, ◌^◌, ◌≤◌, ◌↔◌, ℕ, List, [], Option, None, Some, Ok, false, unwrap_or, is_none};
ghost use Rattle.flash_model.specs.Image.{page_count};
ghost use Rattle.layers.specs.declared.code.TheConstants.{ENTRIES};
ghost use Rattle.layers.specs.Commands.{IsCommand};
ghost use Rattle.layers.specs.declared.command.Command.{Command};
ghost use Rattle.layers.specs.Formats.{command_by_format};
ghost use Rattle.layers.specs.Keymaps.{HasEntries, Refines};
ghost use Rattle.page_turnover.specs.Active.{format};
ghost use Rattle.page_turnover.specs.Usable.{IsUsable};
ghost use Rattle.page_turnover.specs.representation.Log.{Describes};
ghost use Rattle.keymap_store.specs.Keymap.{entries_of};
ghost use Rattle.keymap_store.specs.representation.Store.{OffersBelow};
ghost use Rattle.keymap_store.specs.representation.Offers.{CanGoOn, GoesOn};
ghost use Rattle.page_turnover.specs.declared.log.stepping.Step.{Step};
ghost use Rattle.page_turnover.specs.Next.{on_flash};
ghost use Rattle.page_turnover.specs.Steps.{CountsAs};
ghost use Rattle.keymap_store.specs.declared.store.Job.{Job};
ghost use Rattle.keymap_store.specs.declared.store.Taken.{Taken};
ghost use Rattle.keymap_store.specs.declared.store.Work.{Work};

use crate::command_word::CommandWord;
use flash_model::NorFlash;
use layers::{Command, Defaults, KeymapOf, Standard};
use page_turnover::{Log, Step};
use std::marker::Model;

/// What became of a command that was taken.
#[derive(Clone, Copy, Debug, PartialEq, Eq)]
#[must_use]
pub enum Taken {
    /// It changes nothing, and is done.
    Settled,
    /// It works: it is done at the `work` that answers Settled.
    Working,
}

/// Why a command was not taken.
#[derive(Clone, Copy, Debug, PartialEq, Eq)]
pub enum SubmitRefusal {
    /// Another command works.
    Busy,
    /// Slot 0 of a page is not sound, so nothing is written.
    Unsound,
    /// The active page is full and has the greatest sequence number, 0FFFFFFFh.
    Worn,
}

/// What a call of `work` did.
#[derive(Clone, Copy, Debug, PartialEq, Eq)]
#[must_use]
pub enum Work {
    /// No command works, and no flash operation was made.
    Idle,
    /// One flash operation was made, and the command works on.
    Working,
    /// The command's record is in flash, and the keymap is changed.
    Settled,
    /// The flash answered a fault, and its slot or page does not read as intended. The command is
    /// gone, and the keymap is as before.
    Failed,
}

/// What a store has under way.
#[derive(Clone, Copy, Debug)]
pub enum Job {
    /// Nothing.
    Resting,
    /// The append of a command's record.
    Appending(CommandWord),
    /// A compaction to a page with the entries that differ from the default, which makes room for the
    /// command; those below a place were offered.
    Turning { command: CommandWord, from: u16 },
}

/// A keymap in RAM, kept equal to that of a flash's image, with these defaults.
#[derive(Debug, Drop)]
pub struct StoreOf<D: Defaults> {
    log: Log,
    keymap: KeymapOf<D>,
    job: Job,
}

/// A store with the standard defaults.
pub type Store = StoreOf<Standard>;

impl<D: Defaults> Model for StoreOf<D> {
    ghost use Rattle.keymap_store.specs.Value.{StoreValue};

    ghost Value = { StoreValue };

    ghost view = { λ s. record { log = s.log; keymap = s.keymap; job = s.job } };
}

impl<D: Defaults> StoreOf<D> {
    ghost use Rattle.keymap_store.specs.Store.{working};
    ghost use Rattle.keymap_store.specs.representation.Store.{Mirrors};
    ghost use Rattle.keymap_store.specs.Submits.{Submits};
    ghost use Rattle.keymap_store.specs.Next.{next_operation_of};
    ghost use Rattle.keymap_store.specs.Works.{WorkLeaves, CountsDown};
    ghost use Rattle.keymap_store.specs.Left.{left, Needs};
    ghost use Rattle.keymap_store.specs.Operations.{operations_of};
    ghost use Rattle.keymap_store.specs.representation.Rest.{rest_of, TakesFirst};
    ghost use Rattle.page_turnover.specs.declared.operation.Operation.{Operation};

    /// Reads log and keymap of a flash, and changes nothing.
    pub fn mount<F: NorFlash>(flash: &F) -> StoreOf<D>
        ensures mirrors { Mirrors D.defaults (F.image flash.now) result }
        ensures rests { working result.job ≡ None }
    {
        let log = Log::mount(flash);
        let mut keymap = KeymapOf::standard();
        take_words(&mut keymap, &log, flash);
        StoreOf {
            log,
            keymap,
            job: Job::Resting,
        }
    }

    /// Leaves what `mount` gives on this flash, where the store lies: nothing of it is moved.
    pub fn remount<F: NorFlash>(&mut self, flash: &F)
        ensures mirrors { Mirrors D.defaults (F.image flash.now) self.new }
        ensures rests { working self.new.job ≡ None }
    {
        self.log = Log::mount(flash);
        self.job = Job::Resting;
        self.keymap.set_standard();
        take_words(&mut self.keymap, &self.log, flash);
    }

    /// The keymap: that of the flash's image.
    pub fn keymap(&self) -> &KeymapOf<D>
        ensures held { result.now ≡ self.now.keymap }
        ensures refines { (image : List ℕ) → Mirrors D.defaults image self.now → HasEntries (entries_of D.defaults image) result.now }
    {
        &self.keymap
    }

    /// Whether no page of the flash has a header yet: nothing was stored on it since it was erased.
    pub fn is_first_start(&self) -> bool
        ensures { (image : List ℕ) → Mirrors D.defaults image self.now → result ≡ is_none (format image) }
    {
        self.log.format().is_none()
    }

    /// Whether a command works.
    pub fn busy(&self) -> bool
        ensures { (image : List ℕ) → Mirrors D.defaults image self.now → ((result ≡ false) ↔ (working self.now.job ≡ None)) }
    {
        self.log.busy()
    }

    /// Takes a command. In this order: `Busy` where a command works, `Unsound` where slot 0 of a page
    /// is not sound, Settled at once where the command changes nothing, `Worn` where there is no room
    /// and the active page has the greatest sequence number, and else Working.
    ///
    /// There is room where the active page is of format 2 and its last slot is Free. A command that
    /// works needs one flash operation with room. Without room it needs one for each entry that
    /// differs from the default, two for header and record, and one more where the page after the
    /// active one is not blank: at most 387.
    #[tactic(auto, using(crate::proofs::Counting::few_left))]
    pub fn submit(&mut self, command: Command) -> Result<Taken, SubmitRefusal>
        // when each answer comes
        ensures submits { (image : List ℕ) → Mirrors D.defaults image self.old → Submits D.defaults image self.old.job command result }
        // the keymap is still that of the flash's image
        ensures mirrors { (image : List ℕ) → Mirrors D.defaults image self.old → Mirrors D.defaults image self.new }
        // a command that works is this one, and changes the keymap only once it is settled
        ensures taken { result ≡ Ok Taken.Working → (working self.new.job ≡ Some command) × (self.new.keymap ≡ self.old.keymap) }
        // every other answer changes nothing
        ensures unchanged { result ≢ Ok Taken.Working → self.new ≡ self.old }
        // how many flash operations it needs
        ensures needs { (image : List ℕ) → Mirrors D.defaults image self.old → result ≡ Ok Taken.Working → Needs D.defaults image (left D.defaults image self.new) }
        ensures few { (image : List ℕ) → left D.defaults image self.new ≤ 387 }
        // which ones, in their order
        ensures operations { (image : List ℕ) → Mirrors D.defaults image self.old → result ≡ Ok Taken.Working → rest_of D.defaults image self.new ≡ operations_of D.defaults image command }
    {
        if self.log.busy() {
            return Err(SubmitRefusal::Busy);
        }
        if self.log.usable().is_err() {
            return Err(SubmitRefusal::Unsound);
        }
        // By reference, since it is passed on twice.
        let command = &command;
        if !self.keymap.changes(*command) {
            return Ok(Taken::Settled);
        }
        let command = CommandWord::of(*command);
        if self.log.room() {
            self.log.begin_append(command.word());
            self.job = Job::Appending(command);
        } else {
            match self.log.begin_turn() {
                Ok(()) => {
                    self.job = Job::Turning { command, from: 0 };
                }
                Err(_) => return Err(SubmitRefusal::Worn),
            }
        }
        Ok(Taken::Working)
    }

    /// Makes the one flash operation that the working command needs next, or none where no command
    /// works. The flash has to be the one that the store was mounted on.
    ///
    /// With room the command's record is appended. Without room a compaction comes first, whose copies are
    /// the entries that differ from the default, by rising place, in format 2. `Failed` is answered
    /// where the flash answers a fault and the operation's slot or page does not read as intended, and
    /// only there. Each call that answers Working leaves one operation less to do, and Settled is the
    /// answer to the last one: a command is settled or fails by the 387th call.
    #[tactic(auto, using(crate::proofs::Counting::few_left, crate::proofs::Working::rests_if_unusable, crate::proofs::Ordering::idle_order))]
    pub fn work<F: NorFlash>(&mut self, flash: &mut F) -> Work
        requires { Mirrors D.defaults (F.image flash.old) self.old }
        // what the answer means for the command, the keymap and the flash
        ensures leaves { WorkLeaves D.defaults (F.image flash.old) self.old result (F.image flash.new) self.new }
        // a flash with an unsound slot 0 is never written
        ensures unusable { (IsUsable (F.image flash.old) → ⊥) → result ≡ Work.Idle }
        // what the flash says of that operation
        ensures operated { (operation : Operation) → next_operation_of D.defaults (F.image flash.old) self.old ≡ Some operation → F.operates flash.old (on_flash operation) flash.new }
        ensures untouched { result ≡ Work.Idle → flash.new ≡ flash.old }
        // how many operations are made, and are left to make
        ensures counts { CountsAs (result ≡ Work.Idle) (result ≡ Work.Failed) (F.operations flash.old) (F.operations flash.new) (F.faults flash.old) (F.faults flash.new) }
        ensures down { CountsDown result (left D.defaults (F.image flash.old) self.old) (left D.defaults (F.image flash.new) self.new) }
        // and which are left
        ensures order { TakesFirst result (rest_of D.defaults (F.image flash.old) self.old) (rest_of D.defaults (F.image flash.new) self.new) }
        ensures faultless { (n : ℕ) → F.is_faultless flash.old (n + 1) → (result ≢ Work.Idle → F.is_faultless flash.new n) × (result ≢ Work.Failed) }
    {
        let job = self.job;
        match job {
            Job::Resting => Work::Idle,
            Job::Appending(command) => self.append(flash, command),
            Job::Turning { command, from } => self.turn(flash, command, from),
        }
    }

    /// Appends the record of a command.
    fn append<F: NorFlash>(&mut self, flash: &mut F, command: CommandWord) -> Work
        requires mirrors { Mirrors D.defaults (F.image flash.old) self.old }
        requires job { self.old.job ≡ Job.Appending command }
        ensures leaves { WorkLeaves D.defaults (F.image flash.old) self.old result (F.image flash.new) self.new }
        ensures operated { (operation : Operation) → next_operation_of D.defaults (F.image flash.old) self.old ≡ Some operation → F.operates flash.old (on_flash operation) flash.new }
        ensures counts { CountsAs (result ≡ Work.Idle) (result ≡ Work.Failed) (F.operations flash.old) (F.operations flash.new) (F.faults flash.old) (F.faults flash.new) }
        ensures faultless { (n : ℕ) → F.is_faultless flash.old (n + 1) → F.is_faultless flash.new n × (result ≢ Work.Failed) }
        ensures some { (result ≢ Work.Idle) × (result ≢ Work.Working) }
        ensures order { TakesFirst result (rest_of D.defaults (F.image flash.old) self.old) (rest_of D.defaults (F.image flash.new) self.new) }
    {
        self.job = Job::Resting;
        match self.log.step_append(flash) {
            Step::Committed => {
                self.keymap.apply(command.command());
                Work::Settled
            }
            Step::Failed => Work::Failed,
            Step::Idle | Step::Moved => unreachable!(),
        }
    }

    /// Goes on with a compaction; its commit makes room for the command.
    fn turn<F: NorFlash>(&mut self, flash: &mut F, command: CommandWord, from: u16) -> Work
        requires mirrors { Mirrors D.defaults (F.image flash.old) self.old }
        requires job { self.old.job ≡ Job.Turning command from }
        ensures leaves { WorkLeaves D.defaults (F.image flash.old) self.old result (F.image flash.new) self.new }
        ensures operated { (operation : Operation) → next_operation_of D.defaults (F.image flash.old) self.old ≡ Some operation → F.operates flash.old (on_flash operation) flash.new }
        ensures counts { CountsAs (result ≡ Work.Idle) (result ≡ Work.Failed) (F.operations flash.old) (F.operations flash.new) (F.faults flash.old) (F.faults flash.new) }
        ensures faultless { (n : ℕ) → F.is_faultless flash.old (n + 1) → F.is_faultless flash.new n × (result ≢ Work.Failed) }
        ensures some { (result ≢ Work.Idle) × (result ≢ Work.Settled) }
        ensures fewer { result ≡ Work.Working → left D.defaults (F.image flash.new) self.new + 1 ≡ left D.defaults (F.image flash.old) self.old }
        ensures order { TakesFirst result (rest_of D.defaults (F.image flash.old) self.old) (rest_of D.defaults (F.image flash.new) self.new) }
    {
        match step_turn(&mut self.log, &self.keymap, &mut self.job, flash, from) {
            Step::Moved => Work::Working,
            Step::Committed => {
                self.log.begin_append(command.word());
                self.job = Job::Appending(command);
                Work::Working
            }
            Step::Failed => {
                self.job = Job::Resting;
                Work::Failed
            }
            Step::Idle => unreachable!(),
        }
    }
}

/// Has a compaction look for its next entry from this place on, where the job lies.
#[inline(always)]
fn go_on(job: &mut Job, from: u16)
    ensures { (command : Command) (before : ℕ) → job.old ≡ Job.Turning command before → job.new ≡ Job.Turning command from }
{
    if let Job::Turning { from: place, .. } = job {
        *place = from;
    }
}

/// Makes the next step of a compaction. One that waits is offered the next entry at or after a place that differs from the
/// default, or its commit header where there is none; the job then looks for its next entry behind that one.
#[inline(always)]
fn step_turn<D: Defaults, F: NorFlash>(
    log: &mut Log,
    keymap: &KeymapOf<D>,
    job: &mut Job,
    flash: &mut F,
    from: u16,
) -> Step
    requires describes { Describes (F.image flash.old) log.old }
    requires goes_on { CanGoOn log.old.task }
    requires within { from ≤ ENTRIES }
    ensures steps { (entries : ℕ → ℕ → ℕ) (command : Command) → HasEntries entries keymap.now → OffersBelow D.defaults entries from (F.image flash.old) log.old.task → job.old ≡ Job.Turning command from
        → GoesOn D.defaults entries command (F.image flash.old) log.old result (F.image flash.new) log.new job.new (F.is_faultless flash.old) (F.is_faultless flash.new) (λ operation. F.operates flash.old (on_flash operation) flash.new) }
    ensures counts { CountsAs (result ≡ Step.Idle) (result ≡ Step.Failed) (F.operations flash.old) (F.operations flash.new) (F.faults flash.old) (F.faults flash.new) }
{
    if !log.wants() {
        return log.step_turn(flash);
    }
    match keymap.next_changed(from) {
        Some((place, command)) => {
            go_on(job, place + 1);
            log.step_copy(flash, command.word())
        }
        None => {
            log.seal();
            log.step_turn(flash)
        }
    }
}

/// Takes the words of a log into the default keymap: it is then that of the flash's image.
fn take_words<D: Defaults, F: NorFlash>(keymap: &mut KeymapOf<D>, log: &Log, flash: &F)
    requires describes { Describes (F.image flash.now) log.now }
    requires standard { (format : ℕ) → Refines D.defaults format [] keymap.old }
    ensures { HasEntries (entries_of D.defaults (F.image flash.now)) keymap.new }
{
    let format = log.format();
    for word in log.words(flash) {
        if let Some(command) = command_by_format(format, word) {
            keymap.apply(command);
        }
    }
}

/// The command that a word stands for on a page of this format.
fn command_by_format(format: Option<u8>, word: u32) -> Option<Command>
    ensures { result ≡ command_by_format (unwrap_or format 2) word }
{
    match format {
        Some(1) => Command::from_format_1(word),
        _ => Command::from_word(word),
    }
}
