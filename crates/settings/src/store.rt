//! Settings in flash, and the steps that write them.

ghost use Rattle.std.specs.Prelude.{◌≡◌, ◌≢◌, ◌+◌, ◌<◌, ◌≤◌, ◌^◌, ◌↔◌, ℕ, List, IsTrue, IsOk, Ok, Err, MatchResult, MatchOption, Some, None, IsSome, length, [], ◌∷◌, true, false};
ghost use Rattle.flash_model.specs.Image.{page_count};
ghost use Rattle.page_turnover.specs.Value.{Rest};
ghost use Rattle.page_turnover.specs.representation.Log.{Describes};
ghost use Rattle.settings.specs.declared.store.Job.{Job};
ghost use Rattle.settings.specs.declared.store.Work.{Work};
ghost use Rattle.settings.specs.declared.store.SettingsError.{SettingsError};
ghost use Rattle.settings.specs.Words.{words_of};
ghost use Rattle.settings.specs.Begins.{IsAppended, HasRoomFor};
ghost use Rattle.settings.specs.declared.change.Change.{Change};
ghost use Rattle.settings.specs.Settings.{settings_of, changed, Same};
ghost use Rattle.settings.specs.Copies.{NoneBetween, IsNext};
ghost use Rattle.settings.specs.representation.Store.{AreChanges};

use crate::change::{Change, Value, are_changes};
use crate::lookup::{PAGE_WORDS, all_known, next_value, value_in, words_alive};
use crate::words::{size, word_at};
use flash_model::NorFlash;
use page_turnover::{Log, Step};
use std::marker::Model;

/// Why changes were not stored. All values are as before.
#[derive(Clone, Copy, Debug, PartialEq, Eq)]
pub enum SettingsError {
    /// The value has more than 64 bytes.
    TooLong,
    /// The values that there would be then do not fit on a page.
    Full,
    /// Slot 0 of a page is not sound: something else wrote there.
    Unsound,
    /// The flash holds words of something else, which a compaction would lose.
    Foreign,
    /// A compaction is needed, and the active page has the greatest sequence number, 0FFFFFFFh.
    Worn,
    /// The flash answered a fault, and what was written does not read back. A second try writes
    /// elsewhere.
    Fault,
}

/// What a step did.
#[derive(Clone, Copy, Debug, PartialEq, Eq)]
#[must_use]
pub enum Work {
    /// Nothing is under way, and no flash operation was made.
    Idle,
    /// One flash operation was made, and there are more to make. All values are as before.
    Working,
    /// The changes are stored, and in force.
    Stored,
    /// The flash answered a fault, and what was written does not read back. The changes are gone, and
    /// all values are as before.
    Failed,
}

/// What settings have under way.
#[derive(Clone, Copy, Debug)]
pub enum Job {
    /// Nothing.
    Resting,
    /// The words of one change, of which so many are there.
    Appending(u8),
    /// A compaction to a page with all values: it was given the words of the ids below `from`, and `at` of
    /// those of `from`.
    Turning { from: u32, at: u8 },
}

/// Settings in flash.
///
/// `begin` takes one change or several, and each `step` makes one flash operation for them, until it
/// answers Stored or Failed. Each call has to be lent the flash that was mounted, and each `step` the
/// changes that were begun.
#[derive(Debug, Drop)]
pub struct Settings {
    log: Log,
    job: Job,
}

impl Model for Settings {
    ghost use Rattle.settings.specs.Store.{SettingsValue};

    ghost Value = { SettingsValue };

    ghost view = { λ s. record { log = s.log; job = s.job } };
}

impl Settings {
    ghost use Rattle.settings.specs.Store.{IsBusy};
    ghost use Rattle.settings.specs.representation.Store.{Relation, Refines, IsOffered};
    ghost use Rattle.settings.specs.Begins.{alive, IsRefused, IsAccepted};
    ghost use Rattle.settings.specs.Left.{left, Needs};
    ghost use Rattle.settings.specs.Works.{IsBetween, Gives, GoesTo, GoesOn, Writes, WritesMore, WritesLast, CountsDown, HasMade, Stores};
    ghost use Rattle.settings.specs.Places.{AreWritten, IsCompacted};
    ghost use Rattle.settings.specs.representation.Whole.{Makes};
    ghost use Rattle.settings.specs.Moments.{IsOperation, IsFault};
    ghost use Rattle.page_turnover.specs.Steps.{CountsAs};

    /// Reads the log of a flash, and changes nothing.
    pub fn mount<F: NorFlash>(flash: &F) -> Settings
        ensures refines { (changes : List Change) → Relation (F.image flash.now) changes result }
        ensures rests { IsBusy result.job → ⊥ }
    {
        Settings {
            log: Log::mount(flash),
            job: Job::Resting,
        }
    }

    /// Whether changes are under way.
    pub fn busy(&self) -> bool
        ensures { IsTrue result ↔ IsBusy self.now.job }
    {
        match self.job {
            Job::Resting => false,
            Job::Appending(_) | Job::Turning { .. } => true,
        }
    }

    /// The value of an id, if it has one. It is looked up in the flash.
    pub fn get<F: NorFlash>(&self, flash: &F, id: u16) -> Option<Value>
        requires { Refines (F.image flash.now) self.now }
        ensures { result ≡ settings_of (F.image flash.now) id }
    {
        value_in(&self.log, flash, id)
    }

    /// Whether an id has a value.
    pub fn contains<F: NorFlash>(&self, flash: &F, id: u16) -> bool
        requires { Refines (F.image flash.now) self.now }
        ensures { IsTrue result ↔ IsSome (settings_of (F.image flash.now) id) }
    {
        value_in(&self.log, flash, id).is_some()
    }

    /// The first id from one on that has a value, with it: from 0 on, and then from the id after the
    /// last answer, all that there are.
    pub fn next_from<F: NorFlash>(&self, flash: &F, from: u32) -> Option<Change>
        requires small { from ≤ 2 ^ 16 }
        requires refines { Refines (F.image flash.now) self.now }
        ensures { MatchOption result (NoneBetween (settings_of (F.image flash.now)) from (2 ^ 16)) (λ change. IsNext (settings_of (F.image flash.now)) from change) }
    {
        next_value(&self.log, flash, &[], from)
    }

    /// How many words of the 511 of a page no value takes.
    pub fn room_left<F: NorFlash>(&self, flash: &F) -> usize
        requires { Refines (F.image flash.now) self.now }
        ensures fits { alive (F.image flash.now) [] ≤ 511 → result + alive (F.image flash.now) [] ≡ 511 }
        ensures full { 511 < alive (F.image flash.now) [] → result ≡ 0 }
    {
        let alive = words_alive(&self.log, flash, &[]) as usize;
        if alive < PAGE_WORDS {
            PAGE_WORDS - alive
        } else {
            0
        }
    }

    /// Stores a value of at most 64 bytes. Nothing is written where the id has this value already.
    pub fn set<F: NorFlash>(
        &mut self,
        flash: &mut F,
        id: u16,
        bytes: &[u8],
    ) -> Result<(), SettingsError>
        requires { Refines (F.image flash.old) self.old }
        ensures refines { Refines (F.image flash.new) self.new }
        ensures stores { length bytes.now ≤ 64 → Stores F.image F.operations F.faults F.operates F.is_faultless (record { id = id; value = Some bytes.now } ∷ []) result flash.old flash.new }
        ensures same { settings_of (F.image flash.old) id ≡ Some bytes.now → IsOk result × (flash.new ≡ flash.old) }
        ensures written { settings_of (F.image flash.old) id ≢ Some bytes.now → IsOk result → AreWritten (F.image flash.old) (record { id = id; value = Some bytes.now } ∷ []) (F.image flash.new) }
        ensures count { settings_of (F.image flash.old) id ≢ Some bytes.now → IsOk result → HasMade (Needs (F.image flash.old) (record { id = id; value = Some bytes.now } ∷ [])) (F.operations flash.old) (F.operations flash.new) }
        ensures too_long { 64 < length bytes.now → (result ≡ Err SettingsError.TooLong) × (flash.new ≡ flash.old) }
    {
        match Value::new(bytes) {
            Some(value) => self.store(
                flash,
                Change {
                    id,
                    value: Some(value),
                },
            ),
            None => Err(SettingsError::TooLong),
        }
    }

    /// Takes an id its value. Nothing is written where it has none.
    pub fn remove<F: NorFlash>(&mut self, flash: &mut F, id: u16) -> Result<(), SettingsError>
        requires { Refines (F.image flash.old) self.old }
        ensures refines { Refines (F.image flash.new) self.new }
        ensures stores { Stores F.image F.operations F.faults F.operates F.is_faultless (record { id = id; value = None } ∷ []) result flash.old flash.new }
        ensures same { settings_of (F.image flash.old) id ≡ None → IsOk result × (flash.new ≡ flash.old) }
        ensures written { settings_of (F.image flash.old) id ≢ None → IsOk result → AreWritten (F.image flash.old) (record { id = id; value = None } ∷ []) (F.image flash.new) }
        ensures count { settings_of (F.image flash.old) id ≢ None → IsOk result → HasMade (Needs (F.image flash.old) (record { id = id; value = None } ∷ [])) (F.operations flash.old) (F.operations flash.new) }
    {
        self.store(flash, Change { id, value: None })
    }

    /// Moves the values to the next page, which then has room for changes. Changes do so by themselves
    /// where they must.
    pub fn compact<F: NorFlash>(&mut self, flash: &mut F) -> Result<(), SettingsError>
        requires { Refines (F.image flash.old) self.old }
        ensures refines { Refines (F.image flash.new) self.new }
        ensures stores { Stores F.image F.operations F.faults F.operates F.is_faultless [] result flash.old flash.new }
        ensures compacted { IsOk result → IsCompacted (F.image flash.old) [] (F.image flash.new) }
        ensures count { IsOk result → HasMade (Needs (F.image flash.old) []) (F.operations flash.old) (F.operations flash.new) }
    {
        self.transaction(flash, &[])
    }

    /// Stores a change, unless it changes nothing.
    fn store<F: NorFlash>(&mut self, flash: &mut F, change: Change) -> Result<(), SettingsError>
        requires { Refines (F.image flash.old) self.old }
        ensures refines { Refines (F.image flash.new) self.new }
        ensures stores { Stores F.image F.operations F.faults F.operates F.is_faultless (change ∷ []) result flash.old flash.new }
        ensures same { settings_of (F.image flash.old) change.id ≡ change.value → IsOk result × (flash.new ≡ flash.old) }
        ensures written { settings_of (F.image flash.old) change.id ≢ change.value → IsOk result → AreWritten (F.image flash.old) (change ∷ []) (F.image flash.new) }
        ensures count { settings_of (F.image flash.old) change.id ≢ change.value → IsOk result → HasMade (Needs (F.image flash.old) (change ∷ [])) (F.operations flash.old) (F.operations flash.new) }
    {
        if holds(&self.log, flash, &change) {
            return Ok(());
        }
        self.transaction(flash, &[change])
    }

    /// Takes changes, of which the first operation is made by the next `step`; what was under way is
    /// forgotten, as by a loss of power.
    ///
    /// One change is appended where there is room for its words, 1 to 23. Several, or none, or one
    /// without room, go to the next page with all other values, by at most one erase, a program for
    /// each of at most 511 words, and one for the header. Refused are, in this order, `Unsound`,
    /// `Foreign`, `Full` and `Worn`.
    pub fn begin<F: NorFlash>(&mut self, flash: &F, changes: &[Change]) -> Result<(), SettingsError>
        requires { Refines (F.image flash.now) self.old }
        ensures refused { MatchResult result (λ _. IsAccepted (F.image flash.now) changes.now) (λ why. IsRefused (F.image flash.now) changes.now why) }
        ensures refines { Relation (F.image flash.now) changes.now self.new }
        ensures busy { IsOk result ↔ IsBusy self.new.job }
        ensures goes_to { IsOk result → GoesTo (F.image flash.now) changes.now self.new.job }
        ensures needs { IsOk result → Needs (F.image flash.now) changes.now (left (F.image flash.now) changes.now self.new) }
    {
        self.rest(flash);
        if self.log.usable().is_err() {
            return Err(SettingsError::Unsound);
        }
        if !all_known(&self.log, flash) {
            return Err(SettingsError::Foreign);
        }
        are_changes(changes);
        if has_room(&self.log, changes) {
            self.job = Job::Appending(0);
            return Ok(());
        }
        if words_alive(&self.log, flash, changes) > PAGE_WORDS as u16 {
            return Err(SettingsError::Full);
        }
        match self.log.begin_turn() {
            Ok(()) => {
                self.job = Job::Turning { from: 0, at: 0 };
                Ok(())
            }
            Err(_) => Err(SettingsError::Worn),
        }
    }

    /// Stores several changes, which are in force together: a loss of power leaves all of them or none.
    /// Of one id the last change counts. More than one, or none, take a compaction. It comes back when
    /// all is stored, after at most 513 flash operations; where it is not `Ok` all values are as before.
    pub fn transaction<F: NorFlash>(
        &mut self,
        flash: &mut F,
        changes: &[Change],
    ) -> Result<(), SettingsError>
        requires { Refines (F.image flash.old) self.old }
        ensures refines { Refines (F.image flash.new) self.new }
        ensures stores { Stores F.image F.operations F.faults F.operates F.is_faultless changes.now result flash.old flash.new }
        ensures written { IsOk result → AreWritten (F.image flash.old) changes.now (F.image flash.new) }
        ensures count { IsOk result → HasMade (Needs (F.image flash.old) changes.now) (F.operations flash.old) (F.operations flash.new) }
    {
        if let Err(why) = self.begin(flash, changes) {
            return Err(why);
        }
        while self.busy() {
            if self.fails(flash, changes) {
                return Err(SettingsError::Fault);
            }
        }
        Ok(())
    }

    /// Makes a step of changes that are under way, and says whether it failed.
    fn fails<F: NorFlash>(&mut self, flash: &mut F, changes: &[Change]) -> bool
        requires refines { Relation (F.image flash.old) changes.now self.old }
        requires busy { IsBusy self.old.job }
        ensures refines { Relation (F.image flash.new) changes.now self.new }
        ensures makes { Makes F.image F.operations F.operates F.is_faultless changes.now result (left (F.image flash.old) changes.now self.old) (left (F.image flash.new) changes.now self.new) flash.old flash.new }
        ensures kept { IsBusy self.new.job → Same (settings_of (F.image flash.new)) (settings_of (F.image flash.old)) }
        ensures failed { IsTrue result → Same (settings_of (F.image flash.new)) (settings_of (F.image flash.old)) }
        ensures stored { result ≡ false → (IsBusy self.new.job → ⊥) → Same (settings_of (F.image flash.new)) (changed (F.image flash.old) changes.now) }
        ensures more { IsBusy self.new.job → WritesMore self.old.job (F.image flash.old) changes.now (F.image flash.new) self.new.job }
        ensures last { result ≡ false → (IsBusy self.new.job → ⊥) → WritesLast self.old.job (F.image flash.old) changes.now (F.image flash.new) }
        ensures fault { IsTrue result → IsFault F.image F.faults F.operates flash.old flash.new }
    {
        match self.step(flash, changes) {
            Work::Failed => true,
            Work::Idle | Work::Working | Work::Stored => false,
        }
    }

    /// Forgets what is under way.
    fn rest<F: NorFlash>(&mut self, flash: &F)
        requires { Refines (F.image flash.now) self.old }
        ensures describes { Describes (F.image flash.now) self.new.log }
        ensures task { self.new.log.task ≡ Rest }
        ensures rests { self.new.job ≡ Job.Resting }
    {
        if self.busy() {
            self.log = Log::mount(flash);
            self.job = Job::Resting;
        }
    }

    /// Makes the one flash operation that the changes need next, or none where nothing is under way.
    ///
    /// `changes` are those that were begun. `Failed` is answered where the flash answers a fault and
    /// the operation's slot or page does not read as intended, and only there.
    pub fn step<F: NorFlash>(&mut self, flash: &mut F, changes: &[Change]) -> Work
        requires { Relation (F.image flash.old) changes.now self.old }
        ensures refines { Relation (F.image flash.new) changes.now self.new }
        // what the answer means for the values and the changes
        ensures gives { Gives (F.image flash.old) changes.now result (F.image flash.new) }
        ensures goes_on { GoesOn self.old.job result self.new.job }
        ensures writes { Writes self.old.job result (F.image flash.old) changes.now (F.image flash.new) self.new.job }
        ensures between { IsBetween (F.image flash.old) changes.now (F.image flash.new) }
        ensures fault { result ≡ Work.Failed → IsFault F.image F.faults F.operates flash.old flash.new }
        // one operation; where the power is cut inside it the values are as before, or all changes are in force
        ensures operation { result ≢ Work.Idle → IsOperation F.image F.operates (IsBetween (F.image flash.old) changes.now) flash.old flash.new }
        ensures untouched { result ≡ Work.Idle → flash.new ≡ flash.old }
        ensures counts { CountsAs (result ≡ Work.Idle) (result ≡ Work.Failed) (F.operations flash.old) (F.operations flash.new) (F.faults flash.old) (F.faults flash.new) }
        ensures down { CountsDown result (left (F.image flash.old) changes.now self.old) (left (F.image flash.new) changes.now self.new) }
        ensures faultless { (n : ℕ) → F.is_faultless flash.old (n + 1) → (result ≢ Work.Idle → F.is_faultless flash.new n) × (result ≢ Work.Failed) }
    {
        match self.job {
            Job::Resting => Work::Idle,
            Job::Appending(at) => self.append(flash, changes, at),
            Job::Turning { from, at } => self.turn(flash, changes, from, at),
        }
    }

    /// Appends the next word of the change.
    fn append<F: NorFlash>(&mut self, flash: &mut F, changes: &[Change], at: u8) -> Work
        requires refines { Relation (F.image flash.old) changes.now self.old }
        requires job { self.old.job ≡ Job.Appending at }
        ensures refines { Relation (F.image flash.new) changes.now self.new }
        ensures gives { Gives (F.image flash.old) changes.now result (F.image flash.new) }
        ensures goes_on { GoesOn self.old.job result self.new.job }
        ensures writes { Writes self.old.job result (F.image flash.old) changes.now (F.image flash.new) self.new.job }
        ensures between { IsBetween (F.image flash.old) changes.now (F.image flash.new) }
        ensures fault { result ≡ Work.Failed → IsFault F.image F.faults F.operates flash.old flash.new }
        ensures operation { IsOperation F.image F.operates (IsBetween (F.image flash.old) changes.now) flash.old flash.new }
        ensures counts { CountsAs (result ≡ Work.Idle) (result ≡ Work.Failed) (F.operations flash.old) (F.operations flash.new) (F.faults flash.old) (F.faults flash.new) }
        ensures down { CountsDown result (left (F.image flash.old) changes.now self.old) (left (F.image flash.new) changes.now self.new) }
        ensures faultless { (n : ℕ) → F.is_faultless flash.old (n + 1) → F.is_faultless flash.new n × (result ≢ Work.Failed) }
    {
        let [change] = changes else { unreachable!() };
        self.log.begin_append(word_at(change, at));
        match self.log.step(flash) {
            Step::Committed => self.count(change, at),
            Step::Failed => {
                self.job = Job::Resting;
                Work::Failed
            }
            Step::Idle | Step::Moved => unreachable!(),
        }
    }

    /// One word more of the change is there, and with the last one the change is in force.
    fn count(&mut self, change: &Change, at: u8) -> Work
        requires { at < length (words_of change.now) }
        ensures log { self.new.log ≡ self.old.log }
        ensures more { at + 1 < length (words_of change.now) → (result ≡ Work.Working) × (self.new.job ≡ Job.Appending (at + 1)) }
        ensures last { length (words_of change.now) ≤ at + 1 → (result ≡ Work.Stored) × (self.new.job ≡ Job.Resting) }
    {
        let words = size(change);
        if at + 1 < words {
            self.job = Job::Appending(at + 1);
            Work::Working
        } else {
            self.job = Job::Resting;
            Work::Stored
        }
    }

    /// Goes on with a compaction.
    fn turn<F: NorFlash>(&mut self, flash: &mut F, changes: &[Change], from: u32, at: u8) -> Work
        requires refines { Relation (F.image flash.old) changes.now self.old }
        requires job { self.old.job ≡ Job.Turning from at }
        ensures refines { Relation (F.image flash.new) changes.now self.new }
        ensures gives { Gives (F.image flash.old) changes.now result (F.image flash.new) }
        ensures goes_on { GoesOn self.old.job result self.new.job }
        ensures writes { Writes self.old.job result (F.image flash.old) changes.now (F.image flash.new) self.new.job }
        ensures between { IsBetween (F.image flash.old) changes.now (F.image flash.new) }
        ensures fault { result ≡ Work.Failed → IsFault F.image F.faults F.operates flash.old flash.new }
        ensures operation { IsOperation F.image F.operates (IsBetween (F.image flash.old) changes.now) flash.old flash.new }
        ensures counts { CountsAs (result ≡ Work.Idle) (result ≡ Work.Failed) (F.operations flash.old) (F.operations flash.new) (F.faults flash.old) (F.faults flash.new) }
        ensures down { CountsDown result (left (F.image flash.old) changes.now self.old) (left (F.image flash.new) changes.now self.new) }
        ensures faultless { (n : ℕ) → F.is_faultless flash.old (n + 1) → F.is_faultless flash.new n × (result ≢ Work.Failed) }
    {
        self.offer_next(flash, changes, from, at);
        match self.log.step(flash) {
            Step::Moved => Work::Working,
            Step::Committed => {
                self.job = Job::Resting;
                Work::Stored
            }
            Step::Failed => {
                self.job = Job::Resting;
                Work::Failed
            }
            Step::Idle => unreachable!(),
        }
    }

    /// Offers a waiting compaction its next word, or its header after the last one.
    fn offer_next<F: NorFlash>(&mut self, flash: &F, changes: &[Change], from: u32, at: u8)
        requires refines { Relation (F.image flash.now) changes.now self.old }
        requires job { self.old.job ≡ Job.Turning from at }
        ensures { IsOffered (F.image flash.now) changes.now self.old self.new }
    {
        if !self.log.wants() {
            return;
        }
        match next_value(&self.log, flash, changes, from) {
            Some(change) => {
                self.log.offer_copy(word_at(&change, at));
                self.job = behind(&change, at);
            }
            None => self.log.seal(),
        }
    }
}

/// A compaction that was given the words of a change up to this one.
fn behind(change: &Change, at: u8) -> Job
    requires { at < length (words_of change.now) }
    ensures more { at + 1 < length (words_of change.now) → result ≡ Job.Turning change.now.id (at + 1) }
    ensures last { length (words_of change.now) ≤ at + 1 → result ≡ Job.Turning (change.now.id + 1) 0 }
{
    let id = u32::from(change.id);
    let words = size(change);
    if at + 1 < words {
        Job::Turning {
            from: id,
            at: at + 1,
        }
    } else {
        Job::Turning {
            from: id + 1,
            at: 0,
        }
    }
}

/// Whether changes are one alone, and there is room for its words.
fn has_room(log: &Log, changes: &[Change]) -> bool
    ensures { (image : List ℕ) → Describes image log.now → (IsTrue result ↔ IsAppended image changes.now) }
{
    match changes {
        [change] => has_room_for(log, size(change)),
        _ => false,
    }
}

/// Whether there is room for so many words.
fn has_room_for(log: &Log, words: u8) -> bool
    requires { (1 ≤ words) × (words ≤ 64) }
    ensures { (image : List ℕ) → Describes image log.now → (IsTrue result ↔ HasRoomFor image words) }
{
    if !log.room() {
        return false;
    }
    match log.tail() {
        Some(tail) => tail <= PAGE_WORDS + 1 - words as usize,
        None => false,
    }
}

/// Whether an id has the value already that a change gives it.
fn holds<F: NorFlash>(log: &Log, flash: &F, change: &Change) -> bool
    requires { Describes (F.image flash.now) log.now }
    ensures { IsTrue result ↔ (settings_of (F.image flash.now) change.now.id ≡ change.now.value) }
{
    let held = value_in(log, flash, change.id);
    match &change.value {
        None => held.is_none(),
        Some(value) => match held {
            Some(held) => held.as_bytes() == value.as_bytes(),
            None => false,
        },
    }
}
