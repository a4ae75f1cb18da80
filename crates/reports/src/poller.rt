//! Which report a poll of the interrupt endpoint sends.

ghost use Rattle.std.specs.Prelude.{◌≡◌, ◌≤◌, ◌||◌, ◌∷◌, [], ℕ, List, Option, Some, None, Bool, true, false, slice_get, take, drop, IfOk, IfSome};
ghost use Rattle.std.specs.Option.{option_map};
ghost use Rattle.reports.specs.declared.Input.{Input};
ghost use Rattle.reports.specs.declared.Protocol.{Protocol};
ghost use Rattle.reports.specs.Calls.{PollerCall, ticked, polled, idle_set, forgot, was_reset};
ghost use Rattle.reports.specs.Poll as poll;
ghost use Rattle.reports.specs.Poll.{idle_value, poll_answer, rule_answer};
ghost use Rattle.reports.specs.Queue.{queue};
ghost use Rattle.reports.specs.Wanted.{wanted};
ghost use Rattle.layers.specs.Usages.{has_key, has_consumer};

use crate::idle::Idle;
use crate::queue::Queue;
use crate::sent::Sent;
use crate::{IdleId, Input, InputReport, Protocol, Report};
use layers::Usages;
use std::alloc::{AllocError, Global};
use std::marker::Model;

/// The idle values at the start, in units of 4 ms: 500 ms for ID 1, and no repeats for ID 2.
const IDLE_ONE: u8 = 125;

const IDLE_TWO: u8 = 0;

/// What was made and what was sent last of each report, the reports that wait, and the idle values.
#[derive(Debug, Drop)]
pub struct Poller {
    boot: Sent,
    one: Sent,
    two: Sent,
    /// Which of the reports 1 and 2 was sent last.
    sent_last: Option<Input>,
    queue: Queue,
    idle_one: Idle,
    idle_two: Idle,
    /// The protocol whose reports were made last.
    made_for: Protocol,
}

impl Model for Poller {
    ghost use Rattle.reports.specs.representation.Kept.{Kept};

    ghost Value = { Kept };

    ghost view = { λ p. record {
      boot = p.boot;
      one = p.one;
      two = p.two;
      sent_last = p.sent_last;
      queue = p.queue;
      idle_one = p.idle_one;
      idle_two = p.idle_two;
      made_for = p.made_for;
    } };
}

impl Poller {
    ghost use Rattle.reports.specs.representation.Relation.{Refines, RuleRefines, NothingSent, IsMade, IsMadeFor, SameMade};
    ghost use Rattle.reports.specs.Answers.{idle_input};

    /// Nothing sent and nothing waiting, and the idle values 125 (500 ms) for ID 1 and 0 (no repeats)
    /// for ID 2. Takes the memory of the queue, and is refused where there is none.
    pub fn new(alloc: Global) -> Result<Poller, AllocError>
        ensures refines { IfOk result (λ poller. Refines [] poller) }
        ensures made { IfOk result (λ poller. IsMade (wanted (λ _. false) (λ _. false)) poller) }
    {
        let queue = Queue::new(alloc)?;
        Ok(Poller {
            boot: Sent::unused(Input::Boot),
            one: Sent::unused(Input::One),
            two: Sent::unused(Input::Two),
            sent_last: None,
            queue,
            idle_one: Idle::of(IDLE_ONE),
            idle_two: Idle::of(IDLE_TWO),
            made_for: Protocol::Report,
        })
    }

    /// Takes the passing of one scan, one millisecond, which found the usages `now` after `before`.
    /// Each report of the protocol whose bytes that changes waits from now on, ID 1 before ID 2. Of
    /// more than eight that wait the oldest are dropped.
    pub fn tick(&mut self, before: &Usages, now: &Usages, protocol: Protocol)
        ensures { (past : List PollerCall) → Refines past self.old
            → Refines (ticked protocol (wanted (has_key before.now) (has_consumer before.now))
            (wanted (has_key now.now) (has_consumer now.now)) ∷ past) self.new }
    {
        self.make(before, protocol);
        self.tick_to(now, protocol);
    }

    /// Takes the passing of one scan, one millisecond, which changed no usage.
    pub fn pass(&mut self)
        ensures refines { (past : List PollerCall) (protocol : Protocol) (bytes : Input → List ℕ)
            → Refines past self.old → Refines (ticked protocol bytes bytes ∷ past) self.new }
        ensures made { (bytes : Input → List ℕ) → IsMade bytes self.old → IsMade bytes self.new }
    {
        self.grow_older();
    }

    /// Takes the passing of one scan, one millisecond, which found these usages after those that the
    /// bytes were made for. Each report of the protocol whose bytes that changes waits from now on, ID 1
    /// before ID 2. Of more than eight that wait the oldest are dropped.
    pub fn tick_to(&mut self, now: &Usages, protocol: Protocol)
        ensures refines { (past : List PollerCall) (before : Input → List ℕ) → IsMadeFor protocol before self.old
            → Refines past self.old
            → Refines (ticked protocol before (wanted (has_key now.now) (has_consumer now.now)) ∷ past) self.new }
        ensures made { (before : Input → List ℕ) → IsMadeFor protocol before self.old
            → IsMade (wanted (has_key now.now) (has_consumer now.now)) self.new }
    {
        self.grow_older();
        self.push_changes(now, protocol);
    }

    fn grow_older(&mut self)
        ensures rule { (past : List PollerCall) (protocol : Protocol) (before now : Input → List ℕ)
            → RuleRefines past self.old → RuleRefines (ticked protocol before now ∷ past) self.new }
        ensures queue { self.new.queue ≡ self.old.queue }
        ensures made { SameMade self.old self.new }
    {
        self.boot.tick();
        self.one.tick();
        self.two.tick();
    }

    /// Makes the bytes of the protocol's reports for these usages, and lets those wait that are not as
    /// they were made before.
    fn push_changes(&mut self, now: &Usages, protocol: Protocol)
        ensures rule { (past : List PollerCall) → RuleRefines past self.old → RuleRefines past self.new }
        ensures queue { (past : List PollerCall) (before : Input → List ℕ) → IsMadeFor protocol before self.old
            → self.old.queue ≡ queue past
            → self.new.queue ≡ queue (ticked protocol before (wanted (has_key now.now) (has_consumer now.now)) ∷ past) }
        ensures made { self.old.made_for ≡ protocol → IsMade (wanted (has_key now.now) (has_consumer now.now)) self.new }
    {
        match protocol {
            Protocol::Boot => self.boot.turn(InputReport::boot(now), &mut self.queue),
            Protocol::Report => {
                self.one.turn(InputReport::bitmap(now), &mut self.queue);
                self.two.turn(InputReport::consumer(now), &mut self.queue);
            },
        }
    }

    /// Whether the bytes were made for this protocol.
    pub fn is_made_for(&self, protocol: Protocol) -> bool
        ensures made { (bytes : Input → List ℕ) → result ≡ true → IsMade bytes self.now → IsMadeFor protocol bytes self.now }
    {
        self.made_for == protocol
    }

    /// The bytes of the boot report, as they were made last.
    pub fn made_boot(&self) -> &InputReport
        ensures { (bytes : Input → List ℕ) → IsMadeFor Protocol.Boot bytes self.now → result.now ≡ bytes Input.Boot }
    {
        self.boot.made()
    }

    /// The bytes of the report of ID 1, as they were made last.
    pub fn made_bitmap(&self) -> &InputReport
        ensures { (bytes : Input → List ℕ) → IsMadeFor Protocol.Report bytes self.now → result.now ≡ bytes Input.One }
    {
        self.one.made()
    }

    /// The bytes of the report of ID 2, as they were made last.
    pub fn made_consumer(&self) -> &InputReport
        ensures { (bytes : Input → List ℕ) → IsMadeFor Protocol.Report bytes self.now → result.now ≡ bytes Input.Two }
    {
        self.two.made()
    }

    /// Makes the bytes of the protocol's reports for these usages.
    pub fn make(&mut self, usages: &Usages, protocol: Protocol)
        ensures refines { (past : List PollerCall) → Refines past self.old → Refines past self.new }
        ensures made { IsMadeFor protocol (wanted (has_key usages.now) (has_consumer usages.now)) self.new }
    {
        match protocol {
            Protocol::Boot => self.boot.make(InputReport::boot(usages)),
            Protocol::Report => {
                self.one.make(InputReport::bitmap(usages));
                self.two.make(InputReport::consumer(usages));
            },
        }
        self.made_for = protocol;
    }

    /// The answer to a poll: the report that has waited longest. Where none waits, the report of the
    /// protocol whose bytes are not those last sent; else one whose idle value is not 0 and for which
    /// as long has passed since it was sent; of two the one that was not sent last; else `None`. What
    /// is answered then counts as sent.
    pub fn poll(&mut self, usages: &Usages, protocol: Protocol) -> Option<Report>
        ensures refines { (past : List PollerCall) → Refines past self.old
            → Refines (polled protocol (option_map (λ r. r.items) result) ∷ past) self.new }
        ensures answer { (past : List PollerCall) → Refines past self.old
            → option_map (λ r. r.items) result
            ≡ poll_answer protocol (wanted (has_key usages.now) (has_consumer usages.now)) past }
    {
        self.make(usages, protocol);
        self.poll_made(protocol)
    }

    /// `poll` for the usages that the bytes were made for: it looks at no bytes where nothing is due.
    pub fn poll_made(&mut self, protocol: Protocol) -> Option<Report>
        ensures refines { (past : List PollerCall) → Refines past self.old
            → Refines (polled protocol (option_map (λ r. r.items) result) ∷ past) self.new }
        ensures answer { (past : List PollerCall) (bytes : Input → List ℕ) → IsMadeFor protocol bytes self.old
            → Refines past self.old → option_map (λ r. r.items) result ≡ poll_answer protocol bytes past }
        ensures made { SameMade self.old self.new }
    {
        match self.send(protocol) {
            Some(sent) => Some(sent.report()),
            None => None,
        }
    }

    /// `poll_made` into a buffer: it writes the report from the start of `report`, and returns how many
    /// bytes it has.
    pub fn poll_into(&mut self, protocol: Protocol, report: &mut [u8; 23]) -> Option<u8>
        ensures refines { (past : List PollerCall) → Refines past self.old
            → Refines (polled protocol (option_map (λ n. take n report.new) result) ∷ past) self.new }
        ensures answer { (past : List PollerCall) (bytes : Input → List ℕ) → IsMadeFor protocol bytes self.old
            → Refines past self.old → option_map (λ n. take n report.new) result ≡ poll_answer protocol bytes past }
        ensures room { IfSome result (λ n. n ≤ 23) }
        ensures made { SameMade self.old self.new }
    {
        match self.send(protocol) {
            Some(sent) => Some(sent.fill(report)),
            None => None,
        }
    }

    /// Sends the report that has waited longest, else what the poll rule sends.
    fn send(&mut self, protocol: Protocol) -> Option<InputReport>
        ensures refines { (past : List PollerCall) → Refines past self.old → Refines (polled protocol result ∷ past) self.new }
        ensures answer { (past : List PollerCall) (bytes : Input → List ℕ) → IsMadeFor protocol bytes self.old
            → Refines past self.old → result ≡ poll_answer protocol bytes past }
        ensures made { SameMade self.old self.new }
    {
        if self.queue.is_empty() {
            self.send_due(protocol)
        } else {
            self.send_front()
        }
    }

    /// Sends the report that has waited longest, if one waits.
    fn send_front(&mut self) -> Option<InputReport>
        ensures rule { (past : List PollerCall) (protocol : Protocol) → RuleRefines past self.old
            → RuleRefines (polled protocol result ∷ past) self.new }
        ensures front { result ≡ slice_get self.old.queue 0 }
        ensures queue { self.new.queue ≡ drop 1 self.old.queue }
        ensures made { SameMade self.old self.new }
    {
        match self.queue.pop() {
            Some(front) => {
                self.count_as_sent(front.copy());
                Some(front)
            },
            None => None,
        }
    }

    /// Sends what the poll rule sends where no report waits.
    fn send_due(&mut self, protocol: Protocol) -> Option<InputReport>
        ensures rule { (past : List PollerCall) → RuleRefines past self.old
            → RuleRefines (polled protocol result ∷ past) self.new }
        ensures answer { (past : List PollerCall) (bytes : Input → List ℕ) → IsMadeFor protocol bytes self.old
            → RuleRefines past self.old → result ≡ rule_answer protocol bytes past }
        ensures queue { self.new.queue ≡ self.old.queue }
        ensures made { SameMade self.old self.new }
    {
        match self.due(protocol) {
            Some(due) => {
                self.count_as_sent(due.copy());
                Some(due)
            },
            None => None,
        }
    }

    /// What the poll rule sends where no report waits.
    fn due(&self, protocol: Protocol) -> Option<InputReport>
        ensures { (past : List PollerCall) (bytes : Input → List ℕ) → IsMadeFor protocol bytes self.now
            → RuleRefines past self.now → result ≡ rule_answer protocol bytes past }
    {
        match protocol {
            Protocol::Boot => self.due_boot(),
            Protocol::Report => self.due_report(),
        }
    }

    fn due_boot(&self) -> Option<InputReport>
        ensures { (past : List PollerCall) (bytes : Input → List ℕ) → bytes Input.Boot ≡ self.now.boot.made
            → RuleRefines past self.now
            → result ≡ rule_answer Protocol.Boot bytes past }
    {
        if self.boot_is_due() {
            Some(self.boot.made().copy())
        } else {
            None
        }
    }

    fn boot_is_due(&self) -> bool
        ensures { (past : List PollerCall) (bytes : Input → List ℕ) → bytes Input.Boot ≡ self.now.boot.made
            → RuleRefines past self.now
            → result ≡ (poll.is_changed bytes past Input.Boot || poll.is_elapsed past Input.Boot) }
    {
        self.boot.is_changed() || self.boot.is_elapsed(&self.idle_one)
    }

    fn due_report(&self) -> Option<InputReport>
        ensures { (past : List PollerCall) (bytes : Input → List ℕ) → bytes Input.One ≡ self.now.one.made
            → bytes Input.Two ≡ self.now.two.made → RuleRefines past self.now
            → result ≡ rule_answer Protocol.Report bytes past }
    {
        match self.chosen(self.one.is_changed(), self.two.is_changed()) {
            Some(Input::One) => Some(self.one.made().copy()),
            Some(Input::Two) => Some(self.two.made().copy()),
            Some(Input::Boot) => None,
            None => None,
        }
    }

    /// Of the reports 1 and 2 one that is changed, else one that is elapsed.
    fn chosen(&self, one_changed: bool, two_changed: bool) -> Option<Input>
        ensures { (past : List PollerCall) (bytes : Input → List ℕ)
            → poll.is_changed bytes past Input.One ≡ one_changed
            → poll.is_changed bytes past Input.Two ≡ two_changed → RuleRefines past self.now
            → result ≡ poll.chosen Protocol.Report bytes past }
    {
        if one_changed || two_changed {
            one_of_two(one_changed, two_changed, self.sent_last)
        } else {
            one_of_two(
                self.one.is_elapsed(&self.idle_one),
                self.two.is_elapsed(&self.idle_two),
                self.sent_last,
            )
        }
    }

    /// Counts a report as sent.
    fn count_as_sent(&mut self, report: InputReport)
        ensures rule { (past : List PollerCall) (protocol : Protocol) → RuleRefines past self.old
            → RuleRefines (polled protocol (Some report) ∷ past) self.new }
        ensures queue { self.new.queue ≡ self.old.queue }
        ensures made { SameMade self.old self.new }
    {
        match report.input() {
            Input::Boot => self.boot.send(report),
            Input::One => {
                self.one.send(report);
                self.sent_last = Some(Input::One);
            },
            Input::Two => {
                self.two.send(report);
                self.sent_last = Some(Input::Two);
            },
        }
    }

    /// Sets the idle value of a report, or of all, in units of 4 ms; 0 stands for no repeats (HID 1.11
    /// section 7.2.4). The time that has passed since a report was sent still counts.
    pub fn set_idle(&mut self, id: IdleId, duration: u8)
        ensures refines { (past : List PollerCall) → Refines past self.old
            → Refines (idle_set id duration ∷ past) self.new }
        ensures made { SameMade self.old self.new }
    {
        match id {
            IdleId::All => {
                self.idle_one = Idle::of(duration);
                self.idle_two = Idle::of(duration);
            },
            IdleId::One => self.idle_one = Idle::of(duration),
            IdleId::Two => self.idle_two = Idle::of(duration),
        }
    }

    /// The idle value of a report, in units of 4 ms; for all reports that of ID 1 (HID 1.11 section
    /// 7.2.3).
    pub fn idle(&self, id: IdleId) -> u8
        ensures { (past : List PollerCall) → Refines past self.now
            → result ≡ idle_value (idle_input id) past }
    {
        match id {
            IdleId::All | IdleId::One => self.idle_one.value(),
            IdleId::Two => self.idle_two.value(),
        }
    }

    /// Counts nothing as sent, as at the start, and drops what waits; the idle values stay.
    pub fn forget_sent(&mut self)
        ensures refines { (past : List PollerCall) → Refines past self.old
            → Refines (forgot ∷ past) self.new }
        ensures made { SameMade self.old self.new }
    {
        self.clear();
    }

    /// Leaves what `new` gives: nothing counts as sent, nothing waits, and the idle values are those of
    /// the start. Takes no memory.
    pub fn reset(&mut self)
        ensures refines { (past : List PollerCall) → Refines past self.old
            → Refines (was_reset ∷ past) self.new }
        ensures fresh { Refines [] self.new }
        ensures made { SameMade self.old self.new }
    {
        self.clear();
        self.idle_one = Idle::of(IDLE_ONE);
        self.idle_two = Idle::of(IDLE_TWO);
    }

    fn clear(&mut self)
        ensures cleared { NothingSent self.new }
        ensures idle_one { self.new.idle_one ≡ self.old.idle_one }
        ensures idle_two { self.new.idle_two ≡ self.old.idle_two }
        ensures made { SameMade self.old self.new }
    {
        self.boot.send(InputReport::unused(Input::Boot));
        self.one.send(InputReport::unused(Input::One));
        self.two.send(InputReport::unused(Input::Two));
        self.sent_last = None;
        self.queue.clear();
    }
}

/// Of the reports 1 and 2 one that passes its test; if both do, the one that was not sent last.
fn one_of_two(one: bool, two: bool, sent_last: Option<Input>) -> Option<Input>
    ensures { (test : Input → Bool) → test Input.One ≡ one → test Input.Two ≡ two
        → result ≡ poll.one_of_two test sent_last }
{
    match (one, two) {
        (true, true) => match sent_last {
            Some(Input::One) => Some(Input::Two),
            _ => Some(Input::One),
        },
        (true, false) => Some(Input::One),
        (false, true) => Some(Input::Two),
        (false, false) => None,
    }
}
