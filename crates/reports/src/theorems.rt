//! Theorems over the definitions: the wanted bytes of each report, said of each bit and place; what was sent
//! last of it; and the queue, call by call.

ghost use Rattle.std.specs.Prelude.{◌≡◌, ℕ, Bool, true, false, Option, Some, List, [], ◌∷◌, ◌++◌, length, drop};
ghost use Rattle.circular_buffer.specs.Buffer.{keep_last};
ghost use Rattle.reports.specs.declared.IdleId.{IdleId};
ghost use Rattle.reports.specs.declared.Input.{Input};
ghost use Rattle.reports.specs.declared.Protocol.{Protocol};
ghost use Rattle.reports.specs.Calls.{PollerCall, ticked, polled, idle_set, forgets};
ghost use Rattle.reports.specs.History.{NoneSent, Last, scans};
ghost use Rattle.reports.specs.Poll.{size_of, sent_by};
ghost use Rattle.reports.specs.Queue.{pushed_by, waiting, queue};
ghost use Rattle.reports.specs.Wanted.{listed, wanted, boot_bytes, bitmap_bytes, consumer_bytes};
ghost use Rattle.reports.specs.Layouts.{AreListed, IsBootReport, IsBitmapReport, IsConsumerReport};

/// A boot report lists the distinct usages 04h to A4h in rising order.
pub fn boot_lists_each_usage_once()
    ensures { (keys : ℕ → Bool) → AreListed keys (listed keys) }
{}

/// The bytes of a boot report have its layout.
pub fn boot_has_its_layout()
    ensures { (keys : ℕ → Bool) → IsBootReport keys (boot_bytes keys) }
{}

/// The bytes of the report of ID 1 have its layout.
pub fn bitmap_has_its_layout()
    ensures { (keys : ℕ → Bool) → IsBitmapReport keys (bitmap_bytes keys) }
{}

/// The bytes of the report of ID 2 have its layout.
pub fn consumer_has_its_layout()
    ensures { (consumer : ℕ → Bool) → IsConsumerReport consumer (consumer_bytes consumer) }
{}

/// A report is known by its length: no two have the same.
pub fn lengths_differ()
    ensures { (a b : Input) → size_of a ≡ size_of b → a ≡ b }
{}

/// What was sent last of a report, and how long ago: the bytes that the latest poll gave that sent it, and
/// the scans since then. Where none did since what was sent was forgotten, or at all, the bytes are those
/// without usages.
pub fn last_sent_is_of_the_latest_poll()
    ensures sent { (report : Input) (later before : List PollerCall) (call : PollerCall) (bytes : List ℕ)
        → NoneSent report later → sent_by report call ≡ Some bytes → Last report (later ++ call ∷ before) bytes (scans later) }
    ensures forgot { (report : Input) (later before : List PollerCall) (call : PollerCall)
        → NoneSent report later → forgets call ≡ true
        → Last report (later ++ call ∷ before) (wanted (λ _. false) (λ _. false) report) (scans later) }
    ensures never { (report : Input) (past : List PollerCall) → NoneSent report past
        → Last report past (wanted (λ _. false) (λ _. false) report) (scans past) }
{}

/// The reports that wait are a ring of eight: a scan appends what it pushes, and of more than eight the
/// oldest go; a poll takes the first; what forgets empties it.
pub fn the_queue_is_a_ring()
    ensures start { queue [] ≡ [] }
    ensures scan { (past : List PollerCall) (protocol : Protocol) (before now : Input → List ℕ)
        → queue (ticked protocol before now ∷ past) ≡ keep_last 8 (queue past ++ pushed_by (ticked protocol before now)) }
    ensures poll { (past : List PollerCall) (protocol : Protocol) (answer : Option (List ℕ))
        → queue (polled protocol answer ∷ past) ≡ drop 1 (queue past) }
    ensures idle { (past : List PollerCall) (id : IdleId) (duration : ℕ) → queue (idle_set id duration ∷ past) ≡ queue past }
    ensures forgot { (past : List PollerCall) (call : PollerCall) → forgets call ≡ true → queue (call ∷ past) ≡ [] }
    ensures size { (past : List PollerCall) → length (queue past) ≡ waiting past }
{}
