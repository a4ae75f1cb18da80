//! What a host reads in a session of the keyboard is what the keymap gives for the debounced keys: theorems over the
//! definitions of what the keyboard answers, of what a host hears of it, and of what a host reads.
//!
//! Nothing is kept, and nothing runs: the functions have empty bodies, and their contracts are the theorems. A history takes
//! them for each of its sessions.
ghost use Rattle.std.specs.Prelude.{◌≡◌, ◌≢◌, ◌⊎◌, ◌↔◌, ◌∷◌, ◌++◌, ◌≤◌, ◌<◌, ℕ, List, [], Option, None, Some, Contains, length, take, min};
ghost use Rattle.std.specs.List.Sorted.{IsStrictlyIncreasing};
ghost use Rattle.std.specs.Option.{option_map};
ghost use Rattle.descriptor_build.specs.Served.{report_bytes};
ghost use Rattle.host.specs.Calls.{HostCall};
ghost use Rattle.host.specs.Kept.{Fetch, gathering, kept};
ghost use Rattle.host.specs.Reads.{text_by, Reads};
ghost use Rattle.host.specs.declared.reading.Reading.{Reading};
ghost use Rattle.layers.specs.Codes.{DefaultCodes};
ghost use Rattle.keyboard.specs.Calls.{Call, Polled};
ghost use Rattle.keyboard.specs.Effects.{protocol_after};
ghost use Rattle.keyboard.specs.Keys.{key_calls};
ghost use Rattle.keyboard.specs.Conforming.{IsAnswered, IsConforming};
ghost use Rattle.key_reports.specs.Past.{keys_after, consumer_after};
ghost use Rattle.reports.specs.Layouts.{listed_count, consumer_count};
ghost use Rattle.reports.specs.declared.Input.TheVariants.{Boot, One, Two};
ghost use Rattle.world.specs.Due.{Due, due_bytes, due};
ghost use Rattle.world.specs.Fetched.{IsFetched};
ghost use Rattle.world.specs.Heard.{Hears, IsFresh, NoneOrServed};
ghost use Rattle.world.specs.Named.{IsKeyNamed, IsConsumerNamed};
ghost use Rattle.world.specs.Read.{IsReadAs, NamesWanted};
ghost use Rattle.world.specs.Sent.{IsWantedAt};

/// What a poll of endpoint 1 is answered is what a report of the protocol in force has to be, for the usages that the codes
/// of the debounced keys name at the moment that the report is of: if it waited, that of the very scan that put it into the
/// queue; else that of the poll.
pub fn sent_is_wanted()
    ensures wanted { (defaults : DefaultCodes) (start : List ℕ) (past : List Call) (bytes : List ℕ) → IsAnswered defaults start past (Polled (Some bytes))
        → IsWantedAt defaults start past bytes }
    // it is NAK exactly where no report is due
    ensures due { (defaults : DefaultCodes) (start : List ℕ) (past : List Call) (answer : Option (List ℕ)) → IsAnswered defaults start past (Polled answer)
        ↔ (answer ≡ option_map (due_bytes defaults start) (due defaults start past)) }
{}

/// In a session the moments of the reports that polls send do not go back: a report that is due later, whatever came in
/// between, is of the same moment or a later one.
pub fn moments_go_on()
    ensures onward { (defaults : DefaultCodes) (start : List ℕ) (before since : List Call) (first last : Due) → due defaults start before ≡ Some first → due defaults start (since ++ before) ≡ Some last
        → (between : List Call) × (last.moment ≡ between ++ first.moment) }
    // and no report is due again after the poll that it was due at
    ensures once { (defaults : DefaultCodes) (start : List ℕ) (before since : List Call) (answer : Option (List ℕ)) (report : Due) → due defaults start before ≡ Some report
        → due defaults start (since ++ Polled answer ∷ before) ≢ Some report }
{}

/// What a host fetches in a session is the keyboard's report descriptor: a host that kept that or nothing before, and was
/// gathering nothing, keeps that or nothing after, whatever was asked, refused and cut short.
pub fn fetched_is_served()
    ensures { (defaults : DefaultCodes) (start : List ℕ) (past : List Call) (reported host : List HostCall) → IsConforming defaults start past → Hears reported past host
        → IsFresh reported → NoneOrServed (kept host) }
{}

/// What a host gathers of it in a session, also of a fetch that is cut short, are its first bytes.
pub fn gathered_is_served()
    ensures { (defaults : DefaultCodes) (start : List ℕ) (past : List Call) (reported host : List HostCall) (fetch : Fetch) → IsConforming defaults start past → Hears reported past host
        → IsFresh reported → gathering host ≡ Some fetch
        → fetch.bytes ≡ take (length fetch.bytes) report_bytes }
{}

/// A host keeps the report descriptor exactly where it kept it before the session, or a fetch of the session came through:
/// a SETUP packet that asks for at least 99 bytes, and its 13 packets before another SETUP packet or a bus reset, with memory
/// for each.
pub fn kept_is_fetched()
    ensures { (defaults : DefaultCodes) (start : List ℕ) (past : List Call) (reported host : List HostCall) → IsConforming defaults start past → Hears reported past host
        → IsFresh reported
        → kept host ≡ Some report_bytes ↔ ((kept reported ≡ Some report_bytes) ⊎ IsFetched reported host) }
{}

/// What a host reads in what a poll is answered is what the keymap gives for the debounced keys, at the moment that the
/// report is of: in boot protocol by the descriptor of its own, in report protocol by the one that it fetched, and nothing
/// where it fetched none. No report is refused.
pub fn read_is_wanted()
    ensures { (defaults : DefaultCodes) (start : List ℕ) (past : List Call) (reported host : List HostCall) (bytes : List ℕ) (reading : Reading)
        → IsConforming defaults start (Polled (Some bytes) ∷ past) → Hears reported past host → IsFresh reported
        → Reads (text_by (protocol_after past) host) bytes reading → IsReadAs defaults start past host bytes reading }
{}

/// The usages that are read are those that the codes of the keys name which are down by the debounced scans, each code that of
/// the keymap at the key's latest press. In the boot report ErrorRollOver (01h of page 07h) stands for more than six besides
/// the modifiers; the report of ID 2 has room for four.
pub fn keys_are_read()
    // of page 07h, in the report of ID 1
    ensures bitmap { (defaults : DefaultCodes) (start : List ℕ) (past : List Call) (bytes usages : List ℕ) (n : NamesWanted defaults start past bytes usages) → n.sent.input ≡ One
        → (usage : ℕ) → Contains usages usage ↔ IsKeyNamed (key_calls defaults start n.sent.moment) usage }
    // in the boot report too, where they fit
    ensures boot { (defaults : DefaultCodes) (start : List ℕ) (past : List Call) (bytes usages : List ℕ) (n : NamesWanted defaults start past bytes usages) → n.sent.input ≡ Boot
        → listed_count (keys_after (key_calls defaults start n.sent.moment)) ≤ 6
        → (usage : ℕ) → Contains usages usage ↔ IsKeyNamed (key_calls defaults start n.sent.moment) usage }
    // and else the modifiers and ErrorRollOver
    ensures overflow { (defaults : DefaultCodes) (start : List ℕ) (past : List Call) (bytes usages : List ℕ) (n : NamesWanted defaults start past bytes usages) → n.sent.input ≡ Boot
        → 6 < listed_count (keys_after (key_calls defaults start n.sent.moment))
        → (usage : ℕ) → Contains usages usage ↔ ((usage ≡ 0x70001) ⊎ ((0x700E0 ≤ usage) × IsKeyNamed (key_calls defaults start n.sent.moment) usage)) }
    // of page 0Ch, in the report of ID 2; and all of them, where they fit
    ensures consumer { (defaults : DefaultCodes) (start : List ℕ) (past : List Call) (bytes usages : List ℕ) (n : NamesWanted defaults start past bytes usages) → n.sent.input ≡ Two
        → (usage : ℕ) → Contains usages usage → IsConsumerNamed (key_calls defaults start n.sent.moment) usage }
    ensures all_consumer { (defaults : DefaultCodes) (start : List ℕ) (past : List Call) (bytes usages : List ℕ) (n : NamesWanted defaults start past bytes usages) → n.sent.input ≡ Two
        → consumer_count (consumer_after (key_calls defaults start n.sent.moment)) ≤ 4
        → (usage : ℕ) → IsConsumerNamed (key_calls defaults start n.sent.moment) usage → Contains usages usage }
    // and else the four least: as many as fit, and with each of them all that are less
    ensures count_consumer { (defaults : DefaultCodes) (start : List ℕ) (past : List Call) (bytes usages : List ℕ) (n : NamesWanted defaults start past bytes usages) → n.sent.input ≡ Two
        → length usages ≡ min 4 (consumer_count (consumer_after (key_calls defaults start n.sent.moment))) }
    ensures least_consumer { (defaults : DefaultCodes) (start : List ℕ) (past : List Call) (bytes usages : List ℕ) (n : NamesWanted defaults start past bytes usages) → n.sent.input ≡ Two
        → (usage lesser : ℕ) → Contains usages usage → IsConsumerNamed (key_calls defaults start n.sent.moment) lesser → lesser < usage → Contains usages lesser }
    // rising, each once
    ensures rising { (defaults : DefaultCodes) (start : List ℕ) (past : List Call) (bytes usages : List ℕ) (n : NamesWanted defaults start past bytes usages) → IsStrictlyIncreasing usages }
{}
