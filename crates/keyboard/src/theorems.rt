//! What follows for every session in which each call is answered as it has to be.

ghost use Rattle.std.specs.Prelude.{◌≡◌, ◌≢◌, ◌<◌, ◌≤◌, ◌+◌, ◌==◌, ◌∷◌, ◌++◌, ℕ, suc, nat_lt, if◌then◌else◌, List, [], Ok, Some, length, map, slice_index};
ghost use Rattle.flash_model.specs.Image.{IsImage};
ghost use Rattle.flash_model.specs.Operations.{OnePage};
ghost use Rattle.layers.specs.Codes.{layers, keys, DefaultCodes};
ghost use Rattle.layers.specs.Entries.{changed};
ghost use Rattle.layers.specs.declared.command.Command.{Command};
ghost use Rattle.page_turnover.specs.declared.operation.Operation.{Operation};
ghost use Rattle.page_turnover.specs.Next.{MayMake, ReadsBack};
ghost use Rattle.page_turnover.specs.Operates.{Operates, MayOperate};
ghost use Rattle.page_turnover.specs.Turn.{target_page};
ghost use Rattle.page_turnover.specs.Words.{IsBlank, HasRoom};
ghost use Rattle.keymap_store.specs.Keymap.{SameEntries};
ghost use Rattle.keymap_store.specs.Next.{next_operation_of, all_copies};
ghost use Rattle.keymap_store.specs.Turnovers.{TurnsOver, Follows};
ghost use Rattle.keymap_store.specs.Works.{IsPlacedAt, IsTornAt};
ghost use Rattle.keymap_store.specs.declared.store.Work.{Work};
ghost use Rattle.keyboard.specs.Acknowledged.{KeepsAcknowledged, IsConfirmed, IsSettled, SettledAfter};
ghost use Rattle.keyboard.specs.Bounded.{IsInTime, steps_since};
ghost use Rattle.keyboard.specs.Calls.{Call, SetUp, Out, In, Worked, image_after, keymap};
ghost use Rattle.keyboard.specs.Commands.{Accepted, accepts, accepted, accepted_before, settled_of, standing_of, working};
ghost use Rattle.keyboard.specs.Fate.{works, settled, fate};
ghost use Rattle.keyboard.specs.Feature.{command_of_bytes};
ghost use Rattle.keyboard.specs.Finds.{FindsAllButLast};
ghost use Rattle.keyboard.specs.Headers.{OwnHeaders};
ghost use Rattle.keyboard.specs.Conforming.{IsAnswered, IsConforming};
ghost use Rattle.control_ep.specs.declared.answer.EpAnswer.{EpAnswer};
ghost use Rattle.keyboard.specs.Operated.{Works, HoldsFirst};
ghost use Rattle.keyboard.specs.Progress.{set_feature, IsReady, AreWhole, steps_for, steps_in, StaysDue, StaysOpen, IsServed};
ghost use Rattle.keyboard.specs.Restart.{LegalRestart, RestartsLegally};
ghost use Rattle.keyboard.specs.Sessions.{Session, MayLeave, Follow, IsAcknowledged};
ghost use Rattle.keyboard.specs.Single.{unanswered, without_image, NoneFails, MayBeTorn};
ghost use Rattle.keyboard.specs.Sound.{KeepsSound};
ghost use Rattle.keyboard.specs.representation.Relation.{Refines};
ghost use Rattle.keyboard.specs.Turnovers.{operations, NoneTurnsOver};
ghost use Rattle.keyboard.specs.representation.Value.{KeyboardValue};

/// The keymap is that of the start changed by the settled commands, in order.
pub fn keymap_is_of_settled()
    ensures { (defaults : DefaultCodes) (start : List ℕ) (past : List Call) → IsConforming defaults start past
        → SameEntries (keymap defaults (image_after start past)) (changed defaults (keymap defaults start) (settled_of (accepted defaults start past))) }
{}

/// A restart after any of these calls is legal: it finds the keymap of the start, changed by a prefix
/// of the accepted commands that did not fail, with each settled one among them.
pub fn restarts_are_legal()
    ensures { (defaults : DefaultCodes) (start : List ℕ) (past : List Call) → IsConforming defaults start past
        → RestartsLegally defaults start past (image_after start past) }
{}

/// So is a restart after a cut of the power inside the flash operation that the keyboard makes next,
/// whatever part of it took effect.
pub fn a_cut_inside()
    ensures { (defaults : DefaultCodes) (start : List ℕ) (past : List Call) (keyboard : KeyboardValue) (operation : Operation) (image : List ℕ)
        → Refines defaults start past keyboard → next_operation_of defaults (image_after start past) keyboard.store ≡ Some operation
        → IsImage image → MayMake (image_after start past) operation image → RestartsLegally defaults start past image }
{}

/// A legal restart leaves no more freedom than that: it finds all commands that did not fail, in order, or all but the last,
/// and that only where this one is not settled. So it loses no settled command, skips none, takes none in another order, and
/// keeps none that failed.
pub fn a_restart_finds_all_but_the_last()
    ensures { (defaults : DefaultCodes) (entries next : ℕ → ℕ → ℕ) (session : List Accepted) → LegalRestart defaults entries session next
        → FindsAllButLast defaults entries (standing_of session) next }
{}

/// What the one operation of a step of the flash work comes to. Where the answer is not Failed it was
/// made as a whole: the command's record is programmed with Settled. Where it is Failed the record was
/// torn at the last step, and at each before no page but the target of the compaction was touched. The target
/// is erased only where it is not blank; a copy is made where it holds those before, and the header
/// where it holds them all; and none of this where there is room. Where the power is cut inside the
/// operation, a restart is legal.
pub fn a_step_is_one_operation()
    ensures whole { (defaults : DefaultCodes) (start : List ℕ) (past : List Call) (command : Command) (work : Work) (new : List ℕ)
        → Works defaults start past command (image_after start past) work new → work ≢ Work.Failed → Operates (image_after start past) new }
    ensures torn { (defaults : DefaultCodes) (start : List ℕ) (past : List Call) (command : Command) (work : Work) (new : List ℕ)
        → Works defaults start past command (image_after start past) work new → work ≡ Work.Failed → MayOperate (image_after start past) new }
    ensures placed { (defaults : DefaultCodes) (start : List ℕ) (past : List Call) (command : Command) (work : Work) (new : List ℕ)
        → Works defaults start past command (image_after start past) work new → work ≡ Work.Settled → IsPlacedAt (image_after start past) command new }
    ensures record_torn { (defaults : DefaultCodes) (start : List ℕ) (past : List Call) (command : Command) (work : Work) (new : List ℕ) (works : Works defaults start past command (image_after start past) work new)
        → work ≡ Work.Failed → suc (steps_since past) ≡ works.advances.needed → IsTornAt (image_after start past) command new }
    ensures in_target { (defaults : DefaultCodes) (start : List ℕ) (past : List Call) (command : Command) (work : Work) (new : List ℕ) (works : Works defaults start past command (image_after start past) work new)
        → suc (steps_since past) < works.advances.needed → OnePage (image_after start past) (target_page (image_after start past)) new }
    ensures erased { (defaults : DefaultCodes) (start : List ℕ) (past : List Call) (command : Command) (work : Work) (new : List ℕ) (page : ℕ) (works : Works defaults start past command (image_after start past) work new)
        → works.operation ≡ Operation.Erase page
        → (page ≡ target_page (image_after start past)) × (IsBlank (image_after start past) page → ⊥) × (HasRoom (image_after start past) → ⊥) }
    ensures copied { (defaults : DefaultCodes) (start : List ℕ) (past : List Call) (command : Command) (work : Work) (new : List ℕ) (n word : ℕ) (works : Works defaults start past command (image_after start past) work new)
        → suc (steps_since past) < works.advances.needed → works.operation ≡ Operation.Program (target_page (image_after start past)) (n + 1) word
        → (word ≡ slice_index (all_copies defaults (keymap defaults (image_after start past))) n) × HoldsFirst defaults (image_after start past) n × (HasRoom (image_after start past) → ⊥) }
    ensures headed { (defaults : DefaultCodes) (start : List ℕ) (past : List Call) (command : Command) (work : Work) (new : List ℕ) (word : ℕ) (works : Works defaults start past command (image_after start past) work new)
        → works.operation ≡ Operation.Program (target_page (image_after start past)) 0 word
        → HoldsFirst defaults (image_after start past) (length (all_copies defaults (keymap defaults (image_after start past)))) × (HasRoom (image_after start past) → ⊥) }
    ensures cut { (defaults : DefaultCodes) (start : List ℕ) (past : List Call) (command : Command) (work : Work) (new image : List ℕ) (works : Works defaults start past command (image_after start past) work new)
        → IsConforming defaults start past → working defaults start past ≡ Some command → IsImage image
        → MayMake (image_after start past) works.operation image → RestartsLegally defaults start past image }
{}

/// Slots 0 that are sound stay so, whatever is torn; where one is not, no operation is ever made.
pub fn headers_stay_sound()
    ensures { (defaults : DefaultCodes) (start : List ℕ) (past : List Call) → IsConforming defaults start past → KeepsSound start past }
{}

/// No step but a header's makes a header, and it no other than its own: a header that a page has after a step
/// of the flash work, whatever it left whole or torn, stood there before, or the step had to write it. So too
/// where the power is cut inside the operation.
pub fn headers_are_own()
    ensures after { (defaults : DefaultCodes) (start : List ℕ) (past : List Call) (work : Work) (new : List ℕ) → IsAnswered defaults start past (Worked work new) → OwnHeaders defaults start past new }
    ensures cut { (defaults : DefaultCodes) (start : List ℕ) (past : List Call) (command : Command) (work : Work) (new image : List ℕ) (works : Works defaults start past command (image_after start past) work new)
        → working defaults start past ≡ Some command → MayMake (image_after start past) works.operation image → OwnHeaders defaults start past image }
{}

/// What the host was told is stored is stored: after the empty packet of a command's status stage the
/// flash holds what the command wrote, whatever else came, until a later command is accepted that would
/// write the entry, even one that then fails.
pub fn acknowledged_is_stored()
    ensures { (defaults : DefaultCodes) (start : List ℕ) (past : List Call) → IsConforming defaults start past → KeepsAcknowledged defaults start past }
{}

/// What the host was told is stored is settled: where the empty packet came in the transfer of a command
/// that was accepted, that command is settled. And the prefix of the commands that a legal restart keeps
/// has each settled command, at its place.
pub fn confirmed_is_settled()
    ensures settled { (defaults : DefaultCodes) (start : List ℕ) (past before : List Call) (command : Command) → IsConforming defaults start past
        → IsConfirmed past before command → IsSettled defaults start past before command }
    ensures kept { (defaults : DefaultCodes) (start : List ℕ) (past before : List Call) (command : Command) (image : List ℕ) (settled : IsSettled defaults start past before command)
        (restart : RestartsLegally defaults start past image) → SettledAfter (standing_of (accepted_before defaults start settled.since before)) command restart.kept }
{}

/// While a command works, fewer than 387 steps of the flash work were made for it: so it is settled,
/// or fails, by the 387th.
pub fn in_time()
    ensures { (defaults : DefaultCodes) (start : List ℕ) (past : List Call) → IsConforming defaults start past → IsInTime defaults start past }
{}

/// Between two compactions of a session, at least 127 flash operations are made that touch the tail of the
/// active page: attempts to append a record.
pub fn turnovers_are_apart()
    ensures { (defaults : DefaultCodes) (start : List ℕ) (before calls : List Call) (work : Work) (first last : List ℕ) → IsConforming defaults start (calls ++ Worked work first ∷ before)
        → TurnsOver defaults (image_after start before) first → NoneTurnsOver defaults start calls (Worked work first ∷ before)
        → TurnsOver defaults (image_after start (calls ++ Worked work first ∷ before)) last
        → (n : ℕ) × Follows first n (image_after start (calls ++ Worked work first ∷ before)) × (127 ≤ n) × (n ≤ operations calls) }
{}

/// No freedom is left to the answers: two sessions of the same start, the same calls and the same images after each
/// step of the flash work, in which each call is answered as it has to be, are equal.
pub fn one_session()
    ensures { (defaults : DefaultCodes) (start : List ℕ) (a b : List Call) → IsConforming defaults start a → IsConforming defaults start b
        → map unanswered a ≡ map unanswered b → a ≡ b }
{}

/// Nor to the images: by the calls before it and its answer, a step of the flash work that does not fail leaves one
/// image. One that fails leaves what the next operation of its command may leave where it is torn, and that does not
/// read as intended. So two sessions of the same start, calls and answers, of which no step fails, are equal.
pub fn one_image()
    ensures whole { (defaults : DefaultCodes) (start : List ℕ) (past : List Call) (work : Work) (a b : List ℕ) → IsAnswered defaults start past (Worked work a)
        → IsAnswered defaults start past (Worked work b) → work ≢ Work.Failed → a ≡ b }
    ensures failed { (defaults : DefaultCodes) (start : List ℕ) (past : List Call) (new : List ℕ) → IsAnswered defaults start past (Worked Work.Failed new)
        → (torn : MayBeTorn defaults start past new) × (ReadsBack torn.operation new → ⊥) }
    ensures session { (defaults : DefaultCodes) (start : List ℕ) (a b : List Call) → IsConforming defaults start a → IsConforming defaults start b → NoneFails a
        → map without_image a ≡ map without_image b → a ≡ b }
{}

/// Progress: a host that behaves is served. A SETUP packet of SET_REPORT came, and of endpoint 0 nothing since but
/// OUT packets that were answered NAK. Where each slot 0 is sound, the flash is not worn and no command works, the
/// packet of a command is acknowledged. From then on `steps_for` counts the steps of the flash work that the command
/// takes: one for each of `operations_of`, and none where it changes nothing. Whatever comes between, while no step
/// fails: the command works until that step, and is settled from then on. While of endpoint 0 only IN packets come,
/// they are answered NAK until that step, and the first one after it is answered by the empty packet.
///
/// No step fails on a flash that is healthy for it (`Keyboard::work`: `faultless`).
pub fn a_command_is_served()
    ensures acknowledged { (defaults : DefaultCodes) (start : List ℕ) (past between : List Call) (a b c d e : ℕ) (given : EpAnswer) (command : Command) → StaysDue between
        → IsReady defaults start (between ++ SetUp set_feature ∷ past) → command_of_bytes (a ∷ b ∷ c ∷ d ∷ e ∷ []) ≡ Ok command
        → IsConforming defaults start (Out (3 ∷ a ∷ b ∷ c ∷ d ∷ e ∷ []) given ∷ between ++ SetUp set_feature ∷ past)
        → (given ≡ EpAnswer.Ack) × (accepts (between ++ SetUp set_feature ∷ past) (Out (3 ∷ a ∷ b ∷ c ∷ d ∷ e ∷ []) given) ≡ Some command) }
    ensures settled { (defaults : DefaultCodes) (start : List ℕ) (past since : List Call) (packet : Call) (command : Command) → IsConforming defaults start (since ++ packet ∷ past)
        → accepts past packet ≡ Some command → NoneFails since
        → fate defaults (keymap defaults (image_after start past)) command since ≡ (if nat_lt (steps_in since) (steps_for defaults (image_after start past) command) then works else settled) }
    // so each step until then is answered Working, but the last one Settled
    ensures answered { (defaults : DefaultCodes) (start : List ℕ) (past since : List Call) (packet : Call) (command : Command) (work : Work) (new : List ℕ)
        → IsConforming defaults start (Worked work new ∷ since ++ packet ∷ past) → accepts past packet ≡ Some command → NoneFails (Worked work new ∷ since)
        → suc (steps_in since) ≤ steps_for defaults (image_after start past) command
        → work ≡ (if suc (steps_in since) == steps_for defaults (image_after start past) command then Work.Settled else Work.Working) }
    ensures status { (defaults : DefaultCodes) (start : List ℕ) (past since : List Call) (packet : Call) (command : Command) (answer : EpAnswer) → IsConforming defaults start (In answer ∷ since ++ packet ∷ past)
        → accepts past packet ≡ Some command → NoneFails since → StaysOpen since
        → answer ≡ (if nat_lt (steps_in since) (steps_for defaults (image_after start past) command) then EpAnswer.Nak else EpAnswer.Packet (record { items = [] })) }
    // and with nothing between
    ensures served { (defaults : DefaultCodes) (start : List ℕ) (past steps : List Call) (a b c d e : ℕ) (given status : EpAnswer) (command : Command) → IsReady defaults start past
        → command_of_bytes (a ∷ b ∷ c ∷ d ∷ e ∷ []) ≡ Ok command → AreWhole steps → length steps ≡ steps_for defaults (image_after start past) command
        → IsConforming defaults start (In status ∷ steps ++ Out (3 ∷ a ∷ b ∷ c ∷ d ∷ e ∷ []) given ∷ SetUp set_feature ∷ past) → IsServed given steps status }
{}

/// Over all sessions. A power loss ends a session, between two flash operations or inside the one of a step that may come next,
/// and the start after it begins the next session. Each start finds a legal keymap. What the host was told is stored, in
/// whichever session, is what the flash says, until a command is accepted that would write the entry.
pub fn sessions_go_on()
    ensures restarts { (defaults : DefaultCodes) (now : Session) (earlier : List Session) (image : List ℕ) → Follow defaults (now ∷ earlier) → MayLeave defaults now.first now.past image
        → RestartsLegally defaults now.first now.past image }
    ensures acknowledged { (defaults : DefaultCodes) (now : Session) (earlier : List Session) (layer key code : ℕ) → layer < layers → key < keys → Follow defaults (now ∷ earlier)
        → IsAcknowledged defaults (now ∷ earlier) layer key code → keymap defaults (image_after now.first now.past) layer key ≡ code }
{}
