//! What follows for every history in which each event is answered as it has to be.

ghost use Rattle.std.specs.Prelude.{◌≡◌, ◌<◌, ◌∷◌, ◌++◌, ℕ, nat_lt, if◌then◌else◌, List, [], Ok, None, Some, map, replicate};
ghost use Rattle.flash_model.specs.Image.{page_count, slot_at};
ghost use Rattle.flash_model.specs.Sim.{SimValue};
ghost use Rattle.keyboard.specs.Calls.{keymap};
ghost use Rattle.keyboard.specs.Fate.{works, settled, fate};
ghost use Rattle.keyboard.specs.Feature.{command_of_bytes};
ghost use Rattle.keyboard.specs.Progress.{set_feature, steps_for, steps_in, StaysDue, StaysOpen};
ghost use Rattle.keyboard.specs.Single.{NoneFails};
ghost use Rattle.layers.specs.Codes.{layers, keys, DefaultCodes};
ghost use Rattle.layers.specs.Entries.{written};
ghost use Rattle.layers.specs.declared.command.Command.{Command};
ghost use Rattle.world.specs.Acknowledged.{accepts_here, NoneAcceptedWrites};
ghost use Rattle.world.specs.declared.event.Answer.TheVariants.{Ack, Nak, Packet, EntryIs};
ghost use Rattle.world.specs.declared.event.Event.TheVariants.{Setup, OutPacket, InPacket, Entry};
ghost use Rattle.world.specs.Erases.{ErasesSeldom};
ghost use Rattle.world.specs.History.{EachStep, image_after};
ghost use Rattle.world.specs.Kinds.{Step};
ghost use Rattle.world.specs.Conforming.{IsConforming};
ghost use Rattle.world.specs.Memory.{IsRefusedWhereWanted};
ghost use Rattle.world.specs.Progress.{IsReady, NoneStarts, calls_in, BringsCommand, IsServed};
ghost use Rattle.world.specs.Promise.{Promise};
ghost use Rattle.world.specs.Torn.{LeavesTorn};

/// The guarantee holds of every history in which each event is answered by what came before it, whatever
/// keyboard it came from: restarts, what was acknowledged and confirmed, looks, what is read, kept and
/// gathered, the moments of reports, the time that a command takes, wear, and sound headers.
pub fn answered_is_promised()
    ensures { (defaults : DefaultCodes) (start : SimValue) (history : List Step) → IsConforming defaults start history → Promise defaults start history }
{}

/// No freedom is left: two histories of the same start and the same events, in which each event is
/// answered by what came before it and the host was refused memory in the same steps, are equal, to
/// each answer and each byte of the flash.
pub fn one_history()
    ensures { (defaults : DefaultCodes) (start : SimValue) (a b : List Step) → IsConforming defaults start a → IsConforming defaults start b → map (λ (s : Step). s.event) a ≡ map (λ (s : Step). s.event) b
        → map (λ (s : Step). s.refused) a ≡ map (λ (s : Step). s.refused) b → a ≡ b }
{}

/// Where the mask is not known, as with a real flash: a step that is torn, by a fault or by a cut of the power inside it,
/// leaves what the next operation of the command at work may leave, and without a command the image that was there.
/// What a step leaves that is whole, and a step that fails, `keyboard::theorems::one_image` says.
pub fn torn_leaves_next()
    ensures { (defaults : DefaultCodes) (start : SimValue) (history : List Step) → IsConforming defaults start history → EachStep (LeavesTorn defaults) start history }
{}

/// A step in which the host was refused memory is one for which it wants some: a packet of data while it
/// gathers, or a report that it reads. So a run whose answers have room is refused nothing else.
pub fn memory_is_refused_where_wanted()
    ensures { (defaults : DefaultCodes) (start : SimValue) (history : List Step) → IsConforming defaults start history
        → EachStep IsRefusedWhereWanted start history }
{}

/// Progress: a host that behaves, on a flash that does, is served. A SETUP packet of SET_REPORT came, and of
/// endpoint 0 nothing since but OUT packets that were answered NAK. Where nothing is in its way (`IsReady`),
/// the packet of a command is answered ACK. Whatever comes from then on but a power loss and a step that
/// fails: the command works until as many steps of the flash work were made as `steps_for` names, and is
/// settled from then on. While of endpoint 0 only IN packets come, they are answered NAK until that step, and
/// the first one after it by the empty packet. Until a later command writes the entry, each look then shows
/// its code.
pub fn a_command_is_served()
    ensures acknowledged { (defaults : DefaultCodes) (start : SimValue) (before between : List Step) (setup packet : Step) (a b c d e : ℕ) (command : Command) → setup.event ≡ Setup set_feature
        → NoneStarts between → StaysDue (calls_in between) → IsReady defaults start (between ++ setup ∷ before) → command_of_bytes (a ∷ b ∷ c ∷ d ∷ e ∷ []) ≡ Ok command
        → packet.event ≡ OutPacket (record { items = 3 ∷ a ∷ b ∷ c ∷ d ∷ e ∷ [] }) → IsConforming defaults start (packet ∷ between ++ setup ∷ before)
        → (packet.answer ≡ Ack) × (accepts_here start (between ++ setup ∷ before) packet ≡ Some command) }
    ensures settled { (defaults : DefaultCodes) (start : SimValue) (before since : List Step) (packet : Step) (command : Command) → IsConforming defaults start (since ++ packet ∷ before)
        → accepts_here start before packet ≡ Some command → NoneStarts since → NoneFails (calls_in since)
        → fate defaults (keymap defaults (image_after start before)) command (calls_in since)
        ≡ (if nat_lt (steps_in (calls_in since)) (steps_for defaults (image_after start before) command) then works else settled) }
    ensures status { (defaults : DefaultCodes) (start : SimValue) (before since : List Step) (packet status : Step) (command : Command) → IsConforming defaults start (status ∷ since ++ packet ∷ before)
        → accepts_here start before packet ≡ Some command → NoneStarts since → NoneFails (calls_in since) → StaysOpen (calls_in since) → status.event ≡ InPacket
        → status.answer ≡ (if nat_lt (steps_in (calls_in since)) (steps_for defaults (image_after start before) command) then Nak else Packet (record { items = [] })) }
    // and with nothing between
    ensures served { (defaults : DefaultCodes) (start : SimValue) (before works : List Step) (setup packet status : Step) (a b c d e : ℕ) (command : Command) → IsReady defaults start before
        → command_of_bytes (a ∷ b ∷ c ∷ d ∷ e ∷ []) ≡ Ok command → BringsCommand defaults start before setup packet works status a b c d e command
        → IsConforming defaults start (status ∷ works ++ packet ∷ setup ∷ before) → IsServed setup packet works status }
    ensures shown { (defaults : DefaultCodes) (start : SimValue) (before works after : List Step) (setup packet status look : Step) (a b c d e layer key code : ℕ) (command : Command) → IsReady defaults start before
        → command_of_bytes (a ∷ b ∷ c ∷ d ∷ e ∷ []) ≡ Ok command → BringsCommand defaults start before setup packet works status a b c d e command
        → layer < layers → key < keys → written defaults command layer key ≡ Some code → NoneAcceptedWrites defaults start after (status ∷ works ++ packet ∷ setup ∷ before) layer key
        → look.event ≡ Entry layer key → IsConforming defaults start (look ∷ after ++ status ∷ works ++ packet ∷ setup ∷ before) → look.answer ≡ EntryIs code }
{}

/// The premises of `a_command_is_served` can be met: nothing is in the way of a first command on a flash
/// whose slots 0 are erased, and of which nothing is armed.
pub fn an_erased_flash_is_ready()
    ensures { (defaults : DefaultCodes) (start : SimValue) → start.armed ≡ None → ((p : ℕ) → p < page_count start.image → slot_at start.image p 0 ≡ replicate 8 255)
        → IsReady defaults start [] }
{}

/// Wear under any host: over all sessions a page is erased at most once more than headers are committed,
/// cuts catch a command at work, and commands fail. At least 127 records lie between two commits (field
/// `wears` of the guarantee), so whoever bounds what the host writes knows how often a page is erased.
pub fn erases_are_bounded()
    ensures { (defaults : DefaultCodes) (start : SimValue) (history : List Step) → IsConforming defaults start history → ErasesSeldom defaults start history }
{}
