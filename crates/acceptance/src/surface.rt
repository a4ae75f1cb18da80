//! Each public function that was agreed on, called at its written types, and in [`variants`] each public enum and struct, matched
//! whole: a parameter, a result, a variant or a field that changes its shape is an error here. The calls stand in the order of
//! the crates, and mean nothing together.

pub mod variants;

use arrayvec::ArrayVec;
use control_ep::{ControlEp, DeviceView, Effect, EpAnswer, OutStep, Verdict};
use debounce::{Debouncer, Edges, Keys};
use descriptor_build::{CONFIGURATION, DEVICE, HID, ReportSpec, TooLong, build, served_report};
use descriptor_parse::{Descriptor, Field, Item, Items, Kind, ParseError, Parser, parse};
use flash_model::{FlashError, FlashFault, NorFlash, SimFlash};
use host::Host;
use host_extract::{BOOT_DESCRIPTOR, ExtractError, Found, extract, pressed};
use kbsim::{RunError, run_script};
use keyboard::Keyboard;
use keymap_store::{Store, SubmitRefusal, Taken};
use layers::{Code, Command, Held, KeyNo, Keymap, KeymapError, LayerNo, Usages};
use page_turnover::{Log, Step, TurnRefusal, Unsound};
use parse_lines::{LinesError, describe, parse_text};
use records::{Kinds, Slot, all_ones, classify, encode, is_sound, kinds8};
use reports::{IdleId, Poller, Protocol, bitmap, boot, consumer};
use std::alloc::{AllocError, Global};
use std::io::{Read, Write};
use world::{Answer, Event, Mask, Reading, Report, Scan, UsageList, Work, World};

pub fn any_flash<F: NorFlash>(
    flash: &mut F,
    page: usize,
    slot: usize,
    bytes: [u8; 8],
) -> Result<(), FlashFault> {
    let pages: usize = flash.pages();
    if page >= pages || slot >= 512 {
        return Ok(());
    }
    let _held: [u8; 8] = flash.read_slot(page, slot);
    flash.program_slot(page, slot, bytes)?;
    flash.erase_page(page)
}

pub fn simulated_flash(
    alloc: Global,
    pages: usize,
    bytes: Vec<u8>,
    mask: ArrayVec<u8, 4096>,
) -> Result<SimFlash, FlashError> {
    let mut flash: SimFlash = SimFlash::new(alloc, pages)?;
    let mask: Mask = mask;
    flash.fault_next(mask);
    flash.disarm();
    let _image: &[u8] = flash.image();
    SimFlash::from_image(bytes)
}

pub fn slots(word: u32, eight: &[u8; 64]) -> bool {
    let bytes: [u8; 8] = encode(word);
    let Kinds { good, free }: Kinds = kinds8(eight);
    let kinds: [u8; 2] = [good, free];
    match classify(bytes) {
        Slot::Free => all_ones(&kinds),
        Slot::Good(word) => word == 0,
        Slot::Spoiled => is_sound(bytes),
    }
}

pub fn log_is_read<F: NorFlash>(flash: &F) -> bool {
    let log: Log = Log::mount(flash);
    let _active: Option<(usize, u32)> = log.active();
    let _format: Option<u8> = log.format();
    let _room: bool = log.room();
    let _busy: bool = log.busy();
    for word in log.words(flash) {
        let _word: u32 = word;
    }
    match log.usable() {
        Ok(()) => true,
        Err(Unsound { page }) => page == 0_usize,
    }
}

pub fn log_appends<F: NorFlash>(flash: &mut F, word: u32) -> Step {
    let mut log: Log = Log::mount(flash);
    if log.usable().is_err() || !log.room() {
        return Step::Idle;
    }
    log.begin_append(word);
    log.step(flash)
}

pub fn log_copies<F: NorFlash>(flash: &mut F, word: u32) -> Result<Step, TurnRefusal> {
    let mut log: Log = Log::mount(flash);
    log.begin_turn()?;
    let _wants: bool = log.wants();
    log.offer_copy(word);
    Ok(log.step(flash))
}

pub fn log_seals<F: NorFlash>(flash: &mut F) -> Result<Step, TurnRefusal> {
    let mut log: Log = Log::mount(flash);
    log.begin_turn()?;
    log.seal();
    Ok(log.step(flash))
}

pub fn names(bits: u16, layer: u8, key: u8) -> Result<Command, KeymapError> {
    let code: Code = Code::read(bits)?;
    let layer: LayerNo = LayerNo::read(layer)?;
    let key: KeyNo = KeyNo::read(key)?;
    let _numbers: (u16, u8, u8) = (code.bits(), layer.number(), key.number());
    Ok(Command::SetKey { layer, key, code })
}

pub fn commands(op: u8, layer: u8, key: u8, code: u16) -> Result<u32, KeymapError> {
    let command: Command = Command::read(op, layer, key, code)?;
    let command = &command;
    let word: u32 = command.word();
    let _read: Option<Command> = Command::from_word(word);
    let _old: Option<Command> = Command::from_format_1(word);
    match *command {
        Command::SetKey { layer, key, code } => Ok(place_of(layer, key, code)),
        Command::ResetLayer(layer) => Ok(u32::from(layer.number())),
        Command::ResetAll => Ok(word),
    }
}

fn place_of(layer: LayerNo, key: KeyNo, code: Code) -> u32 {
    u32::from(layer.number()) + u32::from(key.number()) + u32::from(code.bits())
}

pub fn keymaps(command: &Command, layer: LayerNo, key: KeyNo) -> Code {
    let mut keymap: Keymap = Keymap::standard();
    let _changes: bool = keymap.changes(*command);
    keymap.apply(*command);
    let _changed: Option<(u16, Command)> = keymap.next_changed(0_u16);
    keymap.get(layer, key)
}

pub fn held_keys(keymap: &Keymap, layer: LayerNo, key: KeyNo) -> Usages {
    let mut held: Held = Held::new();
    held.press(keymap, key);
    let _active: bool = held.active(layer);
    let _code: Option<Code> = held.code(key);
    held.release(key);
    let usages: Usages = held.usages();
    let _has: (bool, u8, bool) = (
        usages.has_key(4_u8),
        usages.modifiers(),
        usages.has_consumer(1_u16),
    );
    usages
}

pub fn stores<F: NorFlash>(flash: &mut F, command: Command) -> Result<Work, SubmitRefusal> {
    let mut store: Store = Store::mount(flash);
    let _keymap: &Keymap = store.keymap();
    let _busy: bool = store.busy();
    match store.submit(command)? {
        Taken::Settled => Ok(Work::Settled),
        Taken::Working => Ok(store.work(flash)),
    }
}

pub fn samples(rows: [u16; 6]) -> bool {
    let scan: Scan = Scan { rows };
    let keys: Keys = scan.keys();
    for key in keys {
        let _key: u8 = key;
    }
    let mut debouncer: Debouncer = Debouncer::new();
    let Edges { released, pressed }: Edges = debouncer.feed(scan);
    let _scans: [Scan; 2] = [released, pressed];
    let _planes: &[[u16; 6]; 3] = debouncer.planes();
    debouncer.is_down(95_u8) && scan.has(95_u8)
}

pub fn report_bytes(usages: &Usages) -> ([u8; 8], [u8; 23], [u8; 9]) {
    (boot(usages), bitmap(usages), consumer(usages))
}

pub fn polls(
    alloc: Global,
    before: &Usages,
    now: &Usages,
    protocol: Protocol,
    id: IdleId,
) -> Result<Option<ArrayVec<u8, 32>>, AllocError> {
    let mut poller: Poller = Poller::new(alloc)?;
    poller.tick(before, now, protocol);
    poller.set_idle(id, 125_u8);
    let _idle: u8 = poller.idle(id);
    poller.forget_sent();
    poller.reset();
    let report: Option<Report> = poller.poll(now, protocol);
    Ok(report)
}

pub fn descriptors(specs: &[ReportSpec]) -> Result<ArrayVec<u8, 256>, TooLong> {
    let _constants: ([u8; 18], [u8; 34], [u8; 9]) = (DEVICE, CONFIGURATION, HID);
    let _served: ArrayVec<u8, 256> = served_report();
    build(specs)
}

pub fn transfers(packet: [u8; 8], view: &DeviceView, verdict: Verdict) -> EpAnswer {
    let mut ep: ControlEp = ControlEp::new();
    ep.setup(packet, view);
    let step: OutStep = ep.out(&packet);
    let _answer: EpAnswer = ep.verdict(verdict);
    ep.settle();
    ep.fail();
    ep.reset();
    let (got, effect): (EpAnswer, Effect) = ep.in_packet();
    match effect {
        Effect::Nothing => {}
        Effect::Idle(id, duration) => {
            let _idle: (IdleId, u8) = (id, duration);
        }
        Effect::SetProtocol(protocol) => {
            let _protocol: Protocol = protocol;
        }
    }
    match step {
        OutStep::Answered(answer) => answer,
        OutStep::Leds(0_u8) => got,
        OutStep::Leds(_) => EpAnswer::Ack,
        OutStep::Offer(command) => offered(command),
    }
}

fn offered(command: [u8; 5]) -> EpAnswer {
    let _command = command;
    EpAnswer::Nak
}

pub fn keyboards<F: NorFlash>(
    alloc: Global,
    flash: &mut F,
    scan: Scan,
    packet: [u8; 8],
) -> Result<Work, AllocError> {
    let mut keyboard: Keyboard = Keyboard::start(alloc, flash)?;
    keyboard.scan(scan);
    keyboard.setup(packet);
    let _out: EpAnswer = keyboard.out(&packet);
    let _in: EpAnswer = keyboard.in_packet();
    let _sent: Option<Report> = keyboard.poll();
    keyboard.bus_reset();
    let _keymap: &Keymap = keyboard.keymap();
    let _usages: Usages = keyboard.usages();
    let _shown: (Protocol, u8) = (keyboard.protocol(), keyboard.leds());
    let work: Work = keyboard.work(flash);
    keyboard.restart(flash);
    Ok(work)
}

pub fn items(text: &[u8]) -> Result<usize, ParseError> {
    let items: Items<'_> = Items::new(text);
    let mut last = 0;
    for item in items {
        let item: Item<'_> = item?;
        last = item_end(item);
    }
    Ok(last)
}

fn item_end(
    Item {
        offset,
        prefix,
        bytes,
    }: Item<'_>,
) -> usize {
    let prefix: u8 = prefix;
    let bytes: &[u8] = bytes;
    let offset: usize = offset;
    if bytes.is_empty() && prefix == 0xFE {
        return 0;
    }
    offset
}

pub fn parsed(alloc: Global, text: &[u8], kind: Kind) -> Result<Option<usize>, ParseError> {
    let mut parser: Parser = Parser::new(alloc);
    parser.feed(text)?;
    let _pieces: Descriptor = parser.finish()?;
    let descriptor: Descriptor = parse(alloc, text)?;
    let _uses_ids: bool = descriptor.uses_ids();
    let _usage: Option<u32> = descriptor.usage(0_usize, 0_usize);
    let _ranges: &[(u32, u32)] = descriptor.ranges(0_usize);
    for field in descriptor.fields() {
        let Field {
            kind,
            id,
            bit,
            size,
            count,
            min,
            max,
            array,
        }: Field = *field;
        let _declared: (Kind, u8, u64, u8, u16, i64, i64, bool) = (
            kind, id, bit, size, count, min, max, array,
        );
    }
    Ok(descriptor.report_len(kind, 1_u8))
}

pub fn extracted(
    alloc: Global,
    descriptor: &Descriptor,
    report: &[u8],
) -> Result<Vec<u32>, ExtractError> {
    let _boot: [u8; 39] = BOOT_DESCRIPTOR;
    let found: Vec<Found> = extract(alloc, descriptor, report)?;
    for one in &found {
        let Found { usage, value }: Found = *one;
        let _read: (u32, i64) = (usage, value);
    }
    let on: Result<Vec<u32>, AllocError> = pressed(alloc, &found);
    match on {
        Ok(usages) => Ok(usages),
        Err(_) => Err(ExtractError::Memory),
    }
}

pub fn hosts(
    alloc: Global,
    packet: [u8; 8],
    protocol: Protocol,
    report: &[u8],
) -> Result<Reading, AllocError> {
    let mut host: Host = Host::new(alloc);
    host.setup(packet);
    host.packet(&packet)?;
    host.lose();
    Ok(host.read(protocol, report))
}

pub fn reading(reading: &Reading) -> &[u32] {
    match reading {
        Reading::Unread | Reading::NoMemory => &[],
        Reading::Usages(usages) => listed(usages),
    }
}

fn listed(usages: &UsageList) -> &[u32] {
    usages.as_slice()
}

pub fn worlds(
    alloc: Global,
    flash: SimFlash,
    events: &[Event],
    answers: &mut Vec<Answer>,
) -> Result<(), AllocError> {
    let mut world: World = World::new(alloc, flash)?;
    let _flash: &SimFlash = world.flash();
    let _host: &Host = world.host();
    world.run(events, answers)
}

pub fn scripts<R: Read, W: Write>(
    alloc: Global,
    pages: usize,
    reader: &mut R,
    writer: &mut W,
) -> Result<(), RunError> {
    run_script(alloc, pages, reader, writer)
}

pub fn texts<R: Read, W: Write>(
    alloc: Global,
    reader: &mut R,
    writer: &mut W,
) -> Result<(), LinesError> {
    parse_text(alloc, reader, writer)?;
    describe(writer)
}
