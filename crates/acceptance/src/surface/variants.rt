//! Each public enum and struct that was agreed on.

use arrayvec::ArrayVec;
use control_ep::{DeviceView, EpAnswer, Verdict};
use descriptor_build::ReportSpec;
use descriptor_parse::{Kind, ParseError, ParseFault};
use flash_model::FlashError;
use host_extract::ExtractError;
use kbsim::{LineFault, RunError};
use keymap_store::SubmitRefusal;
use layers::KeymapError;
use page_turnover::{Step, TurnRefusal};
use parse_lines::LinesError;
use reports::{IdleId, Protocol};
use world::{Answer, Event, Reading, Why, Work};

fn byte(value: u8) -> u32 {
    u32::from(value)
}

fn word(value: u16) -> u32 {
    u32::from(value)
}

fn extent(value: i32) -> i64 {
    i64::from(value)
}

pub fn report_spec(spec: ReportSpec) -> i64 {
    match spec {
        ReportSpec::UsagePage(value) => i64::from(word(value)),
        ReportSpec::Usage(value) => i64::from(word(value)),
        ReportSpec::UsageMin(value) => i64::from(word(value)),
        ReportSpec::UsageMax(value) => i64::from(word(value)),
        ReportSpec::LogicalMin(value) => extent(value),
        ReportSpec::LogicalMax(value) => extent(value),
        ReportSpec::ReportSize(value) => i64::from(byte(value)),
        ReportSpec::ReportCount(value) => i64::from(word(value)),
        ReportSpec::ReportId(value) => i64::from(byte(value)),
        ReportSpec::Collection(value) => i64::from(byte(value)),
        ReportSpec::EndCollection => 0,
        ReportSpec::Input(value) => i64::from(byte(value)),
        ReportSpec::Output(value) => i64::from(byte(value)),
        ReportSpec::Feature(value) => i64::from(byte(value)),
    }
}

pub fn view(protocol: Protocol, bitmap: [u8; 23], consumer: [u8; 9], boot: [u8; 8]) -> DeviceView {
    DeviceView {
        protocol,
        idle_one: 125_u8,
        idle_two: 0_u8,
        leds: 0_u8,
        feature: [0_u8; 6],
        bitmap,
        consumer,
        boot,
    }
}

pub fn event(event: &Event) -> (&[u8], u32) {
    match event {
        Event::Scan(scan) => (&[], word(scan.rows[0])),
        Event::Setup(packet) => (packet, 1),
        Event::OutPacket(packet) => (packet_bytes(packet), 2),
        Event::InPacket => (&[], 3),
        Event::Poll => (&[], 4),
        Event::Work => (&[], 5),
        Event::WorkFault(mask) | Event::CutInWork(mask) => (mask_bytes(mask), 6),
        Event::Cut => (&[], 7),
        Event::BusReset => (&[], 8),
        Event::Entry(layer, key) => (&[], byte(layer.number()) ^ byte(key.number())),
        Event::SlotAt { page, slot } => (&[], byte(*page) ^ word(*slot)),
        Event::Leds => (&[], 9),
    }
}

fn packet_bytes(packet: &ArrayVec<u8, 8>) -> &[u8] {
    packet.as_slice()
}

fn mask_bytes(mask: &ArrayVec<u8, 4096>) -> &[u8] {
    mask.as_slice()
}

fn sent<'a>(bytes: &'a ArrayVec<u8, 32>, _reading: &Reading) -> &'a [u8] {
    bytes.as_slice()
}

pub fn answer(answer: &Answer) -> (&[u8], u32) {
    match answer {
        Answer::Done => (&[], 0),
        Answer::Ack => (&[], 1),
        Answer::Nak => (&[], 2),
        Answer::Packet(packet) => (packet_bytes(packet), 3),
        Answer::Stall(why) => (&[], byte(why.number())),
        Answer::Sent { bytes, reading } => (sent(bytes, reading), 5),
        Answer::Worked(_) => (&[], 4),
        Answer::Restarted => (&[], 6),
        Answer::EntryIs(code) => (&[], word(code.bits())),
        Answer::SlotIs(slot) => (slot, 7),
        Answer::NoSlot => (&[], 8),
        Answer::LedsAre(leds) => (&[], byte(*leds)),
    }
}

/// The enums without more than names, first those of the device.
pub fn device_names(
    (flash, step, turn): (FlashError, Step, TurnRefusal),
    (keymap, submit, work): (KeymapError, SubmitRefusal, Work),
    (protocol, id, why): (Protocol, IdleId, Why),
) {
    match flash {
        FlashError::PageCount | FlashError::Memory | FlashError::ImageSize => {}
    }
    match step {
        Step::Idle | Step::Moved | Step::Committed | Step::Failed => {}
    }
    match turn {
        TurnRefusal::Unsound | TurnRefusal::Worn => {}
    }
    match keymap {
        KeymapError::BadOperation | KeymapError::BadLayer => {}
        KeymapError::BadKey | KeymapError::BadCode => {}
    }
    match submit {
        SubmitRefusal::Busy | SubmitRefusal::Unsound | SubmitRefusal::Worn => {}
    }
    match work {
        Work::Idle | Work::Working | Work::Settled | Work::Failed => {}
    }
    match protocol {
        Protocol::Boot | Protocol::Report => {}
    }
    match id {
        IdleId::All | IdleId::One | IdleId::Two => {}
    }
    match why {
        Why::UnknownRequest | Why::WrongInterface | Why::UnknownDescriptor => {}
        Why::UnknownReport | Why::WrongLength | Why::BadProtocol | Why::BadOperation => {}
        Why::BadLayer | Why::BadKey | Why::BadCode | Why::Unsound | Why::Worn => {}
        Why::FlashFault | Why::ShortData | Why::LongData | Why::WrongStage => {}
    }
}

/// Then those of the host and the program.
pub fn host_names(
    kind: Kind,
    ParseError { fault, offset }: ParseError,
    extract: ExtractError,
) -> usize {
    match kind {
        Kind::Input | Kind::Output | Kind::Feature => {}
    }
    match fault {
        ParseFault::Truncated | ParseFault::Delimiter | ParseFault::PopEmpty => {}
        ParseFault::PushDeep | ParseFault::BadReportId | ParseFault::SizeTooLarge => {}
        ParseFault::CountTooLarge | ParseFault::EndWithoutCollection => {}
        ParseFault::CollectionDeep | ParseFault::UnpairedUsage | ParseFault::UsageInverted => {}
        ParseFault::LogicalInverted | ParseFault::TooManyFields | ParseFault::MixedIds => {}
        ParseFault::CollectionOpen | ParseFault::TooLong | ParseFault::Memory => {}
    }
    match extract {
        ExtractError::Empty | ExtractError::UnknownId => {}
        ExtractError::Short | ExtractError::Memory => {}
    }
    offset
}

pub fn verdicts(verdict: Verdict, answer: EpAnswer) -> Option<ArrayVec<u8, 8>> {
    match verdict {
        Verdict::Done | Verdict::Working | Verdict::Busy => {}
        Verdict::Refused(why) => drop_name(why),
    }
    match answer {
        EpAnswer::Ack | EpAnswer::Nak => None,
        EpAnswer::Packet(packet) => Some(packet),
        EpAnswer::Stall(why) => {
            drop_name(why);
            None
        }
    }
}

fn drop_name(_why: Why) {}

/// `Image` is of a run from an image alone.
pub fn run_fault(run: RunError, lines: LinesError) -> Option<ParseError> {
    match run {
        RunError::PageCount | RunError::TooLong | RunError::Input | RunError::Image => {}
        RunError::Output | RunError::Memory => {}
        RunError::Line { line: 0_usize, .. } => {}
        RunError::Line { line: _, fault } => match fault {
            LineFault::UnknownWord | LineFault::WrongWords => {}
            LineFault::BadNumber | LineFault::BadHex => {}
        },
    }
    match lines {
        LinesError::Refused(error) => Some(error),
        LinesError::BadHexText | LinesError::TooLong | LinesError::Input => None,
        LinesError::Output | LinesError::Memory => None,
    }
}
