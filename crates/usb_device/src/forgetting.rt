//! Reports without usages, which follow a new protocol.

ghost use Rattle.std.specs.Prelude.{◌≡◌, ◌||◌, ◌&&◌, [], List};
ghost use Rattle.std.specs.Option.{option_map};
ghost use Rattle.usb_device.specs.Bus1.{sets_protocol};
ghost use Rattle.usb_device.specs.Calls.{EpCall};
ghost use Rattle.usb_device.specs.States.{is_empty_packet};
ghost use Rattle.usb_device.specs.Forgetting.{first_of, is_consumer, is_keys, names_boot, owed_by, owed_if, rest_of};
ghost use Rattle.usb_device.specs.representation.Forgetting.{RefinesBehind, forgets_of};

use crate::packets::held;
use crate::report_buffers::{is_empty, sets_protocol};
use crate::{Endpoints, EpAnswer, Report, ScansMatrix, Works};

/// The bytes of the consumer report.
const CONSUMER_BYTES: usize = 9;

/// The boot report, and both reports of the report protocol, without usages.
const BOOT: [u8; 8] = [0; 8];

const CONSUMER: [u8; 9] = [2, 0, 0, 0, 0, 0, 0, 0, 0];

const KEYS: [u8; 23] = [
    1, 0, 0, 0, 0, 0, 0, 0, 0, 0, 0, 0, 0, 0, 0, 0, 0, 0, 0, 0, 0, 0, 0,
];

/// The reports without usages that are owed to the host.
#[derive(Clone, Copy, PartialEq, Eq)]
pub(crate) enum Owed {
    Nothing,
    /// The boot report.
    Boot,
    /// That of the keys, that of the consumer usages, or first the one and then the other.
    Keys,
    Consumer,
    Both,
}

impl Owed {
    /// What is owed where the protocol is set and reports of these kinds were given.
    fn by(to_boot: bool, keys: bool, consumer: bool) -> Owed
        ensures { result ≡ owed_by to_boot keys consumer }
    {
        match (to_boot, keys, consumer) {
            (true, false, false) => Owed::Nothing,
            (true, _, _) => Owed::Boot,
            (false, true, true) => Owed::Both,
            (false, true, false) => Owed::Keys,
            (false, false, true) => Owed::Consumer,
            (false, false, false) => Owed::Nothing,
        }
    }

    /// The first of the reports.
    fn first(self) -> Option<Report>
        ensures { option_map (λ r. r.items) result ≡ first_of self }
    {
        match self {
            Owed::Nothing => None,
            Owed::Boot => Some(held(&BOOT)),
            Owed::Keys | Owed::Both => Some(held(&KEYS)),
            Owed::Consumer => Some(held(&CONSUMER)),
        }
    }

    /// What is owed behind the first.
    fn rest(self) -> Owed
        ensures { result ≡ rest_of self }
    {
        match self {
            Owed::Both => Owed::Consumer,
            Owed::Nothing | Owed::Boot | Owed::Keys | Owed::Consumer => Owed::Nothing,
        }
    }
}

/// What is kept of the calls.
#[derive(Drop)]
pub(crate) struct Forgets {
    /// Whether the transfer under way sets the protocol, and whether it names the boot protocol.
    sets: bool,
    to_boot: bool,
    /// Whether a report of keys was given since the last reset, and one of consumer usages.
    keys: bool,
    consumer: bool,
    owed: Owed,
}

/// Whether there is a report of consumer usages.
fn is_consumer(report: &Option<Report>) -> bool
    ensures { result ≡ is_consumer (option_map (λ r. r.items) report.now) }
{
    match report {
        Some(report) => report.len() == CONSUMER_BYTES,
        None => false,
    }
}

/// Whether there is a report of keys.
fn is_keys(report: &Option<Report>) -> bool
    ensures { result ≡ is_keys (option_map (λ r. r.items) report.now) }
{
    match report {
        Some(report) => report.len() != CONSUMER_BYTES,
        None => false,
    }
}

impl Forgets {
    /// Nothing has come.
    fn new() -> Forgets
        ensures { result ≡ forgets_of [] }
    {
        Forgets {
            sets: false,
            to_boot: false,
            keys: false,
            consumer: false,
            owed: Owed::Nothing,
        }
    }

    /// A SETUP packet has come.
    fn setup(&mut self, packet: [u8; 8])
        ensures { self.new ≡ record self.old { sets = sets_protocol (Some packet); to_boot = names_boot (Some packet) } }
    {
        self.sets = sets_protocol(packet);
        self.to_boot = packet[2] == 0;
    }

    /// This was the answer to an IN token.
    fn answered(&mut self, answer: &EpAnswer)
        ensures { self.new ≡ record self.old {
          owed = owed_if (is_empty_packet answer.now && self.old.sets) (owed_by self.old.to_boot self.old.keys self.old.consumer) self.old.owed;
        } }
    {
        if is_empty(answer) && self.sets {
            self.owed = Owed::by(self.to_boot, self.keys, self.consumer);
        }
    }

    /// This was the answer to a poll.
    fn polled(&mut self, report: &Option<Report>)
        ensures { self.new ≡ record self.old {
          keys = is_keys (option_map (λ r. r.items) report.now) || self.old.keys;
          consumer = is_consumer (option_map (λ r. r.items) report.now) || self.old.consumer;
          owed = rest_of self.old.owed;
        } }
    {
        self.keys = is_keys(report) || self.keys;
        self.consumer = is_consumer(report) || self.consumer;
        self.owed = self.owed.rest();
    }
}

/// A device whose host holds no usage of the protocol before.
///
/// A new protocol (HID 1.11 section 7.2.6) drops a report that waits, and the host may have one of the protocol before, and take it
/// for one of the new. A key of it that is up again would stay down. So the next polls are answered by the reports of the new
/// protocol without usages, each of a kind that the host may have. All else goes to the device behind.
#[derive(Drop)]
pub struct Forgetting<E> {
    pub(crate) forgets: Forgets,
    pub(crate) behind: E,
}

impl<E: Endpoints> Forgetting<E> {
    /// A device that starts in the report protocol.
    pub fn new(behind: E) -> Forgetting<E>
        ensures { E.refines [] behind → RefinesBehind E.refines [] result.forgets result.behind }
    {
        Forgetting {
            forgets: Forgets::new(),
            behind,
        }
    }
}

impl<E: Endpoints> Endpoints for Forgetting<E> {
    ghost refines = { λ calls f. RefinesBehind E.refines calls f.forgets f.behind };

    ghost keeps = { λ from f. E.keeps from.behind f.behind };

    fn setup(&mut self, packet: [u8; 8]) {
        self.forgets.setup(packet);
        self.behind.setup(packet);
    }

    fn out(&mut self, packet: &[u8]) -> EpAnswer {
        self.behind.out(packet)
    }

    fn in_packet(&mut self) -> EpAnswer {
        let answer = self.behind.in_packet();
        self.forgets.answered(&answer);
        answer
    }

    fn poll(&mut self) -> Option<Report> {
        match self.forgets.owed.first() {
            Some(report) => {
                let blank = Some(report);
                self.forgets.polled(&blank);
                blank
            }
            None => {
                let report = self.behind.poll();
                self.forgets.polled(&report);
                report
            }
        }
    }

    fn bus_reset(&mut self) {
        self.forgets = Forgets::new();
        self.behind.bus_reset();
    }
}

impl<E: Works> Works for Forgetting<E> {
    ghost works = { λ f n. E.works f.behind n.behind };

    fn work(&mut self) {
        self.behind.work();
    }
}

impl<E: ScansMatrix> ScansMatrix for Forgetting<E> {
    ghost scans = { λ f rows n. E.scans f.behind rows n.behind };

    fn scan(&mut self, rows: [u16; 6]) {
        self.behind.scan(rows);
    }
}
