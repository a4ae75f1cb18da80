//! A maker's lock and pace of feature commands, as a device before a device.

ghost use Rattle.std.specs.Prelude.{◌≡◌, ◌∷◌, [], ℕ, min, List};
ghost use Rattle.std.specs.Option.{option_map};
ghost use Rattle.usb_device.specs.Calls.{EpCall, SetUp, Out, In, Polled, BusReset};
ghost use Rattle.usb_device.specs.Guarding.{GuardCall, Met, Locked, Scanned, Serves, ScansRows, Else, Brings, most_pace};
ghost use Rattle.usb_device.specs.representation.Guarded.{Guards};

use crate::guard::{Guard, Passage};
use crate::{Endpoints, EpAnswer, Report, Works};

/// The longest pace: a host waits 5 seconds for a status stage (section 9.2.6.1).
const MOST_PACE: u16 = 4000;

/// A device that reads a matrix.
pub trait ScansMatrix: Endpoints {
    /// This is a scan with these rows.
    ghost scans: { Self → List ℕ → Self → Type 0 };

    /// A scan of the matrix, which is nothing to the bus.
    fn scan(&mut self, rows: [u16; 6])
        ensures made { scans self.old rows self.new }
        ensures refines { (past : List EpCall) → Self.refines past self.old → Self.refines past self.new };
}

/// A device whose feature commands, operations 1 to 3 of SET_REPORT, a maker locks and slows down.
///
/// While the lock is set a command is stalled before the device behind sees it, and so is the rest of its transfer. Reading
/// goes on, and so does a command that was acknowledged before. With a pace a command is put off by NAK until so many scans
/// have come since the one before, or since the start. Both look at bmRequestType, bRequest, wValue and the operation alone,
/// so a packet that the device behind would stall for its wIndex, length or Report ID is put off too.
///
/// ```rust
/// # fn main() -> Result<(), Box<dyn std::error::Error>> {
/// use wuzhikar::SimFlash;
/// use wuzhikar_device::{Guarded, Keys, TransferError, write};
///
/// let set_key = |keys: &mut Guarded<_>| write(keys, [0x21, 0x09, 3, 3, 0, 0, 6, 0], &[3, 1, 0, 0, 0x05, 0x00], 388);
/// let mut keys = Guarded::new(Keys::start(SimFlash::blank(2).unwrap())?, 0);
/// keys.set_locked(true);
/// assert_eq!(set_key(&mut keys), Err(TransferError::Refused));
/// keys.set_locked(false);
/// assert_eq!(set_key(&mut keys), Ok(()));
/// # Ok(())
/// # }
/// ```
#[derive(Drop)]
pub struct Guarded<E> {
    pub(crate) guard: Guard,
    pub(crate) behind: E,
}

impl<E: Endpoints> Guarded<E> {
    /// The lock is off. The pace is a number of scans, at most 4,000, and 0 for none.
    pub fn new(behind: E, pace: u16) -> Guarded<E>
        ensures { E.refines [] behind → Guards E.refines (min pace most_pace) [] result.guard result.behind }
    {
        Guarded {
            guard: Guard::new(pace.min(MOST_PACE)),
            behind,
        }
    }

    /// Sets the lock, or takes it away.
    pub fn set_locked(&mut self, on: bool)
        ensures { (pace : ℕ) (past : List GuardCall) → Guards E.refines pace past self.old.guard self.old.behind
            → Guards E.refines pace (Locked on ∷ past) self.new.guard self.new.behind }
    {
        self.guard.set_locked(on);
    }
}

impl<E: Endpoints> Endpoints for Guarded<E> {
    ghost use Rattle.usb_device.specs.declared.guarded.Guarded.{Guarded};
    ghost use Rattle.usb_device.specs.representation.Guarded.{RefinesGuarded, Went};

    ghost refines = { λ calls g. RefinesGuarded E.refines calls g.guard g.behind };

    ghost keeps = { λ from g. Went E.refines (Brings Serves) from g };

    fn setup(&mut self, packet: [u8; 8])
        ensures reported { (pace : ℕ) (past : List GuardCall) → Guards E.refines pace past self.old.guard self.old.behind
            → Guards E.refines pace (Met (SetUp packet) ∷ past) self.new.guard self.new.behind }
        ensures kept { (from : Guarded E) → Went E.refines (Brings Serves) from self.old → Went E.refines (Brings Serves) from self.new }
    {
        self.guard.setup(packet);
        self.behind.setup(packet);
    }

    fn out(&mut self, packet: &[u8]) -> EpAnswer
        ensures reported { (pace : ℕ) (past : List GuardCall) → Guards E.refines pace past self.old.guard self.old.behind
            → Guards E.refines pace (Met (Out packet.now result) ∷ past) self.new.guard self.new.behind }
        ensures kept { (from : Guarded E) → Went E.refines (Brings Serves) from self.old → Went E.refines (Brings Serves) from self.new }
    {
        match self.guard.passage(packet) {
            Passage::Refuses => {
                self.guard.refuse();
                EpAnswer::Stall
            }
            Passage::Waits => EpAnswer::Nak,
            Passage::Passes => {
                let answer = self.behind.out(packet);
                self.guard.note(packet, &answer);
                answer
            }
        }
    }

    fn in_packet(&mut self) -> EpAnswer
        ensures reported { (pace : ℕ) (past : List GuardCall) → Guards E.refines pace past self.old.guard self.old.behind
            → Guards E.refines pace (Met (In result) ∷ past) self.new.guard self.new.behind }
        ensures kept { (from : Guarded E) → Went E.refines (Brings Serves) from self.old → Went E.refines (Brings Serves) from self.new }
    {
        if self.guard.is_refused() {
            EpAnswer::Stall
        } else {
            self.behind.in_packet()
        }
    }

    fn poll(&mut self) -> Option<Report>
        ensures reported { (pace : ℕ) (past : List GuardCall) → Guards E.refines pace past self.old.guard self.old.behind
            → Guards E.refines pace (Met (Polled (option_map (λ r. r.items) result)) ∷ past) self.new.guard self.new.behind }
        ensures kept { (from : Guarded E) → Went E.refines (Brings Serves) from self.old → Went E.refines (Brings Serves) from self.new }
    {
        self.behind.poll()
    }

    fn bus_reset(&mut self)
        ensures reported { (pace : ℕ) (past : List GuardCall) → Guards E.refines pace past self.old.guard self.old.behind
            → Guards E.refines pace (Met BusReset ∷ past) self.new.guard self.new.behind }
        ensures kept { (from : Guarded E) → Went E.refines (Brings Serves) from self.old → Went E.refines (Brings Serves) from self.new }
    {
        self.guard.reset();
        self.behind.bus_reset();
    }
}

impl<E: Works> Works for Guarded<E> {
    ghost use Rattle.usb_device.specs.representation.Guarded.{Went};

    ghost works = { λ g n. E.works g.behind n.behind × Went E.Endpoints.refines (Brings Else) g n };

    fn work(&mut self)
        ensures made { E.works self.old.behind self.new.behind }
        ensures reported { (pace : ℕ) (past : List GuardCall) → Guards E.Endpoints.refines pace past self.old.guard self.old.behind
            → Guards E.Endpoints.refines pace past self.new.guard self.new.behind }
        ensures went { Went E.Endpoints.refines (Brings Else) self.old self.new }
    {
        self.behind.work();
    }
}

impl<E: ScansMatrix> ScansMatrix for Guarded<E> {
    ghost use Rattle.usb_device.specs.representation.Guarded.{Went};

    ghost scans = { λ g rows n. E.scans g.behind rows n.behind × Went E.Endpoints.refines (Brings ScansRows) g n };

    fn scan(&mut self, rows: [u16; 6])
        ensures made { E.scans self.old.behind rows self.new.behind }
        ensures reported { (pace : ℕ) (past : List GuardCall) → Guards E.Endpoints.refines pace past self.old.guard self.old.behind
            → Guards E.Endpoints.refines pace (Scanned ∷ past) self.new.guard self.new.behind }
        ensures went { Went E.Endpoints.refines (Brings ScansRows) self.old self.new }
    {
        self.guard.scan();
        self.behind.scan(rows);
    }
}
