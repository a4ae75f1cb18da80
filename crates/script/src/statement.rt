//! What a line of a script says.

ghost use Rattle.std.specs.Prelude.{◌≡◌, ◌≢◌, ◌≤◌, ◌↔◌, ℕ, MatchOption, IfOk, IfErr, IsTrue, []};
ghost use Rattle.script.specs.Statements.{spelling, Takes, IsFault, Says};
ghost use Rattle.script.specs.representation.Statements.{Reads};
ghost use Rattle.script.specs.Words.{words};

use crate::LineFault;
use crate::keys::keys;
use crate::mask::MaskWord;
use crate::number::{byte, bytes, count, number, packet};
use crate::words::Words;
use arrayvec::ArrayVec;
use debounce::Scan;
use flash_model::PAGE_SLOTS;
use layers::{KeyNo, LayerNo};
use std::num::NonZeroU16;

/// The most keys that a scan names.
const MOST_KEYS: usize = 96;

/// The first word of a line.
#[derive(Clone, Copy, Debug, PartialEq, Eq)]
pub enum Keyword {
    Scan,
    Scans,
    Poll,
    Setup,
    Out,
    In,
    Work,
    WorkFault,
    Cut,
    CutWork,
    Reset,
    Entry,
    Slot,
    Leds,
    Set,
    Fetch,
}

/// All first words of lines.
pub const KEYWORDS: [Keyword; 16] = [
    Keyword::Scan,
    Keyword::Scans,
    Keyword::Poll,
    Keyword::Setup,
    Keyword::Out,
    Keyword::In,
    Keyword::Work,
    Keyword::WorkFault,
    Keyword::Cut,
    Keyword::CutWork,
    Keyword::Reset,
    Keyword::Entry,
    Keyword::Slot,
    Keyword::Leds,
    Keyword::Set,
    Keyword::Fetch,
];

impl Keyword {
    /// The keyword that a word spells.
    pub(crate) fn read(word: &[u8]) -> Option<Keyword>
        ensures { MatchOption result
            ((k : Keyword) → spelling k ≢ word.now)
            (λ k. spelling k ≡ word.now) }
    {
        for keyword in KEYWORDS {
            if keyword.spelling() == word {
                return Some(keyword);
            }
        }
        None
    }

    /// Whether these words may follow, by their number.
    pub(crate) fn takes(self, rest: Words<'_>) -> bool
        ensures { IsTrue result ↔ Takes self (words rest.entry.rest.now) }
    {
        let count = rest.count();
        match self {
            Keyword::Scan => count <= MOST_KEYS,
            Keyword::Scans => 1 <= count && count <= MOST_KEYS + 1,
            Keyword::Out => count <= 1,
            Keyword::Setup | Keyword::WorkFault | Keyword::CutWork => count == 1,
            Keyword::Entry | Keyword::Slot => count == 2,
            Keyword::Set => count == 3,
            Keyword::Poll
            | Keyword::In
            | Keyword::Work
            | Keyword::Cut
            | Keyword::Reset
            | Keyword::Leds
            | Keyword::Fetch => count == 0,
        }
    }

    /// The word that spells a keyword.
    pub fn spelling(self) -> &'static [u8]
        ensures { result.now ≡ spelling self }
    {
        match self {
            Keyword::Scan => b"scan",
            Keyword::Scans => b"scans",
            Keyword::Poll => b"poll",
            Keyword::Setup => b"setup",
            Keyword::Out => b"out",
            Keyword::In => b"in",
            Keyword::Work => b"work",
            Keyword::WorkFault => b"workfault",
            Keyword::Cut => b"cut",
            Keyword::CutWork => b"cutwork",
            Keyword::Reset => b"reset",
            Keyword::Entry => b"entry",
            Keyword::Slot => b"slot",
            Keyword::Leds => b"leds",
            Keyword::Set => b"set",
            Keyword::Fetch => b"fetch",
        }
    }
}

/// What a line says, ready to be run.
#[derive(Debug, Drop, PartialEq, Eq)]
pub enum Statement<'t> {
    /// One event.
    One(Action<'t>),
    /// Equal scans, so many.
    Scans { count: NonZeroU16, scan: Scan },
    /// A whole feature transfer that sets an entry, with the flash work that it takes.
    Set { layer: u8, key: u8, code: u16 },
    /// A whole transfer of the report descriptor.
    Fetch,
}

/// A line of one event.
#[derive(Debug, Drop, PartialEq, Eq)]
pub enum Action<'t> {
    /// A scan of the matrix.
    Scan(Scan),
    /// A poll of endpoint 1.
    Poll,
    /// A SETUP packet.
    Setup([u8; 8]),
    /// An OUT data packet.
    Out(ArrayVec<u8, 8>),
    /// An IN token.
    In,
    /// A step of the flash work.
    Work,
    /// A step of the flash work whose operation is torn by a mask and fails.
    WorkFault(MaskWord<'t>),
    /// A power cut.
    Cut,
    /// A power cut inside the operation of a step of the flash work, torn by a mask.
    CutWork(MaskWord<'t>),
    /// A bus reset.
    Reset,
    /// A look at an entry of the keymap.
    Entry(LayerNo, KeyNo),
    /// A look at a slot of the flash.
    Slot { page: u8, slot: u16 },
    /// A look at the LEDs.
    Leds,
}

impl<'t> Statement<'t> {
    /// What a line of words says to a device with a flash of this many pages; `None` without a
    /// word. The first word is checked first, then the number of words, then each from the left.
    pub(crate) fn read(
        pages: usize,
        mut rest: Words<'t>,
    ) -> Result<Option<Statement<'t>>, LineFault>
        requires { pages ≤ 256 }
        ensures said { IfOk result (λ said. MatchOption said
            (words rest.entry.rest.now ≡ [])
            (λ s. Says pages s (words rest.entry.rest.now))) }
        ensures faulty { IfErr result (λ f. IsFault pages (words rest.entry.rest.now) f) }
    {
        let Some(name) = rest.next() else {
            return Ok(None);
        };
        let Some(keyword) = Keyword::read(name) else {
            return Err(LineFault::UnknownWord);
        };
        Ok(Some(Statement::after(pages, keyword, rest)?))
    }

    /// What a line says that begins with this word and goes on with these.
    fn after(pages: usize, keyword: Keyword, rest: Words<'t>) -> Result<Statement<'t>, LineFault>
        requires { pages ≤ 256 }
        ensures { Reads pages keyword (words rest.entry.rest.now) result }
    {
        if !keyword.takes(rest) {
            return Err(LineFault::WrongWords);
        }
        Statement::of(pages, keyword, rest)
    }

    /// The same, where so many words may follow.
    fn of(pages: usize, keyword: Keyword, rest: Words<'t>) -> Result<Statement<'t>, LineFault>
        requires few_pages { pages ≤ 256 }
        requires taken { Takes keyword (words rest.rest.now) }
        ensures { Reads pages keyword (words rest.entry.rest.now) result }
    {
        match keyword {
            Keyword::Scan => scan(rest),
            Keyword::Scans => scans(rest),
            Keyword::Poll => Ok(Statement::One(Action::Poll)),
            Keyword::Setup => setup(rest),
            Keyword::Out => out(rest),
            Keyword::In => Ok(Statement::One(Action::In)),
            Keyword::Work => Ok(Statement::One(Action::Work)),
            Keyword::WorkFault => work_fault(rest),
            Keyword::Cut => Ok(Statement::One(Action::Cut)),
            Keyword::CutWork => cut_work(rest),
            Keyword::Reset => Ok(Statement::One(Action::Reset)),
            Keyword::Entry => entry(rest),
            Keyword::Slot => slot(pages, rest),
            Keyword::Leds => Ok(Statement::One(Action::Leds)),
            Keyword::Set => set(rest),
            Keyword::Fetch => Ok(Statement::Fetch),
        }
    }
}

fn scan(rest: Words<'_>) -> Result<Statement<'_>, LineFault>
    requires { Takes Keyword.Scan (words rest.rest.now) }
    ensures { (pages : ℕ) → Reads pages Keyword.Scan (words rest.entry.rest.now) result }
{
    Ok(Statement::One(Action::Scan(keys(rest)?)))
}

fn scans(mut rest: Words<'_>) -> Result<Statement<'_>, LineFault>
    requires { Takes Keyword.Scans (words rest.rest.now) }
    ensures { (pages : ℕ) → Reads pages Keyword.Scans (words rest.entry.rest.now) result }
{
    let count = count(rest.word())?;
    let scan = keys(rest)?;
    Ok(Statement::Scans { count, scan })
}

fn setup(mut rest: Words<'_>) -> Result<Statement<'_>, LineFault>
    requires { Takes Keyword.Setup (words rest.rest.now) }
    ensures { (pages : ℕ) → Reads pages Keyword.Setup (words rest.entry.rest.now) result }
{
    let packet = bytes(rest.word())?;
    Ok(Statement::One(Action::Setup(packet)))
}

fn out(mut rest: Words<'_>) -> Result<Statement<'_>, LineFault>
    requires { Takes Keyword.Out (words rest.rest.now) }
    ensures { (pages : ℕ) → Reads pages Keyword.Out (words rest.entry.rest.now) result }
{
    let Some(word) = rest.next() else {
        return Ok(Statement::One(Action::Out(ArrayVec::new())));
    };
    Ok(Statement::One(Action::Out(packet(word)?)))
}

fn work_fault(mut rest: Words<'_>) -> Result<Statement<'_>, LineFault>
    requires { Takes Keyword.WorkFault (words rest.rest.now) }
    ensures { (pages : ℕ) → Reads pages Keyword.WorkFault (words rest.entry.rest.now) result }
{
    let mask = MaskWord::read(rest.word())?;
    Ok(Statement::One(Action::WorkFault(mask)))
}

fn cut_work(mut rest: Words<'_>) -> Result<Statement<'_>, LineFault>
    requires { Takes Keyword.CutWork (words rest.rest.now) }
    ensures { (pages : ℕ) → Reads pages Keyword.CutWork (words rest.entry.rest.now) result }
{
    let mask = MaskWord::read(rest.word())?;
    Ok(Statement::One(Action::CutWork(mask)))
}

fn entry(mut rest: Words<'_>) -> Result<Statement<'_>, LineFault>
    requires { Takes Keyword.Entry (words rest.rest.now) }
    ensures { (pages : ℕ) → Reads pages Keyword.Entry (words rest.entry.rest.now) result }
{
    let layer = LayerNo::known(number(rest.word(), 4)? as u8);
    let key = KeyNo::known(number(rest.word(), 96)? as u8);
    Ok(Statement::One(Action::Entry(layer, key)))
}

fn slot(pages: usize, mut rest: Words<'_>) -> Result<Statement<'_>, LineFault>
    requires few_pages { pages ≤ 256 }
    requires taken { Takes Keyword.Slot (words rest.rest.now) }
    ensures { Reads pages Keyword.Slot (words rest.entry.rest.now) result }
{
    let page = number(rest.word(), pages as u32)? as u8;
    let slot = number(rest.word(), PAGE_SLOTS as u32)? as u16;
    Ok(Statement::One(Action::Slot { page, slot }))
}

fn set(mut rest: Words<'_>) -> Result<Statement<'_>, LineFault>
    requires { Takes Keyword.Set (words rest.rest.now) }
    ensures { (pages : ℕ) → Reads pages Keyword.Set (words rest.entry.rest.now) result }
{
    let layer = byte(rest.word())?;
    let key = byte(rest.word())?;
    let code = u16::from_be_bytes(bytes(rest.word())?);
    Ok(Statement::Set { layer, key, code })
}
