//! The fault injector: a simulated flash whose next operation can be set to be torn.

ghost use Rattle.std.specs.Prelude.{◌≡◌, ⊤, None, Some};
ghost use Rattle.std.specs.Option.{option_map};
ghost use Rattle.flash_model.specs.Operated.{IsOperated};
ghost use Rattle.world.specs.Asked.{noted};
ghost use Rattle.world.specs.representation.Flash.{torn_by};

use flash_model::{FlashFault, Mask, NorFlash, SLOT_BYTES, SimFlash};

/// A flash operation, as the keyboard asks for it.
#[derive(Clone, Copy, Debug, PartialEq, Eq)]
pub enum Operation {
    /// A page is erased.
    Erase {
        page: usize,
    },
    /// A slot is programmed.
    Program {
        page: usize,
        slot: usize,
        bytes: [u8; SLOT_BYTES],
    },
}

/// A simulated flash, and the mask that its next operation is to be torn by. The mask is armed when
/// the operation comes: where none comes, what is armed already stays so. The latest operation is
/// noted.
#[derive(Debug, Drop)]
pub(crate) struct Injector {
    pub(crate) flash: SimFlash,
    pub(crate) tear: Option<Mask>,
    pub(crate) asked: Option<Operation>,
}

impl Injector {
    /// Notes an operation, and arms the flash where a mask waits.
    fn begin(&mut self, operation: Operation)
        ensures { self.new ≡ record { flash = torn_by (option_map (λ m. m.items) self.old.tear) self.old.flash; tear = None; asked = Some operation } }
    {
        self.asked = Some(operation);
        if let Some(mask) = self.tear.take() {
            self.flash.fault_next(mask);
        }
    }
}

impl NorFlash for Injector {
    ghost image = { λ b. b.flash.image };

    ghost operations = { λ b. b.flash.operations };

    ghost faults = { λ b. b.flash.faults };

    ghost takes_also = { λ b page slot bytes. ⊤ };

    ghost is_faultless = { λ b n. (torn_by (option_map (λ m. m.items) b.tear) b.flash).armed ≡ None };

    ghost operates = { λ b o c. IsOperated (torn_by (option_map (λ m. m.items) b.tear) b.flash) o c.flash × ((c.tear ≡ None) × (c.asked ≡ Some (noted o))) };

    fn pages(&self) -> usize {
        self.flash.pages()
    }

    fn read_slot(&self, page: usize, slot: usize) -> [u8; SLOT_BYTES] {
        self.flash.read_slot(page, slot)
    }

    fn program_slot(
        &mut self,
        page: usize,
        slot: usize,
        bytes: [u8; SLOT_BYTES],
    ) -> Result<(), FlashFault> {
        self.begin(Operation::Program { page, slot, bytes });
        self.flash.program_slot(page, slot, bytes)
    }

    fn erase_page(&mut self, page: usize) -> Result<(), FlashFault> {
        self.begin(Operation::Erase { page });
        self.flash.erase_page(page)
    }
}
