//! The masks of torn operations, as lines write them.

ghost use Rattle.std.specs.Prelude.{◌≡◌, ◌≤◌, MatchResult, length, nat_eq};
ghost use Rattle.std.specs.Cmp.{partial_equiv_from_equiv};
ghost use Rattle.std.specs.Cmp.Lexicographic.{pointwise, nat_list_eq_equiv};
ghost use Rattle.script.specs.Masks.{IsMaskWord, WritesMask};

use crate::LineFault;
use crate::number::bytes_up_to;
use arrayvec::ArrayVec;
use flash_model::Mask;
use std::marker::Model;

/// The word of a mask: 1 to 4,096 bytes in hex, two digits a byte, or `-` for none. Its bytes are read
/// where they are used, so that a script takes no memory for its masks beside its text. Two are equal
/// where they are written alike.
#[derive(Debug, Drop)]
pub struct MaskWord<'t> {
    word: &'t [u8],
}

impl<'t> Model for MaskWord<'t> {
    ghost use Rattle.std.specs.Prelude.{ℕ, List};
    ghost use Rattle.script.specs.Masks.{IsMaskWord};

    ghost Value = { List ℕ };

    ghost view = { λ m. m.word.now };

    ghost invariant = { λ m. IsMaskWord m.word.now };
}

impl<'t> MaskWord<'t> {
    /// The word of a mask; `BadHex` where it writes none.
    pub(crate) fn read(word: &'t [u8]) -> Result<MaskWord<'t>, LineFault>
        ensures { MatchResult result
            (λ mask. (mask ≡ word.now) × IsMaskWord word.now)
            (λ f. (f ≡ LineFault.BadHex) × ¬ (IsMaskWord word.now)) }
    {
        mask_of(word)?;
        Ok(MaskWord { word })
    }

    /// The mask.
    pub fn mask(&self) -> Mask
        ensures { WritesMask self.now result.items }
    {
        match mask_of(self.word) {
            Ok(mask) => mask,
            Err(_) => unreachable!(),
        }
    }
}

impl<'t> PartialEq for MaskWord<'t> {
    ghost eq = { pointwise nat_eq };

    ghost laws = { partial_equiv_from_equiv nat_list_eq_equiv };

    fn eq(&self, other: &MaskWord<'t>) -> bool {
        self.word == other.word
    }
}

impl<'t> Eq for MaskWord<'t> {
    ghost laws = { nat_list_eq_equiv };
}

/// The mask that a word writes; `BadHex` where it writes none.
fn mask_of(word: &[u8]) -> Result<Mask, LineFault>
    ensures { MatchResult result
        (λ mask. WritesMask word.now mask.items × IsMaskWord word.now)
        (λ f. (f ≡ LineFault.BadHex) × ¬ (IsMaskWord word.now)) }
{
    match word {
        b"-" => Ok(ArrayVec::new()),
        _ => match bytes_up_to(word) {
            Ok(mask) => Ok(mask),
            Err(_) => Err(LineFault::BadHex),
        },
    }
}
