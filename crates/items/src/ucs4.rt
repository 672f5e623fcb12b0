// UCS-4.
ghost use Rattle.std.specs.Prelude.{◌≡◌, refl};
ghost use Rattle.forms.specs.Forms.{ucs4};
ghost use Rattle.laws.proofs.FourForms.{ucs4_laws};

use crate::form::SourceForm;
use types::{Fault, Item, Span, Ucs4};

impl SourceForm for Ucs4 {
    type Unit = u32;

    ghost form = { ucs4 };

    ghost units = { λ s. s };

    fn item_at(text: &[u32], at: usize) -> Item {
        let unit = text[at];
        let span = Span {
            offset: at,
            length: 1,
        };
        if 0x80000000 <= unit {
            return Item::Mark(Fault::InvalidUnit, span);
        }
        if crate::is_surrogate(unit) {
            return Item::Mark(Fault::Surrogate, span);
        }
        Item::Character(unit, span)
    }

    ghost laws = { ucs4_laws };

    ghost counted = { λ s. refl };
}
