// UTF-16.
ghost use Rattle.std.specs.Prelude.{◌≡◌, refl};
ghost use Rattle.forms.specs.Forms.{utf16};
ghost use Rattle.laws.proofs.FourForms.{utf16_laws};

use crate::form::SourceForm;
use types::{Fault, Item, Span, Utf16};

impl SourceForm for Utf16 {
    type Unit = u16;

    ghost form = { utf16 };

    ghost units = { λ s. s };

    fn item_at(text: &[u16], at: usize) -> Item {
        let unit = u32::from(text[at]);
        let one = Span {
            offset: at,
            length: 1,
        };
        if unit < 0xD800 {
            return Item::Character(unit, one);
        }
        if 0xE000 <= unit {
            return Item::Character(unit, one);
        }
        if 0xDC00 <= unit {
            return Item::Mark(Fault::StrayTrailing, one);
        }
        if text.len() <= at + 1 {
            return Item::Mark(Fault::MissingTrailing, one);
        }
        let next = u32::from(text[at + 1]);
        if !matches!(next, 0xDC00..=0xDFFF) {
            return Item::Mark(Fault::MissingTrailing, one);
        }
        Item::Character(
            0x10000 + (unit - 0xD800) * 0x400 + (next - 0xDC00),
            Span {
                offset: at,
                length: 2,
            },
        )
    }

    ghost laws = { utf16_laws };

    ghost counted = { λ s. refl };
}
