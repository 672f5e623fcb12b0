// FSS-UTF and UTF-EBCDIC.
ghost use Rattle.std.specs.Prelude.{◌≡◌, refl, map, ◌+◌, ◌*◌, ◌^◌, ◌<◌, ◌≤◌, length, drop};
ghost use Rattle.forms.specs.Forms.{fss_utf, utf_ebcdic};
ghost use Rattle.laws.proofs.FourForms.{fss_utf_laws, utf_ebcdic_laws};
ghost use Rattle.tables.specs.ByteForms.{byte_form, layout_of, plain_of};
ghost use Rattle.items.specs.ItemAt.{item_at};
ghost use Rattle.items.specs.Tail.{TailIs};

use crate::form::SourceForm;
use tables::{ByteForm, ByteRole};
use types::{Fault, FssUtf, Item, Span, UtfEbcdic};

// The trailing bytes that a lead takes: how many, and the free bits of the lead and of them joined.
#[derive(Clone, Copy)]
struct Tail {
    count: usize,
    value: u32,
}

fn tail_at(form: ByteForm, text: &[u8], from: usize, asked: usize, lead: u32) -> Tail
    requires { (from ≤ length text.now) × ((lead + 1) * (layout_of form).radix ^ asked ≤ 2 ^ 31) }
    ensures { TailIs (layout_of form) (drop from (map (plain_of form) text.now)) asked lead result.count result.value }
{
    let radix = tables::radix(form);
    let low = tables::first_trailing(form);
    let mut value = lead;
    for count in 0..asked {
        let at = from + count;
        if text.len() <= at {
            return Tail { count, value };
        }
        let plain = tables::plain(form, text[at]);
        match tables::role(form, plain) {
            ByteRole::Trailing => value = value * radix + u32::from(plain - low),
            _ => return Tail { count, value },
        }
    }
    Tail {
        count: asked,
        value,
    }
}

pub fn item_at(form: ByteForm, text: &[u8], at: usize) -> Item
    requires { at < length text.now }
    ensures { result ≡ item_at (byte_form form) text.now at }
{
    let plain = tables::plain(form, text[at]);
    let one = Span {
        offset: at,
        length: 1,
    };
    let asked = match tables::role(form, plain) {
        ByteRole::Lead(length) => length - 1,
        ByteRole::Trailing => return Item::Mark(Fault::StrayTrailing, one),
        ByteRole::Invalid => return Item::Mark(Fault::InvalidUnit, one),
    };
    let lead = u32::from(plain - tables::lead_base(form, asked));
    let Tail { count, value } = tail_at(form, text, at + 1, asked, lead);
    let span = Span {
        offset: at,
        length: count + 1,
    };
    if count < asked {
        return Item::Mark(Fault::MissingTrailing, span);
    }
    if value < tables::lowest(form, asked) {
        return Item::Mark(Fault::Overlong, span);
    }
    if crate::is_surrogate(value) {
        return Item::Mark(Fault::Surrogate, span);
    }
    Item::Character(value, span)
}

impl SourceForm for FssUtf {
    type Unit = u8;

    ghost form = { fss_utf };

    ghost units = { λ s. s };

    fn item_at(text: &[u8], at: usize) -> Item {
        item_at(ByteForm::FssUtf, text, at)
    }

    ghost laws = { fss_utf_laws };

    ghost counted = { λ s. refl };
}

impl SourceForm for UtfEbcdic {
    type Unit = u8;

    ghost form = { utf_ebcdic };

    ghost units = { λ s. s };

    fn item_at(text: &[u8], at: usize) -> Item {
        item_at(ByteForm::UtfEbcdic, text, at)
    }

    ghost laws = { utf_ebcdic_laws };

    ghost counted = { λ s. refl };
}
