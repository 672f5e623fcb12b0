// What items and faults tell, and the refusals that concern no item: functions of the types that the calls share. Each says by the rules of
// `forms` what it gives.
#![tactic(auto)]

ghost use Rattle.std.specs.Prelude.{◌≡◌};
ghost use Rattle.forms.specs.Fault.{number_of, refusal};
ghost use Rattle.forms.specs.Form.{span_of};
ghost use Rattle.forms.specs.Forms.{turned_away};
ghost use Rattle.forms.specs.Conversion.{unheld_by, refusal_at};
ghost use Rattle.forms.specs.Lossy.{value_of, mark_count};

use types::{Fault, Item, Refusal, Span};

// Document 01's number of a fault: the one that `types` gives it. By a call that is not inlined, so that the numbers stand in the archive
// once.
#[inline(never)]
pub fn number(fault: Fault) -> u32
    ensures { result ≡ number_of fault }
{
    fault as u32
}

pub fn span(item: Item) -> Span
    ensures { result ≡ span_of item }
{
    match item {
        Item::Character(_, span) => span,
        Item::Mark(_, span) => span,
    }
}

// What a lossy decoding shows of the item: a character's value, FFFFFFFF for a mark.
pub fn value(item: Item) -> u32
    ensures { result ≡ value_of item }
{
    match item {
        Item::Character(value, _) => value,
        Item::Mark(_, _) => 0xFFFFFFFF,
    }
}

// 1 for a mark, 0 for a character.
pub fn mark_count(item: Item) -> usize
    ensures { result ≡ mark_count item }
{
    match item {
        Item::Character(_, _) => 0,
        Item::Mark(_, _) => 1,
    }
}

// Why a strict conversion stops at a character that it does not write: FFFE and FFFF by 12, any other by 6.
fn unheld(value: u32) -> Fault
    ensures { result ≡ unheld_by (turned_away value) }
{
    if (value >= 0xFFFE) & (value <= 0xFFFF) {
        Fault::NonCharacter
    } else {
        Fault::Unrepresentable
    }
}

// Why a strict conversion stops at this item: a mark's fault, or that of a character which it does not write.
pub fn refusal(item: Item) -> Refusal
    ensures { result ≡ refusal_at turned_away item }
{
    match item {
        Item::Character(value, span) => Refusal {
            fault: unheld(value),
            offset: span.offset,
        },
        Item::Mark(fault, span) => Refusal {
            fault,
            offset: span.offset,
        },
    }
}

pub fn source_too_long() -> Refusal
    ensures { result ≡ refusal Fault.SourceTooLong 0 }
{
    Refusal {
        fault: Fault::SourceTooLong,
        offset: 0,
    }
}

pub fn buffer_too_short() -> Refusal
    ensures { result ≡ refusal Fault.BufferTooShort 0 }
{
    Refusal {
        fault: Fault::BufferTooShort,
        offset: 0,
    }
}

pub fn offset_out_of_range(offset: usize) -> Refusal
    ensures { result ≡ refusal Fault.OffsetOutOfRange offset }
{
    Refusal {
        fault: Fault::OffsetOutOfRange,
        offset,
    }
}
