// The answers as C sees them: structs of numbers, for kinds and faults too, since C has no enums that hold values. `specs/Answer` says
// which number stands for which case.
#![tactic(auto)]

ghost use Rattle.std.specs.Prelude.{◌≡◌};
ghost use Rattle.c_answers.specs.Answer.{item_answer, found_answer, shown_item, refused_item, conversion_answer, decoding_answer};

use reader::Step;
use types::{Counts, Item, Refusal};

#[repr(C)]
#[derive(Clone, Copy)]
pub struct JkItem {
    pub kind: u32,
    pub fault: u32,
    pub value: u32,
    pub offset: u64,
    pub length: u64,
}

impl From<Result<Step, Refusal>> for JkItem {
    ghost from_gives = { λ step r. r ≡ item_answer step };

    fn from(step: Result<Step, Refusal>) -> JkItem {
        match step {
            Ok(Step::End(at)) => JkItem {
                kind: 0,
                fault: 0,
                value: 0,
                offset: at.offset as u64,
                length: 0,
            },
            Ok(Step::Next(item, _)) => shown_item(item),
            Err(refusal) => refused_item(refusal),
        }
    }
}

impl From<Result<Item, Refusal>> for JkItem {
    ghost from_gives = { λ found r. r ≡ found_answer found };

    fn from(found: Result<Item, Refusal>) -> JkItem {
        match found {
            Ok(item) => shown_item(item),
            Err(refusal) => refused_item(refusal),
        }
    }
}

fn shown_item(item: Item) -> JkItem
    ensures { result ≡ shown_item item }
{
    match item {
        Item::Character(value, span) => JkItem {
            kind: 1,
            fault: 0,
            value,
            offset: span.offset as u64,
            length: span.length as u64,
        },
        Item::Mark(fault, span) => JkItem {
            kind: 2,
            fault: answers::number(fault),
            value: 0,
            offset: span.offset as u64,
            length: span.length as u64,
        },
    }
}

fn refused_item(refusal: Refusal) -> JkItem
    ensures { result ≡ refused_item refusal }
{
    JkItem {
        kind: 3,
        fault: answers::number(refusal.fault),
        value: 0,
        offset: refusal.offset as u64,
        length: 0,
    }
}

#[repr(C)]
#[derive(Clone, Copy)]
pub struct JkConversion {
    pub fault: u32,
    pub offset: u64,
    pub units: u64,
}

impl From<Result<usize, Refusal>> for JkConversion {
    ghost from_gives = { λ conversion r. r ≡ conversion_answer conversion };

    fn from(conversion: Result<usize, Refusal>) -> JkConversion {
        match conversion {
            Ok(units) => JkConversion {
                fault: 0,
                offset: 0,
                units: units as u64,
            },
            Err(refusal) => JkConversion {
                fault: answers::number(refusal.fault),
                offset: refusal.offset as u64,
                units: 0,
            },
        }
    }
}

#[repr(C)]
#[derive(Clone, Copy)]
pub struct JkDecoding {
    pub fault: u32,
    pub offset: u64,
    pub items: u64,
    pub marks: u64,
}

impl From<Result<Counts, Refusal>> for JkDecoding {
    ghost from_gives = { λ decoding r. r ≡ decoding_answer decoding };

    fn from(decoding: Result<Counts, Refusal>) -> JkDecoding {
        match decoding {
            Ok(counts) => JkDecoding {
                fault: 0,
                offset: 0,
                items: counts.items as u64,
                marks: counts.marks as u64,
            },
            Err(refusal) => JkDecoding {
                fault: answers::number(refusal.fault),
                offset: refusal.offset as u64,
                items: 0,
                marks: 0,
            },
        }
    }
}
