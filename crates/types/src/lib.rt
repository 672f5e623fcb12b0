// The types that every call speaks in: forms, faults, items, refusals and answers. The rules about them are the definitions of `forms`.
//
// A call answers a `Result`: its answer, or the refusal.

#![tactic(auto)]

// Document 01's faults and those of requests 104 and 110, with their numbers.
#[derive(Clone, Copy, PartialEq, Eq, Debug)]
pub enum Fault {
    SourceTooLong = 1,
    MissingTrailing = 2,
    StrayTrailing = 3,
    InvalidUnit = 4,
    Overlong = 5,
    Unrepresentable = 6,
    BufferTooShort = 7,
    OffsetOutOfRange = 9,
    Surrogate = 10,
    NonCharacter = 12,
}

// Where an item stands: the offset of its first code unit, and how many code units it has.
#[derive(Clone, Copy, PartialEq, Eq, Debug)]
pub struct Span {
    pub offset: usize,
    pub length: usize,
}

// Document 01's item: a character, or a mark, which names its fault.
#[derive(Clone, Copy, PartialEq, Eq, Debug)]
pub enum Item {
    Character(u32, Span),
    Mark(Fault, Span),
}

// Document 01's refusal: why a call gave no result, and the offset that the fault concerns.
#[derive(Clone, Copy, PartialEq, Eq, Debug)]
pub struct Refusal {
    pub fault: Fault,
    pub offset: usize,
}

// How many items a text has, and how many of them are marks.
#[derive(Clone, Copy, PartialEq, Eq, Debug)]
pub struct Counts {
    pub items: usize,
    pub marks: usize,
}

// How far one step of a conversion came: the code units that it took, whole characters all, and how many they are in the target. Runs add
// up, and one that took nothing is a run like another, so that this is no Option: then the next item is to be read by itself.
#[derive(Clone, Copy, PartialEq, Eq, Debug)]
pub struct Run {
    pub length: usize,
    pub units: usize,
}

// The four forms, as types: a call says by them what it reads and what it writes.
#[derive(Clone, Copy, PartialEq, Eq, Debug)]
pub struct FssUtf;

#[derive(Clone, Copy, PartialEq, Eq, Debug)]
pub struct UtfEbcdic;

#[derive(Clone, Copy, PartialEq, Eq, Debug)]
pub struct Utf16;

#[derive(Clone, Copy, PartialEq, Eq, Debug)]
pub struct Ucs4;
