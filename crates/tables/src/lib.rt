// Roles, lead bases and lowest values for both byte layouts; `exchange` has the tables of the exchange and its inverse, and the shadow flags.
// Each function's contract says by the rules what it gives; `specs/ByteForms` has the two forms by one parameter.
#![tactic(auto)]

pub mod exchange;

ghost use Rattle.std.specs.Prelude.{◌≡◌, ◌<◌, ◌≤◌, length};
ghost use Rattle.forms.specs.Layout.{role_of, row_at, lowest_of};
ghost use Rattle.tables.specs.ByteForms.{layout_of, plain_of, unit_of, role_seen};

// The two forms whose code units are bytes. A parameter, since the tables are two cases of one layout, by which the proofs go too: readers
// that carry a table have the trait `Layout` of `characters`.
#[derive(Clone, Copy, PartialEq, Eq, Debug)]
pub enum ByteForm {
    FssUtf,
    UtfEbcdic,
}

// By the number of trailing bytes: the first lead, the same in both layouts.
const LEAD_BASES: [u8; 7] = [0x00, 0xC0, 0xE0, 0xF0, 0xF8, 0xFC, 0xFE];

// By the number of trailing bytes: the lowest value, with one entry more for what no sequence reaches.
const LOWEST_FSS_UTF: [u32; 7] = [0x0, 0x80, 0x800, 0x10000, 0x200000, 0x4000000, 0x80000000];

const LOWEST_I8: [u32; 8] = [
    0x0, 0xA0, 0x400, 0x4000, 0x40000, 0x400000, 0x4000000, 0x80000000,
];

// The byte of the layout that a form's byte stands for.
pub fn plain(form: ByteForm, byte: u8) -> u8
    ensures { result ≡ plain_of form byte }
{
    match form {
        ByteForm::FssUtf => byte,
        ByteForm::UtfEbcdic => crate::exchange::exchange(byte),
    }
}

// The form's byte that stands for a byte of the layout.
pub fn unit(form: ByteForm, plain: u8) -> u8
    ensures { result ≡ unit_of form plain }
{
    match form {
        ByteForm::FssUtf => plain,
        ByteForm::UtfEbcdic => crate::exchange::inverse(plain),
    }
}

// What a byte of the layout does: it leads a sequence of so many bytes, trails a lead, or stands in no sequence.
#[derive(Clone, Copy, PartialEq, Eq)]
pub enum ByteRole {
    Lead(usize),
    Trailing,
    Invalid,
}

// The role of a byte of the layout.
pub fn role(form: ByteForm, plain: u8) -> ByteRole
    ensures { result ≡ role_seen (role_of (layout_of form) plain) }
{
    match form {
        ByteForm::FssUtf => role_fss_utf(plain),
        ByteForm::UtfEbcdic => role_i8(plain),
    }
}

fn role_fss_utf(plain: u8) -> ByteRole
    ensures { result ≡ role_seen (role_of (layout_of ByteForm.FssUtf) plain) }
{
    match plain {
        0x00..=0x7F => ByteRole::Lead(1),
        0x80..=0xBF => ByteRole::Trailing,
        0xC0..=0xDF => ByteRole::Lead(2),
        0xE0..=0xEF => ByteRole::Lead(3),
        0xF0..=0xF7 => ByteRole::Lead(4),
        0xF8..=0xFB => ByteRole::Lead(5),
        0xFC..=0xFD => ByteRole::Lead(6),
        0xFE..=0xFF => ByteRole::Invalid,
    }
}

// By the shadow flags, which number the leads by the bytes of their sequences, but for those of one byte.
fn role_i8(plain: u8) -> ByteRole
    ensures { result ≡ role_seen (role_of (layout_of ByteForm.UtfEbcdic) plain) }
{
    match crate::exchange::flag(plain) {
        0 => ByteRole::Lead(1),
        9 => ByteRole::Trailing,
        length => ByteRole::Lead(usize::from(length)),
    }
}

// The first trailing byte of the layout.
pub fn first_trailing(form: ByteForm) -> u8
    ensures { result ≡ (layout_of form).low }
{
    match form {
        ByteForm::FssUtf => 0x80,
        ByteForm::UtfEbcdic => 0xA0,
    }
}

// How many values a trailing byte has: two to the power of its free bits.
pub fn radix(form: ByteForm) -> u32
    ensures { result ≡ (layout_of form).radix }
{
    match form {
        ByteForm::FssUtf => 64,
        ByteForm::UtfEbcdic => 32,
    }
}

// The first lead of so many trailing bytes.
pub fn lead_base(form: ByteForm, trailing: usize) -> u8
    requires { trailing < length (layout_of form).rows }
    ensures { result ≡ (row_at (layout_of form) trailing).first }
{
    LEAD_BASES[trailing]
}

// The lowest value of so many trailing bytes.
pub fn lowest(form: ByteForm, trailing: usize) -> u32
    requires { trailing ≤ length (layout_of form).rows }
    ensures { result ≡ lowest_of (layout_of form) trailing }
{
    match form {
        ByteForm::FssUtf => LOWEST_FSS_UTF[trailing],
        ByteForm::UtfEbcdic => LOWEST_I8[trailing],
    }
}
