// A checked reader of the characters of one to four bytes of either byte form, by the bytes of its layout.
ghost use Rattle.std.specs.Prelude.{◌≡◌, ◌<◌, length, slice_index};
ghost use Rattle.tables.specs.ByteForms.{byte_form, plain_of};
ghost use Rattle.tables.specs.declared.ByteForm.{ByteForm};
ghost use Rattle.characters.specs.Short.{ShortAt};
ghost use Rattle.characters.specs.ByteCharacter.{LeadOf, FreeBitsOf};

use crate::Character;
use tables::ByteForm;

// A byte form, and the byte of its layout that a byte stands for.
pub trait Layout {
    ghost form: { ByteForm };

    fn form(&self) -> ByteForm
        ensures { result ≡ form };

    fn plain(&self, byte: u8) -> u8
        ensures { result ≡ plain_of form byte };
}

// The free bits of a trailing byte; the radix or more where the byte does not trail.
fn free_bits<L: Layout>(layout: &L, byte: u8) -> u32
    ensures { FreeBitsOf L.form byte result }
{
    u32::from(
        layout
            .plain(byte)
            .wrapping_sub(tables::first_trailing(layout.form())),
    )
}

// The lead is given as the layout's byte, looked up once.
fn two_at<L: Layout>(layout: &L, text: &[u8], at: usize, lead: u8) -> Option<Character>
    requires { LeadOf L.form text.now at 1 × (lead ≡ plain_of L.form (slice_index text.now at)) }
    ensures { ShortAt (byte_form L.form) text.now at result }
{
    let radix = tables::radix(layout.form());
    let a = free_bits(layout, text[at + 1]);
    if radix <= a {
        return None;
    }
    let value = u32::from(lead - 0xC0) * radix + a;
    if value < tables::lowest(layout.form(), 1) {
        return None;
    }
    Some(Character { value, length: 2 })
}

fn three_at<L: Layout>(layout: &L, text: &[u8], at: usize, lead: u8) -> Option<Character>
    requires { LeadOf L.form text.now at 2 × (lead ≡ plain_of L.form (slice_index text.now at)) }
    ensures { ShortAt (byte_form L.form) text.now at result }
{
    let radix = tables::radix(layout.form());
    let a = free_bits(layout, text[at + 1]);
    let b = free_bits(layout, text[at + 2]);
    if radix <= a | b {
        return None;
    }
    let value = (u32::from(lead - 0xE0) * radix + a) * radix + b;
    if value < tables::lowest(layout.form(), 2) || items::is_surrogate(value) {
        return None;
    }
    Some(Character { value, length: 3 })
}

fn four_at<L: Layout>(layout: &L, text: &[u8], at: usize, lead: u8) -> Option<Character>
    requires { LeadOf L.form text.now at 3 × (lead ≡ plain_of L.form (slice_index text.now at)) }
    ensures { ShortAt (byte_form L.form) text.now at result }
{
    let radix = tables::radix(layout.form());
    let a = free_bits(layout, text[at + 1]);
    let b = free_bits(layout, text[at + 2]);
    let c = free_bits(layout, text[at + 3]);
    if radix <= a | b | c {
        return None;
    }
    let value = ((u32::from(lead - 0xF0) * radix + a) * radix + b) * radix + c;
    if value < tables::lowest(layout.form(), 3) || items::is_surrogate(value) {
        return None;
    }
    Some(Character { value, length: 4 })
}

// The character at an offset, if it has 1 to 4 bytes.
pub fn short_at<L: Layout>(layout: &L, text: &[u8], at: usize) -> Option<Character>
    requires { at < length text.now }
    ensures { ShortAt (byte_form L.form) text.now at result }
{
    let lead = layout.plain(text[at]);
    let left = text.len() - at;
    if lead < tables::first_trailing(layout.form()) {
        return Some(Character {
            value: u32::from(lead),
            length: 1,
        });
    }
    match lead {
        0xC0..=0xDF if 2 <= left => two_at(layout, text, at, lead),
        0xE0..=0xEF if 3 <= left => three_at(layout, text, at, lead),
        0xF0..=0xF7 if 4 <= left => four_at(layout, text, at, lead),
        _ => None,
    }
}
