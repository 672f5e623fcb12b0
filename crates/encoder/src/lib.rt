// Values written in a target form. Here: how many code units strict conversion writes for a value. `form` has the target forms as types, and
// what writes one value: `bytes`, `utf16` and `ucs4`, by the width of the code units. `fss_utf` and `utf_ebcdic` write one by straight code,
// and `blocks` many at once, by `fss_utf_blocks` and `utf16_blocks`, within `value_bounds`. These functions ask that the value is a
// character's and that the room suffices, a fact of value and buffer together, which no type of one could hold: the calls of `conversion` ask
// nothing.
#![tactic(auto)]

pub mod blocks;
pub mod bytes;
pub mod form;
pub mod fss_utf;
pub mod fss_utf_blocks;
pub mod ucs4;
pub mod utf16;
pub mod utf16_blocks;
pub mod utf_ebcdic;
pub mod value_bounds;

ghost use Rattle.std.specs.Prelude.{◌≡◌, ◌≢◌, [], length};
ghost use Rattle.forms.specs.Form.{encode};
ghost use Rattle.forms.specs.Forms.{ucs4, is_non_character, strictly};
ghost use Rattle.encoder.specs.Target.{target_form};

use tables::ByteForm;

// The form that a text is converted to. The measure takes it as a value and no type, so that it is one function for all targets.
#[derive(Clone, Copy, PartialEq, Eq, Debug)]
pub enum Target {
    FssUtf,
    UtfEbcdic,
    Utf16,
    Ucs4,
}

// Whether a value is one that strict conversion turns away. `answers`, which tells its fault, has the same line: shared,
// one would have to stand on the other.
pub fn is_non_character(value: u32) -> bool
    ensures { result ≡ is_non_character value }
{
    (0xFFFE..=0xFFFF).contains(&value)
}

// How many code units the legal encoding of a character's value has: 0, and no Option, where the target does not hold it, since its encoding
// is empty there.
fn legal_length(target: Target, value: u32) -> usize
    requires { encode ucs4 value ≢ [] }
    ensures { result ≡ length (encode (target_form target) value) }
{
    match target {
        Target::FssUtf => crate::bytes::encoded_length(ByteForm::FssUtf, value),
        Target::UtfEbcdic => crate::bytes::encoded_length(ByteForm::UtfEbcdic, value),
        Target::Utf16 => crate::utf16::encoded_length(value),
        Target::Ucs4 => 1,
    }
}

// How many of them strict conversion writes: 0 for what it turns away.
pub fn encoded_length(target: Target, value: u32) -> usize
    requires { encode ucs4 value ≢ [] }
    ensures { result ≡ length (encode (strictly (target_form target)) value) }
{
    if is_non_character(value) {
        return 0;
    }
    legal_length(target, value)
}
