// The item at an offset inside a text: `SourceForm` has the promise, and `bytes`, `utf16` and `ucs4` keep it for the four forms. It asks that
// the offset lies inside: the calls of `reader` ask nothing. `bytes::item_at` takes the byte form as a value.
#![tactic(auto)]

pub mod bytes;
mod form;
mod ucs4;
mod utf16;

ghost use Rattle.std.specs.Prelude.{◌≡◌};
ghost use Rattle.forms.specs.Forms.{is_surrogate};

pub use form::SourceForm;

// Whether a value is one that no form carries.
pub fn is_surrogate(value: u32) -> bool
    ensures { result ≡ is_surrogate value }
{
    (value >= 0xD800) & (value <= 0xDFFF)
}
