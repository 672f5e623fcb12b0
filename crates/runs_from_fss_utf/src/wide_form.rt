// A target form in which a character of a value below 10000 is one code unit, that value.
ghost use Rattle.std.specs.Prelude.{◌≡◌, ◌≢◌, ℕ, [], ◌∷◌, ◌<◌, length, set};
ghost use Rattle.forms.specs.Form.{encode};
ghost use Rattle.laws.proofs.UnitEncodings.{below_surrogates, ucs4_below, ucs4-encoding};
ghost use Rattle.runs_from_fss_utf.specs.ShortUnits.{short_utf16};

use encoder::form::TargetForm;
use types::{Ucs4, Utf16};

pub trait WideForm: TargetForm {
    // Puts the unit of a value into a cell.
    fn put_value(value: u16, dst: &mut [Self::Unit], at: usize)
        requires { at < length dst.old }
        ensures { Self.units dst.new ≡ set (Self.units dst.old) at value };

    ghost below: { (v : ℕ) → v < 0xD800 → encode Self.form v ≡ v ∷ [] };

    ghost short: { (v : ℕ) → v < 0x10000 → encode Self.form v ≢ [] → encode Self.form v ≡ v ∷ [] };
}

impl WideForm for Utf16 {
    fn put_value(value: u16, dst: &mut [u16], at: usize) {
        dst[at] = value;
    }

    ghost below = { below_surrogates };

    ghost short = { short_utf16 };
}

impl WideForm for Ucs4 {
    fn put_value(value: u16, dst: &mut [u32], at: usize) {
        dst[at] = u32::from(value);
    }

    ghost below = { ucs4_below };

    ghost short = { λ v h. ucs4-encoding v };
}
