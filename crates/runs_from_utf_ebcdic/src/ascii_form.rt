// A target form in which an ASCII character is one code unit, its value.
ghost use Rattle.std.specs.Prelude.{◌≡◌, ℕ, [], ◌∷◌, ◌<◌, length, set};
ghost use Rattle.forms.specs.Form.{encode};
ghost use Rattle.encoder.proofs.FssUtf.{one_byte};
ghost use Rattle.runs_from_utf_ebcdic.specs.AsciiUnits.{ascii_utf16, ascii_ucs4};

use encoder::form::TargetForm;
use types::{FssUtf, Ucs4, Utf16};

pub trait AsciiForm: TargetForm {
    // Puts the unit of a value into a cell. The value comes as wide as the widest unit: a narrower one is stored without a step more.
    fn put_ascii(value: u32, dst: &mut [Self::Unit], at: usize)
        requires { (value < 0x80) × (at < length dst.old) }
        ensures { Self.units dst.new ≡ set (Self.units dst.old) at value };

    ghost ascii: { (v : ℕ) → v < 0x80 → encode Self.form v ≡ v ∷ [] };
}

impl AsciiForm for FssUtf {
    fn put_ascii(value: u32, dst: &mut [u8], at: usize) {
        dst[at] = value as u8;
    }

    ghost ascii = { one_byte };
}

impl AsciiForm for Utf16 {
    fn put_ascii(value: u32, dst: &mut [u16], at: usize) {
        dst[at] = value as u16;
    }

    ghost ascii = { ascii_utf16 };
}

impl AsciiForm for Ucs4 {
    fn put_ascii(value: u32, dst: &mut [u32], at: usize) {
        dst[at] = value;
    }

    ghost ascii = { ascii_ucs4 };
}
