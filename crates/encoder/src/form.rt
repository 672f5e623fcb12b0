// The form that a text is converted to as a type, for the calls that are the same for each: its code units, and how a value is written. It says
// form and units as `items::SourceForm` does: what is written is asked for no item, so that `encoder` stands on no reader of items.
ghost use Rattle.std.specs.Prelude.{◌≡◌, ◌≢◌, ℕ, List, [], ◌+◌, ◌≤◌, length, refl};
ghost use Rattle.forms.specs.Form.{Form, encode};
ghost use Rattle.forms.specs.Forms.{fss_utf, utf_ebcdic, utf16, ucs4};
ghost use Rattle.forms.specs.Buffer.{with_units};
ghost use Rattle.encoder.specs.Target.{target_form};
ghost use Rattle.encoder.specs.declared.Target.{Target};
ghost use Rattle.encoder.specs.declared.Target.TheVariants as target;

use crate::Target;
use tables::ByteForm;
use types::{FssUtf, Ucs4, Utf16, UtfEbcdic};

pub trait TargetForm {
    type Unit;

    // Which form it is, for the measure.
    const TARGET: Target;

    ghost TARGET: { Target };

    // The form by the rules, and the numbers that its code units are.
    ghost form: { Form };

    ghost units: { List Self.Unit → List ℕ };

    // Writes a value's encoding from an offset on, and answers the offset behind it.
    fn write(value: u32, dst: &mut [Self::Unit], at: usize) -> usize
        requires { (encode form value ≢ []) × (at + length (encode form value) ≤ length dst.old) }
        ensures { (result ≡ at + length (encode form value)) × (units dst.new ≡ with_units (units dst.old) at (encode form value)) };

    ghost named: { target_form TARGET ≡ form };

    ghost counted: { (s : List Self.Unit) → length (units s) ≡ length s };
}

impl TargetForm for FssUtf {
    type Unit = u8;

    const TARGET: Target = Target::FssUtf;

    ghost TARGET = { target.FssUtf };

    ghost form = { fss_utf };

    ghost units = { λ s. s };

    fn write(value: u32, dst: &mut [u8], at: usize) -> usize {
        crate::fss_utf::write(value, dst, at)
    }

    ghost named = { refl };

    ghost counted = { λ s. refl };
}

impl TargetForm for UtfEbcdic {
    type Unit = u8;

    const TARGET: Target = Target::UtfEbcdic;

    ghost TARGET = { target.UtfEbcdic };

    ghost form = { utf_ebcdic };

    ghost units = { λ s. s };

    fn write(value: u32, dst: &mut [u8], at: usize) -> usize {
        crate::bytes::write(ByteForm::UtfEbcdic, value, dst, at)
    }

    ghost named = { refl };

    ghost counted = { λ s. refl };
}

impl TargetForm for Utf16 {
    type Unit = u16;

    const TARGET: Target = Target::Utf16;

    ghost TARGET = { target.Utf16 };

    ghost form = { utf16 };

    ghost units = { λ s. s };

    fn write(value: u32, dst: &mut [u16], at: usize) -> usize {
        crate::utf16::write(value, dst, at)
    }

    ghost named = { refl };

    ghost counted = { λ s. refl };
}

impl TargetForm for Ucs4 {
    type Unit = u32;

    const TARGET: Target = Target::Ucs4;

    ghost TARGET = { target.Ucs4 };

    ghost form = { ucs4 };

    ghost units = { λ s. s };

    fn write(value: u32, dst: &mut [u32], at: usize) -> usize {
        crate::ucs4::write(value, dst, at)
    }

    ghost named = { refl };

    ghost counted = { λ s. refl };
}
