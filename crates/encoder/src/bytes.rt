// The legal encoding of one value in FSS-UTF or UTF-EBCDIC: its length, and the bytes written from the last to the first.
ghost use Rattle.std.specs.Prelude.{◌≡◌, ◌≢◌, [], ◌+◌, ◌≤◌, length};
ghost use Rattle.forms.specs.Form.{encode};
ghost use Rattle.forms.specs.Buffer.{with_units};
ghost use Rattle.tables.specs.ByteForms.{byte_form};

use tables::ByteForm;

// How many bytes a value has, without a loop: a constant table costs nothing where the compiler knows the index.
pub fn encoded_length(form: ByteForm, value: u32) -> usize
    requires { encode (byte_form form) value ≢ [] }
    ensures { result ≡ length (encode (byte_form form) value) }
{
    if value < tables::lowest(form, 1) {
        return 1;
    }
    if value < tables::lowest(form, 2) {
        return 2;
    }
    if value < tables::lowest(form, 3) {
        return 3;
    }
    if value < tables::lowest(form, 4) {
        return 4;
    }
    if value < tables::lowest(form, 5) {
        return 5;
    }
    if value < tables::lowest(form, 6) {
        return 6;
    }
    7
}

// Writes the encoding from an offset on, its last byte first, and answers the offset behind it.
pub fn write(form: ByteForm, value: u32, dst: &mut [u8], at: usize) -> usize
    requires { (encode (byte_form form) value ≢ []) × (at + length (encode (byte_form form) value) ≤ length dst.old) }
    ensures { (result ≡ at + length (encode (byte_form form) value)) × (dst.new ≡ with_units dst.old at (encode (byte_form form) value)) }
{
    let count = encoded_length(form, value) - 1;
    let radix = tables::radix(form);
    let low = tables::first_trailing(form);
    let mut rest = value;
    for left in (1..=count).rev() {
        dst[at + left] = tables::unit(form, low + (rest % radix) as u8);
        rest /= radix;
    }
    dst[at] = tables::unit(form, tables::lead_base(form, count) + rest as u8);
    at + count + 1
}
