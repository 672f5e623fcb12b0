// The legal encoding of one value in UTF-16: its length, and the units written.
ghost use Rattle.std.specs.Prelude.{◌≡◌, ◌≢◌, [], ◌+◌, ◌≤◌, length};
ghost use Rattle.forms.specs.Form.{encode};
ghost use Rattle.forms.specs.Forms.{utf16, ucs4};
ghost use Rattle.forms.specs.Buffer.{with_units};

// Of a character's value: 0, and no Option, where it lies above 10FFFF, since its encoding is empty there.
pub fn encoded_length(value: u32) -> usize
    requires { encode ucs4 value ≢ [] }
    ensures { result ≡ length (encode utf16 value) }
{
    if value < 0x10000 {
        return 1;
    }
    if value < 0x110000 {
        return 2;
    }
    0
}

// Writes the unit or the pair from an offset on, and answers the offset behind it.
pub fn write(value: u32, dst: &mut [u16], at: usize) -> usize
    requires { (encode utf16 value ≢ []) × (at + length (encode utf16 value) ≤ length dst.old) }
    ensures { (result ≡ at + length (encode utf16 value)) × (dst.new ≡ with_units dst.old at (encode utf16 value)) }
{
    if value < 0x10000 {
        dst[at] = value as u16;
        return at + 1;
    }
    let above = value - 0x10000;
    dst[at] = (0xD800 + above / 0x400) as u16;
    dst[at + 1] = (0xDC00 + above % 0x400) as u16;
    at + 2
}
