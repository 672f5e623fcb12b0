// The legal encoding of one value in UCS-4, written.
ghost use Rattle.std.specs.Prelude.{◌≡◌, ◌≢◌, [], ◌+◌, ◌≤◌, length};
ghost use Rattle.forms.specs.Form.{encode};
ghost use Rattle.forms.specs.Forms.{ucs4};
ghost use Rattle.forms.specs.Buffer.{with_units};

// Writes the unit at an offset, and answers the offset behind it.
pub fn write(value: u32, dst: &mut [u32], at: usize) -> usize
    requires { (encode ucs4 value ≢ []) × (at + length (encode ucs4 value) ≤ length dst.old) }
    ensures { (result ≡ at + length (encode ucs4 value)) × (dst.new ≡ with_units dst.old at (encode ucs4 value)) }
{
    dst[at] = value;
    at + 1
}
