// One value in FSS-UTF, by straight code where it has at most four bytes: what `bytes` promises of it.
ghost use Rattle.std.specs.Prelude.{◌≡◌, ◌≢◌, [], ◌+◌, ◌<◌, ◌≤◌, length};
ghost use Rattle.forms.specs.Form.{encode};
ghost use Rattle.forms.specs.Forms.{fss_utf};
ghost use Rattle.forms.specs.Buffer.{with_units};

use tables::ByteForm;

// Values of one, two, three and four bytes.
pub fn one(value: u32, dst: &mut [u8], at: usize) -> usize
    requires { (value < 0x80) × (at + length (encode fss_utf value) ≤ length dst.old) }
    ensures { (result ≡ at + length (encode fss_utf value)) × (dst.new ≡ with_units dst.old at (encode fss_utf value)) }
{
    dst[at] = value as u8;
    at + 1
}

pub fn two(value: u32, dst: &mut [u8], at: usize) -> usize
    requires { (0x80 ≤ value) × (value < 0x800) × (at + length (encode fss_utf value) ≤ length dst.old) }
    ensures { (result ≡ at + length (encode fss_utf value)) × (dst.new ≡ with_units dst.old at (encode fss_utf value)) }
{
    dst[at] = (0xC0 + value / 64) as u8;
    dst[at + 1] = (0x80 + value % 64) as u8;
    at + 2
}

pub fn three(value: u32, dst: &mut [u8], at: usize) -> usize
    requires { (encode fss_utf value ≢ []) × (0x800 ≤ value) × (value < 0x10000) × (at + length (encode fss_utf value) ≤ length dst.old) }
    ensures { (result ≡ at + length (encode fss_utf value)) × (dst.new ≡ with_units dst.old at (encode fss_utf value)) }
{
    dst[at] = (0xE0 + value / 4096) as u8;
    dst[at + 1] = (0x80 + value / 64 % 64) as u8;
    dst[at + 2] = (0x80 + value % 64) as u8;
    at + 3
}

pub fn four(value: u32, dst: &mut [u8], at: usize) -> usize
    requires { (0x10000 ≤ value) × (value < 0x200000) × (at + length (encode fss_utf value) ≤ length dst.old) }
    ensures { (result ≡ at + length (encode fss_utf value)) × (dst.new ≡ with_units dst.old at (encode fss_utf value)) }
{
    dst[at] = (0xF0 + value / 262144) as u8;
    dst[at + 1] = (0x80 + value / 4096 % 64) as u8;
    dst[at + 2] = (0x80 + value / 64 % 64) as u8;
    dst[at + 3] = (0x80 + value % 64) as u8;
    at + 4
}

// What `crate::bytes::write` does for FSS-UTF.
pub fn write(value: u32, dst: &mut [u8], at: usize) -> usize
    requires { (encode fss_utf value ≢ []) × (at + length (encode fss_utf value) ≤ length dst.old) }
    ensures { (result ≡ at + length (encode fss_utf value)) × (dst.new ≡ with_units dst.old at (encode fss_utf value)) }
{
    if value < 0x80 {
        return one(value, dst, at);
    }
    if value < 0x800 {
        return two(value, dst, at);
    }
    if value < 0x10000 {
        return three(value, dst, at);
    }
    if value < 0x200000 {
        return four(value, dst, at);
    }
    crate::bytes::write(ByteForm::FssUtf, value, dst, at)
}
