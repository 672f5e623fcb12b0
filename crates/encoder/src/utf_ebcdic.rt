// One value in UTF-EBCDIC, by straight code where it has at most four bytes, and with the inverse table as a parameter, so that a loop
// looks up in one copy of it. It is not one with `fss_utf`, whose lengths are functions of their own, for the loops over values of one length.
ghost use Rattle.std.specs.Prelude.{◌≡◌, ◌≢◌, [], ◌+◌, ◌<◌, ◌≤◌, length};
ghost use Rattle.forms.specs.Form.{encode};
ghost use Rattle.forms.specs.Exchange.{ebcdic_of};
ghost use Rattle.forms.specs.Forms.{utf_ebcdic};
ghost use Rattle.forms.specs.Buffer.{with_units};

use tables::ByteForm;
use tables::exchange::InverseTable;

// The UTF-EBCDIC byte of the I8 byte.
fn unit(table: &InverseTable, byte: u32) -> u8
    requires { byte < 256 }
    ensures { result ≡ ebcdic_of byte }
{
    table.get(byte as u8)
}

// What `crate::bytes::write` does for UTF-EBCDIC, in code of its own for this form. By a call that is not inlined, so that a loop that writes
// short characters has no part of it, and saves no registers for it.
#[inline(never)]
fn longer(value: u32, dst: &mut [u8], at: usize) -> usize
    requires { (encode utf_ebcdic value ≢ []) × (at + length (encode utf_ebcdic value) ≤ length dst.old) }
    ensures { (result ≡ at + length (encode utf_ebcdic value)) × (dst.new ≡ with_units dst.old at (encode utf_ebcdic value)) }
{
    crate::bytes::write(ByteForm::UtfEbcdic, value, dst, at)
}

// The same, by straight code where the value has at most four bytes.
pub fn write(table: &InverseTable, value: u32, dst: &mut [u8], at: usize) -> usize
    requires { (encode utf_ebcdic value ≢ []) × (at + length (encode utf_ebcdic value) ≤ length dst.old) }
    ensures { (result ≡ at + length (encode utf_ebcdic value)) × (dst.new ≡ with_units dst.old at (encode utf_ebcdic value)) }
{
    if value < 0xA0 {
        dst[at] = unit(table, value);
        return at + 1;
    }
    if value < 0x400 {
        dst[at] = unit(table, 0xC0 + value / 32);
        dst[at + 1] = unit(table, 0xA0 + value % 32);
        return at + 2;
    }
    if value < 0x4000 {
        dst[at] = unit(table, 0xE0 + value / 1024);
        dst[at + 1] = unit(table, 0xA0 + value / 32 % 32);
        dst[at + 2] = unit(table, 0xA0 + value % 32);
        return at + 3;
    }
    if value < 0x40000 {
        dst[at] = unit(table, 0xF0 + value / 32768);
        dst[at + 1] = unit(table, 0xA0 + value / 1024 % 32);
        dst[at + 2] = unit(table, 0xA0 + value / 32 % 32);
        dst[at + 3] = unit(table, 0xA0 + value % 32);
        return at + 4;
    }
    longer(value, dst, at)
}
