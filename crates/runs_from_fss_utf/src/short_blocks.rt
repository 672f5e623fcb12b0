// A block of FSS-UTF characters of one byte and two, which the measure has accepted, decoded without tests. `specs/ShortBlock` says what is
// told of a block.
ghost use Rattle.std.specs.Prelude.{◌≡◌, false, ◌+◌, ◌%◌, ◌<◌, ◌≤◌, length};
ghost use Rattle.runs_from_fss_utf.specs.ShortBlock.{Shorts, Begun, ShortValue, Begins, ShortValues, LastStart};

// Whether one of them leads a character of three bytes or more.
pub fn longer64(src: &[u8], at: usize) -> bool
    requires { at + 64 ≤ length src.now }
    ensures { result ≡ false → Shorts src.now at 64 }
{
    let mut found = false;
    for byte in &src[at..at + 64] {
        found |= *byte >= 0xE0;
    }
    found
}

// How many characters begin with a byte.
fn begun(byte: u8) -> u8
    ensures { Begun byte result }
{
    u8::from((byte < 0x80) | (byte >= 0xC0))
}

pub fn begun64(src: &[u8], at: usize) -> [u8; 64]
    requires { at + 64 ≤ length src.now }
    ensures { Begins src.now at 64 result }
{
    let mut begins = [0u8; 64];
    for i in 0..64 {
        begins[i] = begun(src[at + i]);
    }
    begins
}

// The free bits of a lead of two bytes or of a trailing byte.
pub fn free_bits(byte: u8) -> u16
    ensures { result ≡ byte % 64 }
{
    u16::from(byte) % 64
}

// The value of the character that begins with a byte; any, where none does.
fn value(byte: u8, next: u8) -> u16
    ensures { ShortValue byte next result }
{
    let two = free_bits(byte) * 64 + free_bits(next);
    if byte < 0xC0 { u16::from(byte) } else { two }
}

pub fn values64(src: &[u8], at: usize) -> [u16; 64]
    requires { at + 64 < length src.now }
    ensures { ShortValues src.now at 64 result }
{
    let mut values = [0u16; 64];
    for i in 0..64 {
        let k = at + i;
        values[i] = value(src[k], src[k + 1]);
    }
    values
}

// Where the last character begins, counted from the offset: with the last byte, or with the one before a trailing byte.
pub fn last_start(src: &[u8], at: usize) -> usize
    requires { at + 64 < length src.now }
    ensures { LastStart src.now at result }
{
    62 + usize::from(begun(src[at + 63]))
}
