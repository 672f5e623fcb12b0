// Blocks of UTF-16 units tested; `specs/Utf16Units` says what is told of units. No loop has a branch, so that each is compiled to vector
// code.
ghost use Rattle.std.specs.Prelude.{◌≡◌, false, ◌+◌, ◌<◌, ◌≤◌, length};
ghost use Rattle.forms.specs.Forms.{is_surrogate, is_non_character};
ghost use Rattle.laws.proofs.Blocks.{AtMost, NoSurrogates, NoNonCharacters};
ghost use Rattle.measure_runs.specs.Utf16Units.{is_high, is_low, Paired};

pub fn high(unit: u16) -> bool
    ensures { result ≡ is_high unit }
{
    (unit >= 0xD800) & (unit < 0xDC00)
}

pub fn low(unit: u16) -> bool
    ensures { result ≡ is_low unit }
{
    (unit >= 0xDC00) & (unit < 0xE000)
}

pub fn surrogate(unit: u16) -> bool
    ensures { result ≡ is_surrogate unit }
{
    (unit >= 0xD800) & (unit <= 0xDFFF)
}

fn non_character(unit: u16) -> bool
    ensures { result ≡ is_non_character unit }
{
    (unit >= 0xFFFE) & (unit <= 0xFFFF)
}

// The units joined by OR: none of them exceeds it.
pub fn joined(src: &[u16], at: usize, count: usize) -> u16
    requires { at + count ≤ length src.now }
    ensures { AtMost src.now at count result }
{
    let mut most: u16 = 0;
    for unit in &src[at..at + count] {
        most |= *unit;
    }
    most
}

// Whether so many neighbours from an offset on are unpaired: a high unit before no low one, or a low one behind no high one.
pub fn unpaired(src: &[u16], at: usize, pairs: usize) -> bool
    requires { at + pairs < length src.now }
    ensures { result ≡ false → Paired src.now at (pairs + 1) }
{
    let mut bad = false;
    for k in 0..pairs {
        bad |= high(src[at + k]) != low(src[at + k + 1]);
    }
    bad
}

// Whether one of the units is FFFE or FFFF: most blocks do not reach so far.
pub fn non_characters(src: &[u16], at: usize, count: usize, most: u16) -> bool
    requires { (at + count ≤ length src.now) × AtMost src.now at count most }
    ensures { result ≡ false → NoNonCharacters src.now at count }
{
    if most < 0xFFFE {
        return false;
    }
    let mut some = false;
    for unit in &src[at..at + count] {
        some |= non_character(*unit);
    }
    some
}

// As `non_characters`: a loop over a test passed in would be no shorter than the loop.
pub fn surrogates(src: &[u16], at: usize, count: usize) -> bool
    requires { at + count ≤ length src.now }
    ensures { result ≡ false → NoSurrogates src.now at count }
{
    let mut some = false;
    for unit in &src[at..at + count] {
        some |= surrogate(*unit);
    }
    some
}
