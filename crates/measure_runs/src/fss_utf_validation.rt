// FSS-UTF tested in blocks of 64 bytes, each byte with the three before it: `specs/Validation` has the rule, and the weights that count
// what the blocks become.
ghost use Rattle.std.specs.Prelude.{IfSome, ◌≡◌, false, ◌+◌, ◌<◌, ◌≤◌, length, get_or};
ghost use Rattle.measure_runs.specs.Validation.{Validated, ill_formed, is_trailing_byte};

// Whether a byte is wrong behind three others: joined without branches, so that a block of them is tested at once.
#[tactic(auto, unfolding(crate::specs::Validation::ill_formed))]
fn ill_formed(p3: u8, p2: u8, p1: u8, byte: u8) -> bool
    ensures { result ≡ ill_formed p3 p2 p1 byte }
{
    let asks = (p1 >= 0xC0) | (p2 >= 0xE0) | (p3 >= 0xF0);
    let trails = (byte >= 0x80) & (byte < 0xC0);
    let no_byte = (byte == 0xC0) | (byte == 0xC1) | (byte >= 0xF5);
    let no_second = (p1 == 0xE0) & (byte < 0xA0)
        | (p1 == 0xED) & (byte >= 0xA0)
        | (p1 == 0xF0) & (byte < 0x90)
        | (p1 == 0xF4) & (byte >= 0x90);
    let no_third = (p2 == 0xEF) & (p1 == 0xBF) & (byte >= 0xBE);
    (asks != trails) | no_byte | no_second | no_third
}

pub fn ill_formed64(src: &[u8], at: usize) -> bool
    requires { (3 ≤ at) × (at + 64 ≤ length src.now) }
    ensures { result ≡ false → Validated src.now at 64 }
{
    let mut joined = false;
    for i in 0..64 {
        let k = at + i;
        joined |= ill_formed(src[k - 3], src[k - 2], src[k - 1], src[k]);
    }
    joined
}

pub fn trails(byte: u8) -> bool
    ensures { result ≡ is_trailing_byte byte }
{
    (byte >= 0x80) & (byte < 0xC0)
}

// Where the last character that begins behind the first byte begins, counted from the offset.
pub fn last_lead(src: &[u8], at: usize, count: usize) -> Option<usize>
    requires { (0 < count) × (at + count ≤ length src.now) }
    ensures { IfSome result (λ last. (0 < last) × (last < count) × (is_trailing_byte (get_or src.now (at + last) 0) ≡ false)) }
{
    for last in (1..count).rev() {
        if !trails(src[at + last]) {
            return Some(last);
        }
    }
    None
}

// From which byte on a lead adds a second, third, fourth and fifth unit; and the lead whose second byte adds one from A0 on.
#[derive(Clone, Copy)]
pub struct Weights {
    pub two: Option<u8>,
    pub three: Option<u8>,
    pub four: Option<u8>,
    pub five: Option<u8>,
    pub split: Option<u8>,
}
