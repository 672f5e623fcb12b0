// Characters of a text that the measure has accepted, read without tests.
ghost use Rattle.std.specs.Prelude.{◌≡◌, ◌+◌, ◌<◌, ◌≤◌, length, get_or};
ghost use Rattle.forms.specs.Form.{span};
ghost use Rattle.forms.specs.Forms.{utf16};
ghost use Rattle.forms.specs.Buffer.{with_units};
ghost use Rattle.laws.proofs.Progress.{CharacterAt};
ghost use Rattle.laws.proofs.Runs.{Stands};
ghost use Rattle.laws.proofs.Values.{part};

use characters::Character;

// The value of a pair.
pub fn pair(src: &[u16], at: usize) -> u32
    requires { (Stands utf16 src.now at) × (0xD800 ≤ get_or src.now at 0) × (get_or src.now at 0 < 0xE000) }
    ensures { (CharacterAt utf16 src.now at result (span at 2)) × (0x10000 ≤ result) × (result < 0x110000) }
{
    let unit = u32::from(src[at]);
    let next = u32::from(src[at + 1]);
    0x10000 + (unit - 0xD800) * 0x400 + (next - 0xDC00)
}

pub fn decode(src: &[u16], at: usize) -> Character
    requires { Stands utf16 src.now at }
    ensures { CharacterAt utf16 src.now at result.value (span at result.length) }
{
    let unit = u32::from(src[at]);
    if unit < 0xD800 || 0xE000 <= unit {
        return Character {
            value: unit,
            length: 1,
        };
    }
    Character {
        value: pair(src, at),
        length: 2,
    }
}

// Units copied as values.
pub fn widen(src: &[u16], at: usize, count: usize, dst: &mut [u32], from: usize)
    requires { (at + count ≤ length src.now) × (from + count ≤ length dst.old) }
    ensures { dst.new ≡ with_units dst.old from (part src.now at count) }
{
    for k in 0..count {
        dst[from + k] = u32::from(src[at + k]);
    }
}
