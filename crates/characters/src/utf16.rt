// A checked reader of UTF-16 characters, for the loops that take many of them.
ghost use Rattle.std.specs.Prelude.{◌≡◌, ◌<◌, length};
ghost use Rattle.forms.specs.Forms.{utf16};
ghost use Rattle.characters.specs.Short.{ShortAt};

use crate::Character;

// The character at an offset. A pair's value is the same term in `items` and `runs_from_utf16`, which know other things of its units.
pub fn short_at(text: &[u16], at: usize) -> Option<Character>
    requires { at < length text.now }
    ensures { ShortAt utf16 text.now at result }
{
    let unit = u32::from(text[at]);
    if !(0xD800..=0xDFFF).contains(&unit) {
        return Some(Character {
            value: unit,
            length: 1,
        });
    }
    if 0xDC00 <= unit || text.len() - at < 2 {
        return None;
    }
    let next = u32::from(text[at + 1]);
    if !(0xDC00..=0xDFFF).contains(&next) {
        return None;
    }
    let value = 0x10000 + (unit - 0xD800) * 0x400 + (next - 0xDC00);
    Some(Character { value, length: 2 })
}
