// The FSS-UTF character at an offset where one is known to stand: nothing is tested but its length.
ghost use Rattle.forms.specs.Forms.{fss_utf};
ghost use Rattle.laws.proofs.Runs.{Stands};
ghost use Rattle.characters.specs.Short.{ShortAt};

use characters::Character;

// None where it has more than four bytes.
pub fn known_at(src: &[u8], at: usize) -> Option<Character>
    requires { Stands fss_utf src.now at }
    ensures { ShortAt fss_utf src.now at result }
{
    let lead = src[at];
    if lead < 0x80 {
        return Some(Character {
            value: u32::from(lead),
            length: 1,
        });
    }
    let a = u32::from(src[at + 1]) % 64;
    if lead < 0xE0 {
        return Some(Character {
            value: u32::from(lead - 0xC0) * 64 + a,
            length: 2,
        });
    }
    let b = u32::from(src[at + 2]) % 64;
    if lead < 0xF0 {
        return Some(Character {
            value: (u32::from(lead - 0xE0) * 64 + a) * 64 + b,
            length: 3,
        });
    }
    if 0xF8 <= lead {
        return None;
    }
    let c = u32::from(src[at + 3]) % 64;
    Some(Character {
        value: ((u32::from(lead - 0xF0) * 64 + a) * 64 + b) * 64 + c,
        length: 4,
    })
}
