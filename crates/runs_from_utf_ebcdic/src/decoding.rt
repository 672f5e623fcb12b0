// The UTF-EBCDIC character at an offset where one is known to stand: nothing is tested but its length.
ghost use Rattle.forms.specs.Forms.{utf_ebcdic};
ghost use Rattle.laws.proofs.Runs.{Stands};
ghost use Rattle.characters.specs.Short.{ShortAt};

use characters::Character;
use tables::exchange::ExchangeTable;

// None where it has more than four bytes. It stays apart from its twin of FSS-UTF: one over `Layout` was
// tried, and the proof didn't close: its radix is no literal, so that nothing was found for its bounds and products.
pub fn known_at(table: &ExchangeTable, src: &[u8], at: usize) -> Option<Character>
    requires { Stands utf_ebcdic src.now at }
    ensures { ShortAt utf_ebcdic src.now at result }
{
    let lead = table.get(src[at]);
    if lead < 0xA0 {
        return Some(Character {
            value: u32::from(lead),
            length: 1,
        });
    }
    let a = u32::from(table.get(src[at + 1])) % 32;
    if lead < 0xE0 {
        return Some(Character {
            value: u32::from(lead - 0xC0) * 32 + a,
            length: 2,
        });
    }
    let b = u32::from(table.get(src[at + 2])) % 32;
    if lead < 0xF0 {
        return Some(Character {
            value: (u32::from(lead - 0xE0) * 32 + a) * 32 + b,
            length: 3,
        });
    }
    if 0xF8 <= lead {
        return None;
    }
    let c = u32::from(table.get(src[at + 3])) % 32;
    Some(Character {
        value: ((u32::from(lead - 0xF0) * 32 + a) * 32 + b) * 32 + c,
        length: 4,
    })
}
