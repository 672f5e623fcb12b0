// From UTF-EBCDIC. The exchange table is made once for a run.
ghost use Rattle.std.specs.Prelude.{map, ◌+◌, ◌≤◌, length};
ghost use Rattle.forms.specs.Exchange.{i8_of};
ghost use Rattle.forms.specs.Forms.{utf_ebcdic, strictly};
ghost use Rattle.laws.proofs.Runs.{Counted};
ghost use Rattle.laws.proofs.Blocks.{AtMost};
ghost use Rattle.encoder.specs.Target.{target_form};

use encoder::Target;
use tables::exchange::ExchangeTable;
use types::Run;

fn or16(table: &ExchangeTable, src: &[u8], at: usize) -> u8
    requires { at + 16 ≤ length src.now }
    ensures { AtMost (map i8_of src.now) at 16 result }
{
    let mut joined: u8 = 0;
    for byte in &src[at..at + 16] {
        joined |= table.get(*byte);
    }
    joined
}

// How many bytes from an offset on stand for ASCII, in whole blocks.
fn ascii_length(table: &ExchangeTable, src: &[u8], at: usize) -> usize
    requires { at ≤ length src.now }
    ensures { (at + result ≤ length src.now) × AtMost (map i8_of src.now) at result 127 }
{
    let mut length: usize = 0;
    // `chunks_exact` is no plainer: the promise is by places in the text, so that the length is counted beside the blocks too.
    while 16 <= src.len() - (at + length) {
        if 128 <= or16(table, src, at + length) {
            return length;
        }
        length += 16;
    }
    length
}

// Characters one by one, up to one that is not short or that the target does not hold. ASCII is taken first: it has one unit in every form.
fn few(table: &ExchangeTable, target: Target, src: &[u8], at: usize) -> Run
    requires { (at ≤ length src.now) × (length src.now ≤ 65536) }
    ensures { Counted utf_ebcdic (strictly (target_form target)) src.now at result.length result.units }
{
    // Not too many at once, so that blocks are tried again.
    let room = (src.len() - at).min(256);
    let mut length: usize = 0;
    let mut units: usize = 0;
    // No `for`: a turn steps by a character, and only finds out how many units that is.
    while length < room {
        if table.get(src[at + length]) < 0x80 {
            length += 1;
            units += 1;
            continue;
        }
        let Some(character) = characters::utf_ebcdic::short_at(table, src, at + length) else {
            return Run { length, units };
        };
        let needed = encoder::encoded_length(target, character.value);
        // The length of an empty encoding: the target does not hold the value.
        if needed == 0 {
            return Run { length, units };
        }
        length += character.length;
        units += needed;
    }
    Run { length, units }
}

pub fn count(target: Target, src: &[u8], at: usize) -> Run
    requires { (at ≤ length src.now) × (length src.now ≤ 65536) }
    ensures { Counted utf_ebcdic (strictly (target_form target)) src.now at result.length result.units }
{
    let table = &ExchangeTable::new();
    let ascii = ascii_length(table, src, at);
    let rest = few(table, target, src, at + ascii);
    Run {
        length: ascii + rest.length,
        units: ascii + rest.units,
    }
}
