// A line that is being made: at most 32 bytes of ASCII.
ghost use Rattle.std.specs.Prelude.{◌≡◌, ◌++◌, ◌+◌, ◌<◌, ◌≤◌, length};
ghost use Rattle.arrayvec.specs.ArrayVec.{array_vec_len};
ghost use Rattle.lines.specs.Numerals.{decimal, hex, hex_digit};

use arrayvec::ArrayVec;
use itoa::Buffer;

pub type Line = ArrayVec<u8, 32>;

pub fn push_text(line: &mut Line, text: &[u8])
    requires { array_vec_len line.old + length text.now ≤ 32 }
    ensures items { line.new.items ≡ line.old.items ++ text.now }
    ensures len { array_vec_len line.new ≡ array_vec_len line.old + length text.now }
{
    for byte in text {
        line.push(*byte);
    }
}

#[tactic(auto, using(crate::proofs::Digits::decimal_written))]
pub fn push_decimal(line: &mut Line, number: usize)
    requires { array_vec_len line.old + length (decimal number) ≤ 32 }
    ensures items { line.new.items ≡ line.old.items ++ decimal number }
    ensures len { array_vec_len line.new ≡ array_vec_len line.old + length (decimal number) }
{
    push_text(line, Buffer::new().format(number).as_bytes());
}

// By hand: `itoa` has decimals alone.
pub fn push_hex(line: &mut Line, count: usize, number: u32)
    requires { array_vec_len line.old + count ≤ 32 }
    ensures items { line.new.items ≡ line.old.items ++ hex count number }
    ensures len { array_vec_len line.new ≡ array_vec_len line.old + count }
{
    if count > 0 {
        push_hex(line, count - 1, number / 16);
        line.push(hex_digit((number % 16) as u8));
    }
}

fn hex_digit(digit: u8) -> u8
    requires { digit < 16 }
    ensures { result ≡ hex_digit digit }
{
    if digit < 10 {
        b'0' + digit
    } else {
        b'A' + (digit - 10)
    }
}
