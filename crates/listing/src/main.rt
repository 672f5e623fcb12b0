// Lists the items of at most 4,096 bytes of FSS-UTF from standard input. It only reads and writes: the listing is made by `lines`. Where it
// cannot, it says so on standard error; where it cannot read, it prints no listing, not even of an empty text.
#![tactic(auto)]

ghost use Rattle.std.specs.Prelude.{◌≡◌, ◌≤◌, IfOk, IfSome, take};

use std::io;
use std::io::{Eprint, Print, Read};

fn main(rt: HostRuntime) {
    let mut text = [0u8; 4096];
    let Ok(n) = read_text(&mut rt.stdin(), &mut text) else {
        let _ = rt.eprint("listing: cannot read standard input\n");
        return;
    };
    let mut out = [0u8; 73769];
    let length = lines::listing(&text[..n], &mut out);
    if rt.write_all(&out[..length]).is_err() {
        let _ = rt.eprint("listing: cannot write standard output\n");
    }
}

// Reads until the buffer is full or the input has ended, and answers how many bytes there are: the first 4,096 of the input.
fn read_text<R: Read>(input: &mut R, text: &mut [u8; 4096]) -> io::Result<usize>
    ensures fits { IfOk result (λ n. n ≤ 4096) }
    ensures first { IfOk result (λ n. IfSome (R.remaining input.old) (λ bytes. take n text.new ≡ take 4096 bytes)) }
{
    let mut n: usize = 0;
    // No `for`: each read says how far it came.
    while n < 4096 {
        let more = input.read(&mut text[n..])?;
        if more == 0 {
            return Ok(n);
        }
        n += more;
    }
    Ok(n)
}
