// ASCII in FSS-UTF, in blocks.
ghost use Rattle.std.specs.Prelude.{◌+◌, ◌≤◌, length};
ghost use Rattle.laws.proofs.Blocks.{AtMost};

// The bytes joined by OR: none of them exceeds it. Over the type of the unit it would be no plainer: a trait would have to say what OR gives.
fn joined(src: &[u8], at: usize, count: usize) -> u8
    requires { at + count ≤ length src.now }
    ensures { AtMost src.now at count result }
{
    let mut most: u8 = 0;
    for byte in &src[at..at + count] {
        most |= *byte;
    }
    most
}

// How many bytes from an offset on are ASCII, in whole blocks.
fn whole_blocks(src: &[u8], at: usize) -> usize
    requires { at ≤ length src.now }
    ensures { (at + result ≤ length src.now) × AtMost src.now at result 127 }
{
    let mut length: usize = 0;
    // `chunks_exact` is no plainer: the second loop begins where the first ends, and the promise is by places in the text.
    while 64 <= src.len() - (at + length) {
        if 128 <= joined(src, at + length, 64) {
            break;
        }
        length += 64;
    }
    while 16 <= src.len() - (at + length) {
        if 128 <= joined(src, at + length, 16) {
            break;
        }
        length += 16;
    }
    length
}

// And with them what is left of the text, if it is less than a block and ASCII too.
pub fn ascii_length(src: &[u8], at: usize) -> usize
    requires { at ≤ length src.now }
    ensures { (at + result ≤ length src.now) × AtMost src.now at result 127 }
{
    let length = whole_blocks(src, at);
    let left = src.len() - (at + length);
    if 16 <= left {
        return length;
    }
    if 128 <= joined(src, at + length, left) {
        return length;
    }
    length + left
}
