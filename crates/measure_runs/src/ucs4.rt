// From UCS-4, in blocks. No loop over a block has a branch, so that each is compiled to vector code. A block goes through with its units
// joined by OR (`most`), which most tests need alone: together they say no more than the two.
ghost use Rattle.std.specs.Prelude.{IfSome, ◌≡◌, false, ◌+◌, ◌<◌, ◌≤◌, length};
ghost use Rattle.forms.specs.Forms.{ucs4, utf16, strictly};
ghost use Rattle.tables.specs.ByteForms.{byte_form};
ghost use Rattle.encoder.specs.Target.{target_form};
ghost use Rattle.laws.proofs.Blocks.{AtMost, NoneOf};
ghost use Rattle.laws.proofs.Runs.{Counted, sum};
ghost use Rattle.measure_runs.specs.Ucs4Bounds.{reached_at, is_excluded};

use encoder::Target;
use tables::ByteForm;
use types::Run;

// How many of three bounds the units of a block reach. The count is as wide as a unit: vector code wants that.
fn reached(first: u32, second: u32, third: u32, src: &[u32], at: usize, count: usize) -> u32
    requires { (count ≤ 32) × (at + count ≤ length src.now) }
    ensures { result ≡ sum (reached_at first second third src.now) at count }
{
    let mut sum: u32 = 0;
    for unit in &src[at..at + count] {
        sum += u32::from(*unit >= first) + u32::from(*unit >= second) + u32::from(*unit >= third);
    }
    sum
}

// Whether strict conversion writes a value in no form.
fn is_excluded(value: u32) -> bool
    ensures { result ≡ is_excluded value }
{
    items::is_surrogate(value) | encoder::is_non_character(value)
}

// Whether a unit of a block is such a value: most blocks do not reach so far.
fn excluded(src: &[u32], at: usize, count: usize, most: u32) -> bool
    requires { (at + count ≤ length src.now) × AtMost src.now at count most }
    ensures { result ≡ false → NoneOf is_excluded src.now at count }
{
    if most < 0xD800 {
        return false;
    }
    let mut some = false;
    for unit in &src[at..at + count] {
        some |= is_excluded(*unit);
    }
    some
}

// The bytes of a block, unless one of its units is not written.
fn byte_block(form: ByteForm, src: &[u32], at: usize, count: usize, most: u32) -> Option<usize>
    requires { (count ≤ 32) × (at + count ≤ length src.now) × AtMost src.now at count most × (most < 0x110000) }
    ensures { IfSome result (Counted ucs4 (strictly (byte_form form)) src.now at count) }
{
    let two = tables::lowest(form, 1);
    if most < two {
        return Some(count);
    }
    if excluded(src, at, count, most) {
        return None;
    }
    let few = reached(
        two,
        tables::lowest(form, 2),
        tables::lowest(form, 3),
        src,
        at,
        count,
    );
    let five = tables::lowest(form, 4);
    if most < five {
        return Some(count + few as usize);
    }
    let more = reached(
        five,
        tables::lowest(form, 5),
        tables::lowest(form, 6),
        src,
        at,
        count,
    );
    Some(count + few as usize + more as usize)
}

// The UTF-16 units of a block, unless one of its units is not written.
fn utf16_block(src: &[u32], at: usize, count: usize, most: u32) -> Option<usize>
    requires { (count ≤ 32) × (at + count ≤ length src.now) × AtMost src.now at count most × (most < 0x110000) }
    ensures { IfSome result (Counted ucs4 (strictly utf16) src.now at count) }
{
    let mut bad = false;
    let mut sum: u32 = 0;
    for unit in &src[at..at + count] {
        bad |= is_excluded(*unit);
        sum += 1 + u32::from(*unit >= 0x10000);
    }
    if bad { None } else { Some(sum as usize) }
}

// The same, looking first whether all units lie below the surrogates, as most do.
fn utf16_units(src: &[u32], at: usize, count: usize, most: u32) -> Option<usize>
    requires { (count ≤ 32) × (at + count ≤ length src.now) × AtMost src.now at count most × (most < 0x110000) }
    ensures { IfSome result (Counted ucs4 (strictly utf16) src.now at count) }
{
    if most < 0xD800 {
        return Some(count);
    }
    utf16_block(src, at, count, most)
}

// The units of a block in the target. One that may reach 110000 is left to the item reader.
fn block(target: Target, src: &[u32], at: usize, count: usize, most: u32) -> Option<usize>
    requires { (count ≤ 32) × (at + count ≤ length src.now) × AtMost src.now at count most }
    ensures { IfSome result (Counted ucs4 (strictly (target_form target)) src.now at count) }
{
    if 0x110000 <= most {
        return None;
    }
    match target {
        Target::FssUtf => byte_block(ByteForm::FssUtf, src, at, count, most),
        Target::UtfEbcdic => byte_block(ByteForm::UtfEbcdic, src, at, count, most),
        Target::Utf16 => utf16_units(src, at, count, most),
        Target::Ucs4 => None,
    }
}

// The blocks from an offset on, up to one with a fault.
pub fn count(target: Target, src: &[u32], at: usize) -> Run
    requires { (at ≤ length src.now) × (length src.now ≤ 65536) }
    ensures { Counted ucs4 (strictly (target_form target)) src.now at result.length result.units }
{
    let mut length: usize = 0;
    let mut units: usize = 0;
    // `chunks_exact` is no plainer: a run ends before the first block that is not counted, so that its place is needed.
    while 32 <= src.len() - at - length {
        let most = encoder::value_bounds::joined(&src[at + length..at + length + 32]);
        let Some(more) = block(target, src, at + length, 32, most) else {
            return Run { length, units };
        };
        length += 32;
        units += more;
    }
    let rest = src.len() - at - length;
    let most = encoder::value_bounds::joined(&src[at + length..]);
    let Some(more) = block(target, src, at + length, rest, most) else {
        return Run { length, units };
    };
    Run {
        length: length + rest,
        units: units + more,
    }
}
