// From UTF-16, in blocks.
ghost use Rattle.std.specs.Prelude.{IfSome, ℕ, ◌≡◌, ◌+◌, ◌<◌, ◌≤◌, length, get_or};
ghost use Rattle.forms.specs.Forms.{utf16, strictly};
ghost use Rattle.encoder.specs.Target.{target_form};
ghost use Rattle.laws.proofs.Blocks.{AtMost, NoNonCharacters};
ghost use Rattle.laws.proofs.Runs.{Counted, sum};
ghost use Rattle.measure_runs.specs.Utf16Units.{bytes_of, ebcdic_of, values_of, plain_of, Whole};

use crate::utf16_blocks::{high, joined, low, non_characters, surrogate, unpaired};
use encoder::Target;
use types::Run;

// The bytes of FSS-UTF: two for each unit of a pair.
fn fss_utf_bytes(unit: u16) -> u16
    ensures { (result ≡ bytes_of unit) × (result ≤ 3) }
{
    1 + u16::from(unit >= 0x80) + u16::from(unit >= 0x800) - u16::from(surrogate(unit))
}

// The bytes of UTF-EBCDIC: two for each unit of a pair, and a fifth where the value is 40000 or more.
fn utf_ebcdic_bytes(unit: u16) -> u16
    ensures { (result ≡ ebcdic_of unit) × (result ≤ 5) }
{
    let whole = !surrogate(unit);
    1 + u16::from(unit >= 0xA0)
        + u16::from((unit >= 0x400) & whole)
        + u16::from((unit >= 0x4000) & whole)
        + u16::from((unit >= 0xD8C0) & (unit < 0xDC00))
}

// The values: a low unit counts for none.
fn values(unit: u16) -> u16
    ensures { (result ≡ values_of unit) × (result ≤ 1) }
{
    u16::from(!low(unit))
}

// What the units of a block count for, no unit more than five. The sum is as wide as a unit: vector code wants that.
fn sum<F: Fn(u16) -> u16>(counted: F, src: &[u16], at: usize, count: usize) -> usize
    requires callable { F.IsAlwaysCallable counted }
    requires few { (u r : ℕ) → F.post counted u r → r ≤ 5 }
    requires inside { (count ≤ 128) × (at + count ≤ length src.now) }
    ensures { (a : ℕ → ℕ) → ((u r : ℕ) → F.post counted u r → r ≡ a u) → result ≡ sum (λ i. a (get_or src.now i 0)) at count }
{
    let mut units: u16 = 0;
    for unit in &src[at..at + count] {
        units += counted(*unit);
    }
    usize::from(units)
}

fn plain(target: Target) -> u16
    ensures { result ≡ plain_of target }
{
    match target {
        Target::FssUtf => 0x80,
        Target::UtfEbcdic => 0xA0,
        Target::Utf16 => 0,
        Target::Ucs4 => 0xD800,
    }
}

// Whole characters, none of them FFFE or FFFF. UTF-16 is no target.
fn whole(target: Target, src: &[u16], at: usize, count: usize) -> Option<usize>
    requires { (count ≤ 128) × (Whole src.now at count) × NoNonCharacters src.now at count }
    ensures { IfSome result (Counted utf16 (strictly (target_form target)) src.now at count) }
{
    match target {
        Target::FssUtf => Some(sum(fss_utf_bytes, src, at, count)),
        Target::UtfEbcdic => Some(sum(utf_ebcdic_bytes, src, at, count)),
        Target::Utf16 => None,
        Target::Ucs4 => Some(sum(values, src, at, count)),
    }
}

// A block, of which so many neighbours are looked at, unless one is unpaired, or a unit FFFE or FFFF. A high unit at its end is left for the next block.
// Inlined, so that its loops are compiled for blocks of 128 too: compiled for any count alone they take half as long again.
#[inline(always)]
fn block(
    target: Target,
    src: &[u16],
    at: usize,
    count: usize,
    pairs: usize,
    most: u16,
) -> Option<Run>
    requires { (0 < count) × (count ≤ 128) × (count ≤ pairs + 1) × (at + count ≤ length src.now) × (at + pairs < length src.now) × AtMost src.now at count most }
    ensures { IfSome result (λ run. (count ≤ run.length + 1) × Counted utf16 (strictly (target_form target)) src.now at run.length run.units) }
{
    if low(src[at]) {
        return None;
    }
    if unpaired(src, at, pairs) {
        return None;
    }
    if non_characters(src, at, count, most) {
        return None;
    }
    let last = count - 1;
    if high(src[at + last]) {
        let units = whole(target, src, at, last)?;
        return Some(Run {
            length: last,
            units,
        });
    }
    let units = whole(target, src, at, count)?;
    Some(Run {
        length: count,
        units,
    })
}

// The blocks from an offset on, up to one with a fault. A block of plain units is counted here and not by `block`, against a bound found once:
// most texts have few others, and a choice by the target in each block is slow.
pub fn count(target: Target, src: &[u16], at: usize) -> Run
    requires { (at ≤ length src.now) × (length src.now ≤ 65536) }
    ensures { Counted utf16 (strictly (target_form target)) src.now at result.length result.units }
{
    let bound = plain(target);
    let mut next = at;
    let mut units: usize = 0;
    // A block may be a unit shorter than the one before.
    while next + 128 < src.len() {
        let most = joined(src, next, 128);
        if most < bound {
            next += 128;
            units += 128;
            continue;
        }
        let Some(run) = block(target, src, next, 128, 128, most) else {
            return Run {
                length: next - at,
                units,
            };
        };
        next += run.length;
        units += run.units;
    }
    let rest = src.len() - next;
    if rest == 0 {
        return Run {
            length: next - at,
            units,
        };
    }
    let most = joined(src, next, rest);
    if most < bound {
        return Run {
            length: next + rest - at,
            units: units + rest,
        };
    }
    let Some(run) = block(target, src, next, rest, rest - 1, most) else {
        return Run {
            length: next - at,
            units,
        };
    };
    Run {
        length: next + run.length - at,
        units: units + run.units,
    }
}
