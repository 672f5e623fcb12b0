// From FSS-UTF, in blocks.
ghost use Rattle.std.specs.Prelude.{IfSome, ◌+◌, ◌<◌, ◌≤◌, length};
ghost use Rattle.forms.specs.Forms.{fss_utf, strictly};
ghost use Rattle.laws.proofs.Runs.{Counted};
ghost use Rattle.encoder.specs.Target.{target_form};
ghost use Rattle.measure_runs.specs.Validation.{Blocks, Whole, Weighed, LeadWeights, Padded};

use crate::fss_utf_validation::{Weights, ill_formed64, last_lead, trails};
use crate::fss_utf_weights::{added_few, added64};
use encoder::Target;
use types::Run;

// Blocks at which nothing is wrong, with the units that their bytes add.
fn valid_blocks(weights: Weights, src: &[u8], at: usize) -> Run
    requires { (3 ≤ at) × (at ≤ length src.now) × (length src.now ≤ 65536) }
    ensures { Blocks weights src.now at result.length result.units }
{
    let mut length: usize = 0;
    let mut units: usize = 0;
    // `chunks_exact` gives a block without the three bytes before it.
    while 64 <= src.len() - (at + length) {
        let from = at + length;
        if ill_formed64(src, from) {
            return Run { length, units };
        }
        units += added64(weights, src, from);
        length += 64;
    }
    Run { length, units }
}

// The whole characters of such blocks, if there are any: up to where the last one begins.
fn valid_run(weights: Weights, src: &[u8], at: usize) -> Option<Run>
    requires { (at < length src.now) × (length src.now ≤ 65536) }
    ensures { IfSome result (λ run. Whole weights src.now at run.length run.units) }
{
    if at < 3 {
        return None;
    }
    if trails(src[at]) {
        return None;
    }
    let blocks = valid_blocks(weights, src, at);
    if blocks.length == 0 {
        return None;
    }
    let last = last_lead(src, at, blocks.length)?;
    let cut = added_few(weights, src, at + last, blocks.length - last);
    Some(Run {
        length: last,
        units: blocks.units - cut,
    })
}

// How many bytes from an offset on go into one block: all that are left, or up to where the last character begins.
fn block_length(src: &[u8], at: usize) -> usize
    requires { at < length src.now }
    ensures { (result < 64) × (at + result ≤ length src.now) }
{
    let left = src.len() - at;
    if left < 64 {
        return left;
    }
    last_lead(src, at, 64).unwrap_or(0)
}

// So many bytes, put into a block of their own with zeros behind them.
fn put(src: &[u8], at: usize, count: usize, block: &mut [u8])
    requires { (count < 64) × (at + count ≤ length src.now) × Padded src.now at 0 block.old }
    ensures { Padded src.now at count block.new }
{
    block[3..3 + count].copy_from_slice(&src[at..at + count]);
}

// Fewer bytes than a block has, or the first of a text: a zero is a character too, so that they are tested and counted as a block is.
fn valid_few(weights: Weights, src: &[u8], at: usize) -> Option<Run>
    requires { (at < length src.now) × LeadWeights weights }
    ensures { IfSome result (λ run. Weighed weights src.now at run.length run.units) }
{
    let count = block_length(src, at);
    let mut block = [0u8; 80];
    put(src, at, count, &mut block);
    if trails(block[3]) {
        return None;
    }
    if ill_formed64(&block, 3) {
        return None;
    }
    Some(Run {
        length: count,
        units: added64(weights, &block, 3) - (64 - count),
    })
}

fn valid(weights: Weights, src: &[u8], at: usize) -> Option<Run>
    requires { (at < length src.now) × (length src.now ≤ 65536) × LeadWeights weights }
    ensures { IfSome result (λ run. Weighed weights src.now at run.length run.units) }
{
    match valid_run(weights, src, at) {
        Some(run) => Some(run),
        None => valid_few(weights, src, at),
    }
}

// What each target adds. FSS-UTF is no target of a conversion from itself.
fn weighed(target: Target, src: &[u8], at: usize) -> Option<Run>
    requires { (at < length src.now) × (length src.now ≤ 65536) }
    ensures { IfSome result (λ run. Counted fss_utf (strictly (target_form target)) src.now at run.length run.units) }
{
    match target {
        Target::FssUtf => None,
        Target::UtfEbcdic => valid(
            Weights {
                two: Some(0xC3),
                three: Some(0xD0),
                four: Some(0xE4),
                five: Some(0xF1),
                split: Some(0xC2),
            },
            src,
            at,
        ),
        Target::Utf16 => valid(
            Weights {
                two: Some(0xF0),
                three: None,
                four: None,
                five: None,
                split: None,
            },
            src,
            at,
        ),
        Target::Ucs4 => valid(
            Weights {
                two: None,
                three: None,
                four: None,
                five: None,
                split: None,
            },
            src,
            at,
        ),
    }
}

pub fn count(target: Target, src: &[u8], at: usize) -> Run
    requires { (at < length src.now) × (length src.now ≤ 65536) }
    ensures { Counted fss_utf (strictly (target_form target)) src.now at result.length result.units }
{
    if src[at] < 0x80 {
        let ascii = crate::fss_utf_ascii::ascii_length(src, at);
        if ascii != 0 {
            return Run {
                length: ascii,
                units: ascii,
            };
        }
    }
    weighed(target, src, at).unwrap_or(Run {
        length: 0,
        units: 0,
    })
}
