// The code units that the bytes of well-formed FSS-UTF add in a target.
ghost use Rattle.std.specs.Prelude.{ℕ, Bool, ◌≡◌, ◌+◌, ◌-◌, ◌≤◌, length, get_or};
ghost use Rattle.std.specs.Int.{from_bool};
ghost use Rattle.laws.proofs.Runs.{sum};
ghost use Rattle.measure_runs.specs.Validation.{reached, splits, added, added_at, lead_at, reached_at, split_at};

use crate::fss_utf_validation::{Weights, trails};

fn reaches(weight: Option<u8>, byte: u8) -> bool
    ensures { result ≡ reached weight byte }
{
    weight.is_some_and(|weight| byte >= weight)
}

fn splits(split: Option<u8>, before: u8, byte: u8) -> bool
    ensures { result ≡ splits split before byte }
{
    (byte >= 0xA0) & (byte < 0xC0) & split.is_some_and(|split| before == split)
}

#[tactic(auto, unfolding(crate::specs::Validation::added))]
fn added_by(weights: Weights, before: u8, byte: u8) -> u8
    ensures { result ≡ added weights before byte }
{
    u8::from(!trails(byte))
        + u8::from(reaches(weights.two, byte))
        + u8::from(reaches(weights.three, byte))
        + u8::from(reaches(weights.four, byte))
        + u8::from(reaches(weights.five, byte))
        + u8::from(splits(weights.split, before, byte))
}

pub fn added_few(weights: Weights, src: &[u8], at: usize, count: usize) -> usize
    requires { (1 ≤ at) × (at + count ≤ length src.now) × (length src.now ≤ 65536) }
    ensures { result ≡ sum (added_at weights src.now) at count }
{
    let mut units: usize = 0;
    for i in 0..count {
        let k = at + i;
        units += usize::from(added_by(weights, src[k - 1], src[k]));
    }
    units
}

// How many bytes of a block pass a test with the byte before them. The count is a byte itself, so that many are added at once.
fn count64<F: Fn(u8, u8) -> bool>(test: F, src: &[u8], at: usize) -> u8
    requires callable { F.IsAlwaysCallable test }
    requires inside { (1 ≤ at) × (at + 64 ≤ length src.now) }
    ensures { (t : ℕ → ℕ → Bool) → ((p b : ℕ) (r : Bool) → F.post test p b r → r ≡ t p b) → result ≡ sum (λ i. from_bool (t (get_or src.now (i - 1) 0) (get_or src.now i 0))) at 64 }
{
    let mut count: u8 = 0;
    for i in 0..64 {
        let k = at + i;
        count += u8::from(test(src[k - 1], src[k]));
    }
    count
}

fn leads64(src: &[u8], at: usize) -> u8
    requires { (1 ≤ at) × (at + 64 ≤ length src.now) }
    ensures { result ≡ sum (lead_at src.now) at 64 }
{
    count64(|_, byte| !trails(byte), src, at)
}

fn reached64(weight: Option<u8>, src: &[u8], at: usize) -> u8
    requires { (1 ≤ at) × (at + 64 ≤ length src.now) }
    ensures { result ≡ sum (reached_at weight src.now) at 64 }
{
    match weight {
        Some(weight) => count64(|_, byte| byte >= weight, src, at),
        None => 0,
    }
}

fn split64(split: Option<u8>, src: &[u8], at: usize) -> u8
    requires { (1 ≤ at) × (at + 64 ≤ length src.now) }
    ensures { result ≡ sum (split_at split src.now) at 64 }
{
    match split {
        Some(split) => count64(
            |before, byte| (byte >= 0xA0) & (byte < 0xC0) & (before == split),
            src,
            at,
        ),
        None => 0,
    }
}

pub fn added64(weights: Weights, src: &[u8], at: usize) -> usize
    requires { (1 ≤ at) × (at + 64 ≤ length src.now) }
    ensures { result ≡ sum (added_at weights src.now) at 64 }
{
    usize::from(leads64(src, at))
        + usize::from(reached64(weights.two, src, at))
        + usize::from(reached64(weights.three, src, at))
        + usize::from(reached64(weights.four, src, at))
        + usize::from(reached64(weights.five, src, at))
        + usize::from(split64(weights.split, src, at))
}
