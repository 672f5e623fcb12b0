// Bounds of many values at once.
ghost use Rattle.std.specs.Prelude.{◌≡◌, true, length};
ghost use Rattle.laws.proofs.Blocks.{AtLeast, AtMost};

// The values joined by OR: none of them exceeds it. The loop has no branch, so that it is compiled to vector code.
pub fn joined(values: &[u32]) -> u32
    ensures { AtMost values.now 0 (length values.now) result }
{
    let mut most: u32 = 0;
    for value in values {
        most |= *value;
    }
    most
}

// Whether all values reach a bound.
pub fn all_reach(values: &[u32], bound: u32) -> bool
    ensures { result ≡ true → AtLeast values.now 0 (length values.now) bound }
{
    let mut all = true;
    for value in values {
        all &= *value >= bound;
    }
    all
}
