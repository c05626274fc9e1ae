//! Roots and quotients of whole numbers, rounded down and up.
#![tactic(auto)]

ghost use Rattle.std.specs.Prelude.{◌≡◌, ◌+◌, ◌-◌, ◌*◌, ◌<◌, ◌≤◌, ◌^◌, pos, ◌+ℤ◌, ◌-ℤ◌, ◌*ℤ◌, ◌≤ℤ◌, ◌<ℤ◌};
ghost use Rattle.spot_terms.specs.Whole.{IsRootCeiling, root_floor, root_ceiling, quotient_floor, quotient_ceiling};

// A power of two above the square root of `n`.
fn power_above_root(n: u64) -> u64
    requires { 0 < n }
    ensures above { n < (result + 1) * (result + 1) }
    ensures some { 0 < result }
    ensures bound { result ≤ 2 ^ 32 }
{
    1 << (n.ilog2() / 2 + 1)
}

// Newton's step from `root`, which isn't below the square root of `n` rounded down, and neither is the result.
fn nearer_root(n: u64, root: u64) -> u64
    requires some { 0 < root }
    requires above { n < (root + 1) * (root + 1) }
    requires bound { root ≤ 2 ^ 32 }
    ensures above { n < (result + 1) * (result + 1) }
    ensures nearer { root ≤ result → root * root ≤ n }
    ensures some { 0 < n → 0 < result }
{
    (root + n / root) / 2
}

// The square root of `n`, rounded down, by Newton's steps from above.
fn narrow_root(n: u64) -> u64
    ensures square_le { result * result ≤ n }
    ensures next_square_gt { n < (result + 1) * (result + 1) }
{
    if n == 0 {
        return 0;
    }
    let mut root = power_above_root(n);
    let mut next = nearer_root(n, root);
    while next < root {
        root = next;
        next = nearer_root(n, root);
    }
    root
}

/// The square root of `n`, rounded down: the greatest whole number whose square is at most `n`.
pub fn isqrt_floor(n: u128) -> u64
    ensures square_le { result * result ≤ n }
    ensures next_square_gt { n < (result + 1) * (result + 1) }
    ensures value { result ≡ root_floor n }
{
    match u64::try_from(n) {
        Ok(narrow) => narrow_root(narrow),
        Err(_) => n.isqrt() as u64,
    }
}

/// The square root of `n`, rounded up: the least whole number whose square is at least `n`.
///
/// `n` is at most the square of the greatest `u64`.
pub fn isqrt_ceil(n: u128) -> u64
    requires { n ≤ (2 ^ 64 - 1) * (2 ^ 64 - 1) }
    ensures square_ge { n ≤ result * result }
    ensures previous_square_lt { 0 < result → (result - 1) * (result - 1) < n }
    ensures least { IsRootCeiling n result }
    ensures value { result ≡ root_ceiling n }
{
    let root = isqrt_floor(n);
    let wide = root as u128;
    if wide * wide == n { root } else { root + 1 }
}

/// The quotient `a / b`, rounded down. `b` is positive.
pub fn div_floor(a: i128, b: i128) -> i128
    requires { pos 0 <ℤ b }
    ensures product_le { (result *ℤ b) ≤ℤ a }
    ensures next_product_gt { a <ℤ ((result +ℤ pos 1) *ℤ b) }
    ensures value { result ≡ quotient_floor a b }
{
    a.div_euclid(b)
}

/// The quotient `a / b`, rounded up. `b` is positive.
pub fn div_ceil(a: i128, b: i128) -> i128
    requires { pos 0 <ℤ b }
    ensures product_ge { a ≤ℤ (result *ℤ b) }
    ensures previous_product_lt { ((result -ℤ pos 1) *ℤ b) <ℤ a }
    ensures value { result ≡ quotient_ceiling a b }
{
    let quotient = div_floor(a, b);
    if a.rem_euclid(b) == 0 {
        quotient
    } else {
        quotient + 1
    }
}
