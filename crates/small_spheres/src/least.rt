//! The least whole alpha of which a sphere is within.

ghost use Rattle.std.specs.Prelude.{◌≡◌, ◌<◌, ◌≤ℤ◌, ◌^◌, ◌*◌, ◌*ℤ◌, ℕ, pos, nat_le};
ghost use Rattle.std.specs.Int.Signed.{le_z};

// Every alpha is below this.
const BEYOND: u64 = 1 << 34;

// The least alpha with `p <= d alpha`, a quotient rounded up, or 2^34 where that is 2^34 or more.
fn quotient_up(p: u128, d: u128) -> u64
    requires p { 0 < p }
    requires d { 0 < d }
    ensures { (alpha : ℕ) → alpha < 2 ^ 34 → nat_le p (d * alpha) ≡ nat_le result alpha }
{
    let below = (p - 1) / d;
    if below < BEYOND as u128 {
        below as u64 + 1
    } else {
        BEYOND
    }
}

/// The least alpha below 2^34 with `p <= d alpha`, and 2^34 where there is none.
pub(crate) fn least_factor(p: i128, d: i128) -> u64
    requires { pos 0 ≤ℤ d }
    ensures { (alpha : ℕ) → alpha < 2 ^ 34 → le_z p (d *ℤ pos alpha) ≡ nat_le result alpha }
{
    if p <= 0 {
        0
    } else if d == 0 {
        BEYOND
    } else {
        quotient_up(p as u128, d as u128)
    }
}
