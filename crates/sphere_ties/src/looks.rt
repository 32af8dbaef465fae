//! The coefficient that decides a tie, with as few of them computed as the tie needs.

ghost use Rattle.std.specs.Prelude.{◌≡◌, ◌≢◌, ◌<◌, ◌≤◌, ℕ, [], ◌∷◌, ◌⊎◌, pos, false};
ghost use Rattle.point_order.specs.Orientation.{is_flat};
ghost use Rattle.point_order.specs.Sets.{AreFive, IsIn};
ghost use Rattle.point_order.specs.Laws.{coefficient, IsDeciding};

use exact_orient::orient;
use point_order::Point;

// Above the key of every point: 2^42.
const ABOVE_ALL: u64 = 4398046511104;

// The greater of the two, of which `next` counts only where its key is below the limit.
fn greater_below(best: Point, next: Point, limit: u64) -> Point
    requires { best < limit }
    ensures below { result < limit }
    ensures best { best ≤ result }
    ensures next { next < limit → next ≤ result }
{
    if next.key() < limit && best < next {
        next
    } else {
        best
    }
}

// A point below the limit. None of the five below the limit is greater.
fn highest(a: Point, b: Point, c: Point, d: Point, e: Point, limit: u64) -> Point
    requires { e < limit }
    ensures below { result < limit }
    ensures most { (q : ℕ) → IsIn q (a ∷ b ∷ c ∷ d ∷ e ∷ []) → q < limit → q ≤ result }
{
    let best = greater_below(e, d, limit);
    let best = greater_below(best, c, limit);
    let best = greater_below(best, b, limit);
    greater_below(best, a, limit)
}

// What the height of the point is multiplied by in the lifted determinant.
fn coefficient_of(a: Point, b: Point, c: Point, d: Point, e: Point, at: Point) -> i64
    ensures { result ≡ coefficient a b c d e at }
{
    if at == e {
        orient(a, b, c, d)
    } else if at == d {
        -orient(a, b, c, e)
    } else if at == c {
        orient(a, b, d, e)
    } else if at == b {
        -orient(a, c, d, e)
    } else if at == a {
        orient(b, c, d, e)
    } else {
        0
    }
}

/// The coefficient of the greatest point whose coefficient is not 0.
///
/// Few tests come here. It is a call of its own, so that the test before it keeps no coordinates for it.
#[inline(never)]
pub fn first_coefficient(a: Point, b: Point, c: Point, d: Point, e: Point) -> i64
    requires independent { is_flat a b c d ≡ false }
    requires distinct { AreFive a b c d e }
    ensures { (p : ℕ) × IsDeciding a b c d e p × (result ≡ coefficient a b c d e p) }
{
    let _keys = (a.key(), b.key(), c.key(), d.key(), e.key());
    let mut limit = ABOVE_ALL;
    'looks: loop {
        let at = highest(a, b, c, d, e, limit);
        let found = coefficient_of(a, b, c, d, e, at);
        if found != 0 {
            return found;
        }
        limit = at.key();
    }
}
