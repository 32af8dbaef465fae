//! Lists of vertices with a star, ascending, each with the number of its star.

ghost use Rattle.std.specs.Prelude.{◌≡◌, ◌↔◌, ◌⊎◌, ℕ, OnOk, map};
ghost use Rattle.point_order.specs.Sets.{IsIn, IsAscending};

use crate::steps::place_of;
use point_order::Point;
use std::alloc::AllocError;

// Takes the vertex out.
pub(crate) fn drop_key(keys: &mut Vec<(Point, u32)>, p: Point)
    requires { IsAscending (map (λ k. k.0) keys.old.items) }
    ensures order { IsAscending (map (λ k. k.0) keys.new.items) }
    ensures keys { (k : ℕ × ℕ) → IsIn k keys.new.items ↔ (IsIn k keys.old.items × ¬ (k.0 ≡ p)) }
{
    match place_of(keys, p) {
        Ok(i) => {
            keys.remove(i);
        }
        Err(_) => {}
    }
}

// Puts the vertex in, with the number.
pub(crate) fn put_key(keys: &mut Vec<(Point, u32)>, p: Point, n: u32) -> Result<(), AllocError>
    requires { IsAscending (map (λ k. k.0) keys.old.items) }
    ensures order { OnOk result (IsAscending (map (λ k. k.0) keys.new.items)) }
    ensures keys { OnOk result ((k : ℕ × ℕ) → IsIn k keys.new.items
        ↔ (((p, n) ≡ k) ⊎ (IsIn k keys.old.items × ¬ (k.0 ≡ p)))) }
{
    drop_key(keys, p);
    match place_of(keys, p) {
        Ok(_) => unreachable!(),
        Err(i) => keys.insert(i, (p, n))?,
    }
    Ok(())
}
