//! On which side of a perturbed sphere a point lies, exactly, and which cells a point is in conflict with.
//!
//! ```
//! let out = outside(a, b, c, d, e);      // never a tie: five distinct points, the first four independent
//! let taken = conflict(&cell, mate, p);  // of a Full cell the mate is not looked at
//! ```
#![tactic(auto)]

ghost use Rattle.std.specs.Prelude.{◌≡◌, false};
ghost use Rattle.point_order.specs.Orientation.{is_flat};
ghost use Rattle.point_order.specs.Sets.{AreFive};
ghost use Rattle.point_order.specs.Spheres.{is_outside};
ghost use Rattle.point_order.specs.Conflicts.{CanJudge, is_in_conflict};

mod looks;

use exact_orient::orient;
use exact_sphere::sphere;
use looks::first_coefficient;
use point_order::{Cell, Point};

/// Whether `e` is outside the perturbed sphere through the other four, which may stand in either orientation.
///
/// Where the in-sphere polynomial is 0 the five lie on one sphere, and the symbolic perturbation
/// (Edelsbrunner and Mücke, Simulation of Simplicity) decides: by the greatest of the points
/// whose coefficient in the polynomial is not 0.
pub fn outside(a: Point, b: Point, c: Point, d: Point, e: Point) -> bool
    requires independent { is_flat a b c d ≡ false }
    requires distinct { AreFive a b c d e }
    ensures { result ≡ is_outside a b c d e }
{
    let _keys = (a.key(), b.key(), c.key(), d.key(), e.key());
    let side = orient(a, d, b, c);
    let plain = sphere(a, b, c, d, e);
    if plain != 0 {
        (plain > 0) == (side > 0)
    } else {
        (first_coefficient(a, b, c, d, e) > 0) == (side > 0)
    }
}

/// Whether `p` is in conflict with the cell, so that it takes the cell away where it is added.
///
/// Of a Full cell the `mate` is not looked at. Of an Open cell it is a point off the cell's plane, on the inner side.
pub fn conflict(cell: &Cell, mate: Point, p: Point) -> bool
    requires { CanJudge cell.now mate p }
    ensures { result ≡ is_in_conflict cell.now mate p }
{
    match *cell {
        Cell::Full(quad) => {
            let (a, b, c, d) = quad.corners();
            !outside(a, b, c, d, p)
        }
        Cell::Open(tri) => {
            let (a, b, c) = tri.corners();
            let side = orient(a, b, c, p);
            if side == 0 {
                !outside(a, b, c, mate, p)
            } else {
                (side > 0) != (orient(a, b, c, mate) > 0)
            }
        }
    }
}
