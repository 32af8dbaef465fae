//! Walks over the buckets in hand.

ghost use Rattle.std.specs.Prelude.{◌≡◌, ℕ, true, List};
ghost use Rattle.cell_store.specs.Shares.{Shows, ShowsSome};
ghost use Rattle.hole_laws.specs.Edits.{IsNew};
ghost use Rattle.cell_walk.specs.Paths.{ShowsWalk};

use crate::meshes::{keep_only, mesh_of};
use crate::reading::{at, list_at};
use crate::telling::{Answer, put_cell};
use cell_store::Hold;
use cell_walk::{Start, Walk, WalkTurn};
use point_order::Point;
use std::alloc::Global;

// Whether the point's bucket is in hand, and the point is not there.
fn is_new(hold: &Hold, p: Point) -> bool
    ensures { result ≡ true → (s : List ℕ) → Shows hold.now s → IsNew s p }
{
    let _ = p.key();
    hold.has(hold.grid().bucket_of(p)) && !hold.holds_point(p)
}

// What the steps of a walk come to, at most a thousand.
fn put_steps(answer: &mut Answer, hold: &Hold, mut walk: Walk)
    requires { ShowsWalk hold.now walk }
{
    for _ in 0..1000 {
        match walk.step(hold) {
            WalkTurn::Here(cell) => {
                answer.put(", here");
                put_cell(answer, &cell);
                return;
            }
            WalkTurn::Moved => answer.put(", moved"),
            WalkTurn::Need(b) => {
                write!(answer, ", needs {b}");
                return;
            }
        }
    }
    answer.put(", goes on");
}

// Where a walk starts, and what it comes to.
fn put_walk(answer: &mut Answer, hold: &Hold, p: Point)
    requires { ShowsSome hold.now }
{
    match Walk::start(hold, p) {
        Start::At(walk) => {
            answer.put("at");
            if is_new(hold, p) {
                put_steps(answer, hold, walk);
            } else {
                answer.put(", to no new point");
            }
        }
        Start::Need(b) => write!(answer, "needs {b}"),
    }
}

/// Answers a case of a walk.
pub(crate) fn put(alloc: Global, answer: &mut Answer, lists: &str) -> Option<()> {
    let target = at(list_at(lists, 3), 0)?;
    let mesh = mesh_of(alloc, answer, lists)?;
    let mut hold = mesh.into_hold();
    keep_only(answer, &mut hold, list_at(lists, 2));
    put_walk(answer, &hold, target);
    Some(())
}
