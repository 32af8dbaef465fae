//! Walks to the nearest point over the buckets in hand.

ghost use Rattle.cell_store.specs.Shares.{ShowsSome};
ghost use Rattle.near_vertex.specs.Turns.{ShowsNearWalk};

use crate::meshes::{keep_only, mesh_of};
use crate::reading::{at, list_at};
use crate::telling::{Answer, put_point};
use cell_store::Hold;
use near_vertex::{NearStart, NearTurn, NearWalk};
use point_order::Point;
use std::alloc::Global;

// What the steps of a walk come to, at most a thousand.
fn put_steps(answer: &mut Answer, hold: &Hold, mut walk: NearWalk)
    requires { ShowsNearWalk hold.now walk }
{
    for _ in 0..1000 {
        match walk.step(hold) {
            NearTurn::Here(p) => {
                answer.put(", here");
                put_point(answer, p);
                return;
            }
            NearTurn::Moved => answer.put(", moved"),
            NearTurn::Need(b) => {
                write!(answer, ", needs {b}");
                return;
            }
        }
    }
    answer.put(", goes on");
}

// Where a walk starts, and what it comes to.
fn put_walk(answer: &mut Answer, hold: &Hold, q: Point)
    requires { ShowsSome hold.now }
{
    match NearWalk::start(hold, q) {
        NearStart::At(walk) => {
            answer.put("at");
            put_steps(answer, hold, walk);
        }
        NearStart::Need(b) => write!(answer, "needs {b}"),
    }
}

/// Answers a case of a walk to the nearest point.
pub(crate) fn put(alloc: Global, answer: &mut Answer, lists: &str) -> Option<()> {
    let place = at(list_at(lists, 3), 0)?;
    let mesh = mesh_of(alloc, answer, lists)?;
    let mut hold = mesh.into_hold();
    keep_only(answer, &mut hold, list_at(lists, 2));
    put_walk(answer, &hold, place);
    Some(())
}
