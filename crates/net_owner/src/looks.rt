//! Looks at linked cells, by walks. None of them takes memory.

ghost use Rattle.std.specs.Prelude.{◌≡◌, false, IfSome, List, ℕ};
ghost use Rattle.point_order.specs.Sets.{IsIn};
ghost use Rattle.del_laws.specs.Nearest.{comes_before};
ghost use Rattle.hole_laws.specs.Edits.{GoesFrom, IsNew};
ghost use Rattle.cell_slots.specs.Clouds.{AreCellsOf, AreCellsOfSome};
ghost use Rattle.net_digs.specs.Linked.{AreCellsLacking};
ghost use Rattle.cell_slots.specs.Nets.{cells_of_slots};

use crate::aim::Aim;
use crate::around::{Around, Halt, look};
use crate::owned::LinkedCells;
use cell_net::Net;
use cell_slots::Reach;
use net_digs::{first_in_conflict, walked_from};
use point_order::{Cell, Point};

// How many stars a walk comes by at the most.
const STARS: u64 = 1 << 20;

// A cell that the new point takes away, by a walk from a slot.
fn conflict_from(net: &Net, p: Point, start: usize) -> Cell
    requires { AreCellsLacking p (cells_of_slots net.now) }
    ensures { (s : List ℕ) → AreCellsOf s (cells_of_slots net.now) → IsNew s p → GoesFrom s p result }
{
    let hint = walked_from(net, p, Reach::Whole, start);
    match first_in_conflict(net, p, hint, Reach::Whole) {
        Some(place) => net.cell_in(place).to_cell(),
        None => unreachable!(),
    }
}

// The nearest point to a place, by a walk from star to star that begins with the cell of a slot, if it comes to an end.
fn nearest_from(net: &Net, q: Point, start: usize) -> Option<Point>
    requires { AreCellsOfSome (cells_of_slots net.now) }
    ensures among { IfSome result (λ n. (s : List ℕ) → AreCellsOf s (cells_of_slots net.now) → IsIn n s) }
    ensures first { IfSome result (λ n. (s : List ℕ) → AreCellsOf s (cells_of_slots net.now) → (y : ℕ) → IsIn y s →
        comes_before q y n ≡ false) }
{
    let mut around = Around::new();
    let mut slot = start;
    for _ in 0..STARS {
        let first = net.spot_in(slot)?;
        let aim = Aim::at(q, first.cell());
        match look(net, &aim, first, &mut around) {
            Ok(()) => return Some(aim.point),
            Err(Halt::Nearer(next)) => slot = next,
            Err(Halt::Lost) => return None,
        }
    }
    None
}

impl LinkedCells {
    /// A cell that a new point would take away, found by a walk. It takes no memory.
    pub fn cell_in_conflict(&self, p: Point) -> Cell
        requires { AreCellsLacking p self.now.cells }
        ensures { (s : List ℕ) → AreCellsOf s self.now.cells → IsNew s p → GoesFrom s p result }
    {
        let start = self.hints.start(&self.net, p);
        conflict_from(&self.net, p, start)
    }

    /// The nearest point to a place, among those as near the one with the least key, by a walk from star to star, if it
    /// comes to an end: it does where no star on its way has more than 128 cells. It takes no memory.
    pub fn nearest(&self, q: Point) -> Option<Point>
        requires { AreCellsOfSome self.now.cells }
        ensures among { IfSome result (λ n. (s : List ℕ) → AreCellsOf s self.now.cells → IsIn n s) }
        ensures first { IfSome result (λ n. (s : List ℕ) → AreCellsOf s self.now.cells → (y : ℕ) → IsIn y s →
            comes_before q y n ≡ false) }
    {
        let start = self.hints.start(&self.net, q);
        nearest_from(&self.net, q, start)
    }
}
