//! Linked cells take new points, and let them go again.

ghost use Rattle.std.specs.Prelude.{◌≡◌, ◌+◌, ◌≤◌, length, IfOk, List, OnErr, OnOk, ℕ};
ghost use Rattle.point_order.specs.Complex.{complex};
ghost use Rattle.point_order.specs.Sets.{IsAscending, with_point};
ghost use Rattle.hole_laws.specs.Edits.{IsNew};
ghost use Rattle.cell_slots.specs.Clouds.{AreCellsOf};
ghost use Rattle.net_digs.specs.Linked.{AreCellsLacking, HasArrived, HasArrivedInSome};
ghost use Rattle.cell_slots.specs.Nets.{AreMoved};

use crate::owned::LinkedCells;
use net_digs::{Hole, arrived, taken_back};
use point_order::{Cell, Point, cells_in_order};
use std::alloc::{AllocError, Global};
use std::marker::Model;

/// What a new point changed in linked cells. Contracts see it as the point, the cells that it took away, and those that
/// it brought.
#[derive(Drop)]
pub struct Arrival {
    pub hole: Hole,
    pub point: Point,
}

impl Model for Arrival {
    ghost use Rattle.std.specs.Prelude.{map};
    ghost use Rattle.hole_laws.specs.Digs.{AreFacetsApart};
    ghost use Rattle.hole_laws.specs.Lists.{cell_over};
    ghost use Rattle.net_digs.specs.Linked.{ArrivalView};

    ghost Value = { ArrivalView };

    ghost view = { λ a. record {
      point = a.point;
      gone = a.hole.gone.items;
      fresh = map (λ f. cell_over f a.point) a.hole.rim.items;
    } };

    ghost invariant = { λ a. AreFacetsApart a.hole.rim.items a.point };
}

impl LinkedCells {
    /// Adds a point that is none of the set.
    ///
    /// # Errors
    /// Want of memory. The cells are then as before, in any order.
    pub fn add_point(&mut self, alloc: Global, p: Point) -> Result<Arrival, AllocError>
        requires { AreCellsLacking p self.old.cells }
        ensures added { OnOk result ((s : List ℕ) → AreCellsOf s self.old.cells → IsNew s p →
            AreCellsOf (with_point p s) self.new.cells) }
        ensures point { IfOk result (λ arrival. arrival.point ≡ p) }
        ensures arrived { IfOk result (λ arrival. (s : List ℕ) → AreCellsOf s self.old.cells → IsNew s p →
            HasArrived s p arrival.gone arrival.fresh) }
        ensures room { IfOk result (λ arrival. length arrival.gone ≤ self.new.room + length arrival.fresh) }
        ensures refused { OnErr result (AreMoved self.old.cells self.new.cells) }
    {
        let start = self.hints.start(&self.net, p);
        let hole = arrived(
            alloc,
            &mut self.net,
            &mut self.edges,
            &mut self.marks,
            self.spare,
            p,
            start,
        )?;
        self.spare = self
            .spare
            .saturating_add(hole.gone.len())
            .saturating_sub(hole.rim.len());
        self.hints.note(p, self.net.last());
        Ok(Arrival { hole, point: p })
    }

    /// Takes a point that came out again, where the cells are those of the set with it. It takes no memory.
    pub fn take_back(&mut self, arrival: Arrival)
        requires arrived { HasArrivedInSome arrival.point arrival.gone arrival.fresh self.old.cells }
        requires room { length arrival.gone ≤ self.old.room + length arrival.fresh }
        ensures { (s : List ℕ) → HasArrived s arrival.point arrival.gone arrival.fresh →
            AreCellsOf (with_point arrival.point s) self.old.cells → AreCellsOf s self.new.cells }
    {
        let Arrival { hole, point } = arrival;
        taken_back(&mut self.net, &hole, point);
        self.spare = self
            .spare
            .saturating_add(hole.rim.len())
            .saturating_sub(hole.gone.len());
    }

    /// The cells, Full cells first, each kind in order, as `in_order` gives them.
    ///
    /// # Errors
    /// Want of memory.
    pub fn listed(&self, alloc: Global) -> Result<Vec<Cell>, AllocError>
        ensures { IfOk result (λ cells. (s : List ℕ) → IsAscending s → AreCellsOf s self.now.cells →
            cells.items ≡ complex s) }
    {
        Ok(cells_in_order(self.net.cells(alloc)?))
    }
}
