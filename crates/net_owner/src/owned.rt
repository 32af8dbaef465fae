//! The cells of a set of points that one owner changes.

ghost use Rattle.std.specs.Prelude.{◌≡◌, ◌+◌, ◌≤◌, ◌++◌, true, length, IfOk, List, OnErr, OnOk, ℕ};
ghost use Rattle.point_order.specs.Complex.{complex};
ghost use Rattle.point_order.specs.Sets.{IsAscending};
ghost use Rattle.point_order.specs.Solid.{is_solid};
ghost use Rattle.cell_slots.specs.Clouds.{AreCellsOf, AreCellsOfSome};
ghost use Rattle.net_digs.specs.Linked.{AreCellsWith};
ghost use Rattle.cell_slots.specs.Nets.{AreMoved, AreWithAll, cells_of_slots};
ghost use Rattle.cell_slots.specs.Stars.{AreBehindAll, AreStarOf};

use crate::linked::{closed, with_point};
use cell_net::{Hints, Net};
use cell_slots::{Edges, Reach};
use net_digs::{
    Hole, Marks, cells_behind, cells_of, give_back, net_of_points, star_of, take_all, walked_to,
};
use point_order::{Cell, Point, cells_in_order};
use std::alloc::{AllocError, Global};
use std::marker::Model;

/// The cells at a point, which were taken out of linked cells. Contracts see it as these.
#[derive(Drop)]
pub struct OpenStar {
    pub star: Hole,
    pub cells: Vec<Cell>,
}

impl Model for OpenStar {
    ghost use Rattle.std.specs.Prelude.{◌≡◌, List};
    ghost use Rattle.point_order.specs.declared.cell.Cell.{Cell};

    ghost Value = { List Cell };

    ghost view = { λ s. s.star.gone.items };

    ghost invariant = { λ s. s.cells.items ≡ s.star.gone.items };
}

impl OpenStar {
    /// The cells.
    pub fn cells(&self) -> &[Cell]
        ensures { result.now ≡ self.now }
    {
        &self.cells
    }
}

/// The cells of a set of points in slots, with what lies likely across their facets. Contracts see it as its cells, and
/// how many can be put in without memory.
#[derive(Drop)]
pub struct LinkedCells {
    pub net: Net,
    pub edges: Edges,
    pub marks: Marks,
    pub hints: Hints,
    pub spare: usize,
}

impl Model for LinkedCells {
    ghost use Rattle.net_digs.specs.Linked.{LinkedView};
    ghost use Rattle.cell_slots.specs.Nets.{cells_of_slots};
    ghost use Rattle.cell_slots.specs.Stars.{HaveRoom};

    ghost Value = { LinkedView };

    ghost view = { λ c. record { cells = cells_of_slots c.net; room = c.spare } };

    ghost invariant = { λ c. HaveRoom c.net c.spare };
}

// Opens the star of a point of the set. On want of memory nothing changed.
fn open_at(
    alloc: Global,
    net: &mut Net,
    marks: &mut Marks,
    v: Point,
    start: usize,
) -> Result<OpenStar, AllocError>
    requires { AreCellsWith v (cells_of_slots net.old) }
    ensures cells { IfOk result (λ star. AreMoved (cells_of_slots net.old) (cells_of_slots net.new ++ star)) }
    ensures star { IfOk result (λ star. (s : List ℕ) → AreCellsOf s (cells_of_slots net.old) → AreStarOf s v star) }
    ensures refused { OnErr result (AreMoved (cells_of_slots net.old) (cells_of_slots net.new)) }
    ensures size { length net.new ≡ length net.old }
{
    let hint = walked_to(net, v, start);
    let first = with_point(net, v, hint);
    let star = match star_of(alloc, net, marks, v, first, Reach::Whole)? {
        Some(star) => star,
        None => unreachable!(),
    };
    let cells = cells_of(alloc, &star.gone)?;
    take_all(net, &star.gone, 0);
    Ok(OpenStar { star, cells })
}

impl LinkedCells {
    /// The cells of points, which are ascending and solid.
    ///
    /// # Errors
    /// Want of memory.
    pub fn of_points(alloc: Global, points: &[Point]) -> Result<LinkedCells, AllocError>
        requires ascending { IsAscending points.now }
        requires solid { is_solid points.now ≡ true }
        ensures { IfOk result (λ linked. AreCellsOf points.now linked.cells) }
    {
        let net = net_of_points(alloc, points)?;
        let hints = Hints::of_net(alloc, &net);
        Ok(LinkedCells {
            net,
            edges: Edges::new(alloc),
            marks: Marks::new(alloc),
            hints,
            spare: 0,
        })
    }

    /// Takes the cells at a point of the set out.
    ///
    /// # Errors
    /// Want of memory. The cells are then as before, in any order.
    pub fn open_star(&mut self, alloc: Global, v: Point) -> Result<OpenStar, AllocError>
        requires { AreCellsWith v self.old.cells }
        ensures cells { IfOk result (λ star. AreMoved self.old.cells (self.new.cells ++ star)) }
        ensures star { IfOk result (λ star. (s : List ℕ) → AreCellsOf s self.old.cells → AreStarOf s v star) }
        ensures room { IfOk result (λ star. length star ≤ self.new.room) }
        ensures more { IfOk result (λ star. self.old.room + length star ≤ self.new.room) }
        ensures refused { OnErr result (AreMoved self.old.cells self.new.cells) }
        ensures kept { OnErr result (self.new.room ≡ self.old.room) }
    {
        let start = self.hints.start(&self.net, v);
        let star = open_at(alloc, &mut self.net, &mut self.marks, v, start)?;
        let _ = self.net.len();
        self.spare = self.spare.saturating_add(star.cells.len());
        Ok(star)
    }

    /// The cells of an open star, and those behind their facets, some more than once.
    ///
    /// # Errors
    /// Want of memory.
    pub fn around(&self, alloc: Global, star: &OpenStar) -> Result<Vec<Cell>, AllocError>
        requires { AreCellsOfSome (self.now.cells ++ star.now) }
        ensures { IfOk result (λ cells. (s : List ℕ) → AreCellsOf s (self.now.cells ++ star.now) →
            AreBehindAll s star.now star.now cells.items) }
    {
        cells_behind(alloc, &self.net, &star.star.gone, &star.cells)
    }

    /// Puts cells in the place of those of an open star.
    ///
    /// # Errors
    /// Want of memory. The star's cells are then put back.
    pub fn close_star(&mut self, star: OpenStar, cells: &[Cell]) -> Result<(), AllocError>
        requires { length star ≤ self.old.room }
        ensures filled { OnOk result (AreWithAll self.old.cells cells.now self.new.cells) }
        ensures refused { OnErr result (AreMoved (self.old.cells ++ star) self.new.cells) }
        ensures kept { OnErr result (self.old.room ≤ self.new.room + length star) }
    {
        match closed(
            &mut self.net,
            &mut self.edges,
            self.spare,
            &star.star,
            cells,
        ) {
            Ok(()) => {
                self.spare = self.spare.saturating_sub(cells.len());
                self.hints.note_first(cells, self.net.last());
                Ok(())
            }
            Err(e) => {
                self.spare = self.spare.saturating_sub(star.star.gone.len());
                Err(e)
            }
        }
    }

    /// Puts the cells of an open star back.
    pub fn put_star_back(&mut self, star: OpenStar)
        requires { length star ≤ self.old.room }
        ensures cells { AreMoved (self.old.cells ++ star) self.new.cells }
        ensures kept { self.old.room ≤ self.new.room + length star }
    {
        give_back(&mut self.net, &star.star.gone, 0);
        self.spare = self.spare.saturating_sub(star.star.gone.len());
    }

    /// The cells, Full cells first, each kind in order.
    ///
    /// # Errors
    /// Want of memory.
    pub fn in_order(self, alloc: Global) -> Result<Vec<Cell>, AllocError>
        ensures { IfOk result (λ cells. (s : List ℕ) → IsAscending s → AreCellsOf s self.cells →
            cells.items ≡ complex s) }
    {
        Ok(cells_in_order(self.net.cells(alloc)?))
    }
}
