//! A list of cells of four points.

ghost use Rattle.std.specs.Prelude.{◌≡◌, ◌<◌, ◌==◌, ◌++◌, ◌∷◌, [], MatchOption, OnOk, OnErr, IfOk, List, ℕ, length};
ghost use Rattle.std.specs.Prelude.{slice_index_or};

use crate::known::{Places, Row, quad_in, row_in};
use point_order::{Point, Quad};
use std::alloc::{AllocError, Global};
use std::marker::Model;

/// A list of cells of four points, 16 bytes a cell. Contracts see it as the list of the cells.
#[derive(Debug, Drop)]
pub struct QuadList {
    points: Vec<Point>,
    rows: Vec<Row>,
}

impl Model for QuadList {
    ghost use Rattle.std.specs.Prelude.{List, ℕ, map};
    ghost use Rattle.cell_lists.specs.Rows.{AreRows, corners_of};

    ghost Value = { List (List ℕ) };

    ghost view = { λ l. map (corners_of l.points.items) l.rows.items };

    ghost invariant = { λ l. AreRows l.points.items l.rows.items };
}

impl QuadList {
    /// A list with no cell, that knows no point.
    pub fn new(alloc: Global) -> QuadList
        ensures { result ≡ [] }
    {
        QuadList {
            points: Vec::new(alloc),
            rows: Vec::new(alloc),
        }
    }

    /// The cells of a slice, in their order, whose points are likely to be among these ascending ones.
    ///
    /// # Errors
    /// Want of memory, also for more than 2^32 points.
    pub fn of(alloc: Global, points: &[Point], cells: &[Quad]) -> Result<QuadList, AllocError>
        ensures { IfOk result (λ list. list ≡ cells.now) }
    {
        let mut list = QuadList::knowing(alloc, points)?;
        for quad in cells {
            list.push(*quad, Places::among(points, *quad))?;
        }
        Ok(list)
    }

    // A list with no cell, that knows these points.
    fn knowing(alloc: Global, points: &[Point]) -> Result<QuadList, AllocError>
        ensures { IfOk result (λ list. list ≡ []) }
    {
        Ok(QuadList {
            points: Vec::from_slice(alloc, points)?,
            rows: Vec::new(alloc),
        })
    }

    /// The cells, 32 bytes each.
    ///
    /// # Errors
    /// Want of memory.
    pub fn to_vec(&self, alloc: Global) -> Result<Vec<Quad>, AllocError>
        ensures { IfOk result (λ cells. cells.items ≡ self.now) }
    {
        let mut cells = Vec::with_capacity(alloc, self.len())?;
        for place in 0..self.len() {
            cells.push(self.at(place))?;
        }
        Ok(cells)
    }

    /// Knows one point more, whose number is that of the points known before. No cell changes.
    ///
    /// # Errors
    /// Want of memory. All is then as before.
    pub fn know(&mut self, p: Point) -> Result<(), AllocError>
        ensures { self.new ≡ self.old }
    {
        self.points.push(p)?;
        Ok(())
    }

    /// Puts a cell behind the others. Its points are likely to be known at these places; one that is not there is known
    /// then.
    ///
    /// # Errors
    /// Want of memory, also for more than 2^32 points. The cells are then as before.
    pub fn push(&mut self, quad: Quad, places: Places) -> Result<(), AllocError>
        ensures pushed { OnOk result (self.new ≡ self.old ++ quad ∷ []) }
        ensures refused { OnErr result (self.new ≡ self.old) }
    {
        let row = row_in(&mut self.points, quad, places)?;
        self.rows.push(row)?;
        Ok(())
    }

    /// How many cells there are.
    pub fn len(&self) -> usize
        ensures { result ≡ length self.now }
    {
        self.rows.len()
    }

    /// Whether there is no cell.
    pub fn is_empty(&self) -> bool
        ensures { result ≡ (length self.now == 0) }
    {
        self.rows.is_empty()
    }

    /// The cell at a place.
    pub fn at(&self, place: usize) -> Quad
        requires { place < length self.now }
        ensures { result ≡ slice_index_or self.now place [] }
    {
        quad_in(&self.points, self.rows[place])
    }

    /// The last cell, if there is one.
    pub fn last(&self) -> Option<Quad>
        ensures { MatchOption result (self.now ≡ []) (λ q. (front : List (List ℕ)) × (self.now ≡ front ++ q ∷ [])) }
    {
        match self.rows.split_last() {
            Some((row, _)) => Some(quad_in(&self.points, *row)),
            None => None,
        }
    }
}
