//! The complex of points, to be compared with lists of cells.

ghost use Rattle.std.specs.Prelude.{◌≡◌, ◌++◌, true, map, IfOk};
ghost use Rattle.std.specs.List.Sorted.{IsStrictlySortedBy};
ghost use Rattle.point_order.specs.CellOrder.{cell_cmp};
ghost use Rattle.point_order.specs.Sets.{IsAscending};
ghost use Rattle.point_order.specs.Solid.{is_solid};
ghost use Rattle.point_order.specs.declared.cell.Cell.TheVariants.{Full, Open};
ghost use Rattle.cloud_cells.specs.Known.{IsCompared};

use crate::known::{Compared, known_in};
use crate::listed::are_all;
use cell_lists::QuadList;
use cell_slots::Packed;
use net_digs::net_of_points;
use point_order::{Point, Tri};
use std::alloc::{AllocError, Global};
use std::marker::Model;

/// The complex of a list of points, which is ascending and solid, in 24 bytes a cell. Contracts see it as the points.
#[derive(Drop)]
pub struct Made {
    points: Vec<Point>,
    packed: Vec<Packed>,
}

impl Model for Made {
    ghost use Rattle.std.specs.Prelude.{List, ℕ};
    ghost use Rattle.cloud_cells.specs.Known.{IsMadeOf};
    ghost use Rattle.cell_slots.specs.Nets.{cells_of_slots};

    ghost Value = { List ℕ };

    ghost view = { λ m. m.points.items };

    ghost invariant = { λ m. IsMadeOf m.points.items (cells_of_slots m.packed.items) };
}

impl Made {
    /// The complex of the points, which are ascending and solid.
    ///
    /// # Errors
    /// Want of memory.
    pub fn of_points(alloc: Global, points: &[Point]) -> Result<Made, AllocError>
        requires ascending { IsAscending points.now }
        requires solid { is_solid points.now ≡ true }
        ensures { IfOk result (λ made. made ≡ points.now) }
    {
        let packed = net_of_points(alloc, points)?.packed(alloc)?;
        Ok(Made {
            points: Vec::from_slice(alloc, points)?,
            packed,
        })
    }

    /// Whether it is that of these points, which are then solid.
    pub fn is_of(&self, points: &[Point]) -> bool
        ensures points { result ≡ true → self.now ≡ points.now }
        ensures solid { result ≡ true → is_solid points.now ≡ true }
    {
        self.points.as_slice() == points
    }

    /// Compares cells and triples, which stand in order, with the complex: whether they are it, and else which of them
    /// are known to be its cells.
    ///
    /// # Errors
    /// Want of memory.
    pub fn compared(
        &self,
        alloc: Global,
        cells: &QuadList,
        hull: &[Tri],
    ) -> Result<Compared, AllocError>
        requires order { IsStrictlySortedBy cell_cmp (map Full cells.now ++ map Open hull.now) }
        ensures { IfOk result (IsCompared self.now cells.now hull.now) }
    {
        if are_all(&self.packed, cells, hull) {
            return Ok(Compared::Same);
        }
        Ok(Compared::Other(known_in(alloc, &self.packed, cells, hull)?))
    }
}
