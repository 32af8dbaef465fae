//! The buckets in which the vertices of cells lie, found once for an exchange: by them it is told of each bucket which
//! cells touch it.

ghost use Rattle.std.specs.Prelude.{◌≡◌, IfOk};
ghost use Rattle.point_order.specs.Sets.{is_among};
ghost use Rattle.cell_stars.specs.Homes.{AreHomes, AreHomesAt, home_in};
ghost use Rattle.cell_stars.specs.Places.{touches_in};
ghost use Rattle.cell_stars.specs.Swaps.{touches as touches_of};

use crate::cells::Cells;
use crate::order::touches;
use crate::stock::{Stock, list_of};
use bucket_grid::Grid;
use point_order::Cell;
use std::alloc::{AllocError, Global};

// The numbers of the buckets of a cell's vertices; of three the first one's again.
pub(crate) type Home = [u32; 4];

// The homes of some cells in a grid.
#[derive(Drop)]
pub(crate) struct Homes {
    pub(crate) grid: Grid,
    pub(crate) list: Vec<Home>,
}

// The home of the cell.
fn home_of(grid: Grid, cell: &Cell) -> Home
    ensures { result ≡ home_in grid cell.now }
{
    match cell {
        Cell::Full(quad) => {
            let (a, b, c, d) = quad.corners();
            [
                grid.bucket_of(a),
                grid.bucket_of(b),
                grid.bucket_of(c),
                grid.bucket_of(d),
            ]
        }
        Cell::Open(tri) => {
            let (a, b, c) = tri.corners();
            let first = grid.bucket_of(a);
            [first, grid.bucket_of(b), grid.bucket_of(c), first]
        }
    }
}

// Whether the bucket is one of the home's.
fn has_bucket(home: &Home, number: u32) -> bool
    ensures { result ≡ is_among number home.now }
{
    let [a, b, c, d] = *home;
    a == number || b == number || c == number || d == number
}

impl Homes {
    // The homes of the cells.
    pub(crate) fn of(
        alloc: Global,
        stock: &mut Stock,
        grid: Grid,
        cells: &[Cell],
    ) -> Result<Homes, AllocError>
        ensures { IfOk result (λ homes. AreHomes (homes.grid, homes.list.items) cells.now) }
    {
        let mut list = list_of(&mut stock.homes, alloc, cells.len())?;
        for cell in cells {
            list.push(home_of(grid, cell))?;
        }
        Ok(Homes { grid, list })
    }
}

// Whether a finite vertex of the cell lies in the bucket with the number, where its home is the one at the place.
fn touches_by(homes: &Homes, at: usize, grid: Grid, number: u32, cell: &Cell) -> bool
    requires { AreHomesAt homes.now.grid homes.now.list.items at cell.now }
    ensures { result ≡ touches_of grid number cell.now }
{
    if grid.size() == homes.grid.size() && at < homes.list.len() {
        has_bucket(&homes.list[at], number)
    } else {
        touches(grid, number, cell)
    }
}

impl Cells {
    // Whether a finite vertex of the cell lies in the bucket, where its home is the one at the place.
    pub(crate) fn is_touched_by(&self, homes: &Homes, at: usize, cell: &Cell) -> bool
        requires { AreHomesAt homes.now.grid homes.now.list.items at cell.now }
        ensures { result ≡ touches_in self.now.place cell.now }
    {
        match self.place() {
            Some((grid, number)) => touches_by(homes, at, grid, number, cell),
            None => false,
        }
    }
}
