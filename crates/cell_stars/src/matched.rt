//! What is found once for an exchange: the vertices of its cells, the buckets in which they lie, and which cells lie
//! across the facets of those that go and come. The latter is only a hint, and no clause speaks of it.

ghost use Rattle.std.specs.Prelude.{◌≡◌, IfOk};
ghost use Rattle.point_order.specs.Sets.{IsAscending};
ghost use Rattle.cell_stars.specs.Plans.{AreVertices, IsOnceFor};

use crate::homes::Homes;
use crate::joined::Joined;
use crate::order::do_differ;
use crate::stock::{Stock, list_of};
use crate::vertices::add_vertices;
use bucket_grid::Grid;
use point_order::{Cell, Point, points_in_order};
use std::alloc::{AllocError, Global};
use std::fmt::{self, Debug, Formatter};
use std::marker::Model;

/// The vertices of the cells of an exchange, ascending, the buckets in which those of each cell lie, and what lies
/// across the facets of its cells.
///
/// Contracts see it as the vertices, whether it is known that no cell that comes is listed twice, and the buckets.
#[derive(Drop)]
pub struct Matched {
    pub(crate) vertices: Vec<Point>,
    single: bool,
    pub(crate) gone: Homes,
    pub(crate) fresh: Homes,
    pub(crate) joined: Joined,
}

impl Debug for Matched {
    fn fmt<W: fmt::Write>(&self, f: &mut Formatter<W>) -> fmt::Result {
        f.debug_struct("Matched").finish_non_exhaustive()
    }
}

impl Model for Matched {
    ghost use Rattle.point_order.specs.Sets.{IsAscending};
    ghost use Rattle.cell_stars.specs.Plans.{Once};

    ghost Value = { Once };

    ghost view = { λ m. record {
      vertices = m.vertices.items;
      single = m.single;
      gone = (m.gone.grid, m.gone.list.items);
      fresh = (m.fresh.grid, m.fresh.list.items);
    } };

    ghost invariant = { λ m. IsAscending m.vertices.items };
}

// As many vertices as an exchange mostly has.
const FEW: usize = 48;

// Of more cells than so many it is not looked whether one is listed twice.
const PAIRS: usize = 256;

impl Matched {
    /// The vertices of the cells, their buckets in the grid, and what lies across the facets of the cells, where the
    /// gone ones make room for the fresh ones. Lists are taken from the stock, as far as it has such.
    ///
    /// # Errors
    /// Want of memory.
    pub fn of(
        alloc: Global,
        stock: &mut Stock,
        grid: Grid,
        gone: &[Cell],
        fresh: &[Cell],
    ) -> Result<Matched, AllocError>
        ensures { IfOk result (λ matched. IsOnceFor gone.now fresh.now matched) }
    {
        Ok(Matched {
            vertices: vertices_of(alloc, stock, gone, fresh)?,
            single: fresh.len() <= PAIRS && do_differ(fresh),
            gone: Homes::of(alloc, stock, grid, gone)?,
            fresh: Homes::of(alloc, stock, grid, fresh)?,
            joined: Joined::of(alloc, stock, gone, fresh)?,
        })
    }

    /// The vertices of the cells, ascending.
    pub fn vertices(&self) -> &[Point]
        ensures vertices { result.now ≡ self.now.vertices }
        ensures order { IsAscending self.now.vertices }
    {
        &self.vertices
    }

    // Whether it is known that no cell that comes is listed twice.
    pub(crate) fn is_single(&self) -> bool
        ensures { result ≡ self.now.single }
    {
        self.single
    }
}

// The vertices of the cells, ascending.
fn vertices_of(
    alloc: Global,
    stock: &mut Stock,
    gone: &[Cell],
    fresh: &[Cell],
) -> Result<Vec<Point>, AllocError>
    ensures order { IfOk result (λ list. IsAscending list.items) }
    ensures vertices { IfOk result (λ list. AreVertices gone.now fresh.now list.items) }
{
    let mut list = list_of(&mut stock.points, alloc, FEW)?;
    let mut seen = [0; 512];
    add_vertices(&mut list, &mut seen, gone)?;
    add_vertices(&mut list, &mut seen, fresh)?;
    Ok(points_in_order(list))
}
