//! The cells that fill the hole.

ghost use Rattle.std.specs.Prelude.{◌≡◌, ℕ, List, map, IfOk};
ghost use Rattle.hole_laws.specs.Lists.{cell_over};
ghost use Rattle.cavity.specs.Digs.{IsDone, IsDoneIn};
ghost use Rattle.cavity.specs.Fills.{IsFilled};
ghost use Rattle.hole_laws.specs.Digs.{IsFacetApart, AreFacetsApart};

use crate::dig::Dig;
use cell_store::Spot;
use point_order::{Cell, Facet, Point};
use std::alloc::{AllocError, Global};

/// The cells that a new point takes away, and the cells that it brings.
#[derive(Debug, Drop)]
pub struct Fresh {
    pub gone: Vec<Cell>,
    pub fresh: Vec<Cell>,
}

// The cell of a facet and a point that is none of the facet's.
fn cell_of(facet: &Facet, p: Point) -> Cell
    requires { IsFacetApart facet.now p }
    ensures { result ≡ cell_over facet.now p }
{
    match facet {
        Facet::Three(tri) => {
            let (a, b, c) = tri.corners();
            Cell::full(p, a, b, c)
        }
        Facet::Two(pair) => {
            let (a, b) = pair.corners();
            Cell::hull(p, a, b)
        }
    }
}

// The cells of facets and a point that is none of theirs.
fn cells_of(alloc: Global, facets: &[Facet], p: Point) -> Result<Vec<Cell>, AllocError>
    requires { AreFacetsApart facets.now p }
    ensures { IfOk result (λ cells. cells.items ≡ map (λ f. cell_over f p) facets.now) }
{
    let mut cells = Vec::with_capacity(alloc, facets.len())?;
    for facet in facets {
        cells.push(cell_of(facet, p))?;
    }
    Ok(cells)
}

// The cells at hand.
fn cells_at_hand(alloc: Global, spots: &[Spot]) -> Result<Vec<Cell>, AllocError>
    ensures { IfOk result (λ cells. cells.items ≡ spots.now) }
{
    let mut cells = Vec::with_capacity(alloc, spots.len())?;
    for spot in spots {
        cells.push(*spot.cell())?;
    }
    Ok(cells)
}

/// All cells that the dig's point takes away, and all that it brings, each once. The dig is to be done.
///
/// # Errors
/// Want of memory.
pub fn fill(alloc: Global, dig: &Dig) -> Result<Fresh, AllocError>
    requires { IsDone dig.now }
    ensures gone { IfOk result (λ f. f.gone.items ≡ dig.now.found) }
    ensures filled { IfOk result (λ f. (s : List ℕ) → IsDoneIn s dig.now →
        IsFilled s dig.now.point f.gone.items f.fresh.items) }
{
    let gone = cells_at_hand(alloc, dig.found())?;
    let fresh = cells_of(alloc, dig.rim(), dig.point())?;
    Ok(Fresh { gone, fresh })
}
