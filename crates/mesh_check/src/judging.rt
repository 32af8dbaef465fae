//! The check of lists of cells.

ghost use Rattle.std.specs.Prelude.{◌≡◌, [], IfOk, MatchBool, Ok};
ghost use Rattle.point_order.specs.Sets.{IsAscending};
ghost use Rattle.del_laws.specs.Keys.{AreKeys};
ghost use Rattle.mesh_check.specs.declared.flaw.Verdict.TheVariants.{Good as IsGood, Bad as IsBad};
ghost use Rattle.mesh_check.specs.declared.flaw.Flaw.{Flaw as FlawParts};
ghost use Rattle.mesh_check.specs.Flaws.{IsVerdict, as_cells, IsComplex};
ghost use Rattle.mesh_check.specs.Laws.{AreCells, IsFlaw};

use crate::cells::first_flaw;
use crate::flaw::{Flaw, Verdict};
use crate::gaps::open_facet;
use crate::matching::beside_complex;
use cell_lists::QuadList;
use cloud_cells::{Compared, Made};
use point_order::{Point, Quad, Tri};
use std::alloc::{AllocError, Global};

// Whether both lists are empty.
fn are_empty(cells: &QuadList, hull: &[Tri]) -> bool
    ensures { MatchBool result (as_cells cells.now hull.now ≡ []) (as_cells cells.now hull.now ≡ [] → ⊥) }
{
    cells.is_empty() && hull.is_empty()
}

// The same, where the complex may have been made before.
pub(crate) fn check_beside(
    alloc: Global,
    made: Option<Made>,
    points: &[Point],
    cells: &QuadList,
    hull: &[Tri],
) -> Result<Verdict, AllocError>
    requires points { IsAscending points.now }
    requires keys { AreKeys points.now }
    requires cells { AreCells points.now (as_cells cells.now hull.now) }
    ensures verdict { IfOk result (IsVerdict points.now (as_cells cells.now hull.now)) }
    ensures good { result ≡ Ok IsGood → IsComplex points.now (as_cells cells.now hull.now) }
    ensures bad { (flaw : FlawParts) → result ≡ Ok (IsBad flaw) → IsFlaw points.now (as_cells cells.now hull.now) flaw
        × (IsComplex points.now (as_cells cells.now hull.now) → ⊥) }
{
    if are_empty(cells, hull) {
        return Ok(Verdict::Bad(Flaw::Empty));
    }
    let known = match beside_complex(alloc, made, points, cells, hull)? {
        Compared::Same => return Ok(Verdict::Good),
        Compared::Other(known) => known,
    };
    if let Some(flaw) = first_flaw(points, &known, cells, hull) {
        return Ok(Verdict::Bad(flaw));
    }
    drop(known);
    match open_facet(alloc, cells, hull)? {
        Some(facet) => Ok(Verdict::Bad(Flaw::OpenFacet(facet))),
        None => Ok(Verdict::Good),
    }
}

/// Judges whether cells and triples are the complex of the points: the first flaw, if there is one, cell by cell and
/// then by their facets.
///
/// The complex is made of the points at once, where they are solid. Where the lists equal it, there is no flaw; else
/// each cell that is not known to be one of it is tried against each point, up to the first that has a flaw. The facets
/// are looked at part by part, so that those of all cells never stand in memory at once.
///
/// The points are to ascend, and the cells and triples to stand in order, each once, with points of these.
///
/// # Errors
/// Want of memory.
pub fn check(
    alloc: Global,
    points: &[Point],
    cells: &[Quad],
    hull: &[Tri],
) -> Result<Verdict, AllocError>
    requires points { IsAscending points.now }
    requires keys { AreKeys points.now }
    requires cells { AreCells points.now (as_cells cells.now hull.now) }
    ensures verdict { IfOk result (IsVerdict points.now (as_cells cells.now hull.now)) }
    ensures good { result ≡ Ok IsGood → IsComplex points.now (as_cells cells.now hull.now) }
    ensures bad { (flaw : FlawParts) → result ≡ Ok (IsBad flaw) → IsFlaw points.now (as_cells cells.now hull.now) flaw
        × (IsComplex points.now (as_cells cells.now hull.now) → ⊥) }
{
    let list = QuadList::of(alloc, points, cells)?;
    check_beside(alloc, None, points, &list, hull)
}
