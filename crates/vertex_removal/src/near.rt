//! What is near a point that is taken, from the buckets in hand: the cells at it and around it, and their points.

ghost use Rattle.std.specs.Prelude.{◌≡◌, false, ℕ, List, IfOk, OnOk, IsSome, MatchOption};
ghost use Rattle.point_order.specs.Complex.{complex};
ghost use Rattle.point_order.specs.Facets.{facets_of, points_of};
ghost use Rattle.point_order.specs.Sets.{IsIn, without_point};
ghost use Rattle.point_order.specs.Solid.{is_solid as is_solid_of};
ghost use Rattle.hole_laws.specs.Edits.{IsLinkSet};
ghost use Rattle.cell_store.specs.Buckets.{bucket_at};
ghost use Rattle.bucket_grid.specs.Grids.{bucket_of};
ghost use Rattle.cell_store.specs.Shares.{Shows, ShowsWith};
ghost use Rattle.cell_store.specs.Missing.{ArePointsHeld};
ghost use Rattle.gift_wrap.specs.Near.{IsStar, AreAdded, IsListedOf, IsOfOne};
ghost use Rattle.vertex_removal.specs.Stars.{ShowsStar};

use cell_store::Hold;
use gift_wrap::points_but;
use point_order::{Cell, Point};
use star_refill::is_solid;
use std::alloc::{AllocError, Global};

// As many cells as a point mostly has at the most: room for them is made at once.
const USUAL: usize = 40;

// The cells at a point whose bucket is in hand, in any order.
pub(crate) fn star_of(alloc: Global, hold: &Hold, v: Point) -> Result<Vec<Cell>, AllocError>
    requires { IsSome (bucket_at hold.now.places (bucket_of hold.now.grid v)) }
    ensures { IfOk result (λ star. (s : List ℕ) → Shows hold.now s → IsStar s v star.items) }
{
    let mut star = Vec::with_capacity(alloc, USUAL)?;
    for cell in hold.cells_around(v) {
        star.push(*cell)?;
    }
    Ok(star)
}

// Adds the cells without v that lie across the facets of a cell, the buckets of whose points are in hand.
fn add_across(hold: &Hold, cell: &Cell, v: Point, around: &mut Vec<Cell>) -> Result<(), AllocError>
    requires shown { ShowsWith hold.now cell.now }
    requires held { ArePointsHeld hold.now (points_of cell.now) }
    ensures { OnOk result ((s : List ℕ) → Shows hold.now s → IsIn cell.now (complex s) →
        AreAdded s v (IsListedOf cell.now (facets_of cell.now)) around.old.items around.new.items) }
{
    let facets = cell.facets();
    for facet in &facets {
        let other = hold.cell_across(cell, facet);
        if !other.has(v) {
            around.push(*other)?;
        }
    }
    Ok(())
}

// The cells at v, and those without v that lie across a facet of one.
fn cells_around(
    alloc: Global,
    hold: &Hold,
    v: Point,
    star: &[Cell],
) -> Result<Vec<Cell>, AllocError>
    requires { ShowsStar hold.now v star.now }
    ensures { IfOk result (λ around. (s : List ℕ) → Shows hold.now s → IsStar s v star.now →
        AreAdded s v (IsOfOne star.now) star.now around.items) }
{
    let mut around = Vec::from_slice(alloc, star)?;
    for cell in star {
        add_across(hold, cell, v, &mut around)?;
    }
    Ok(around)
}

// A solid set between the link of v and the rest, ascending: the link, or where it is flat, the link and the points
// across from it. There is none where these are flat too, and then the rest is flat.
pub(crate) fn near_set(
    alloc: Global,
    hold: &Hold,
    v: Point,
    star: &[Cell],
) -> Result<Option<Vec<Point>>, AllocError>
    requires { ShowsStar hold.now v star.now }
    ensures { IfOk result (λ near. (s : List ℕ) → Shows hold.now s → IsIn v s → IsStar s v star.now →
        MatchOption near (is_solid_of (without_point v s) ≡ false) (λ t. IsLinkSet s v t.items)) }
{
    let link = points_but(alloc, star, v)?;
    if is_solid(&link) {
        return Ok(Some(link));
    }
    let around = cells_around(alloc, hold, v, star)?;
    let near = points_but(alloc, &around, v)?;
    if is_solid(&near) {
        Ok(Some(near))
    } else {
        Ok(None)
    }
}
