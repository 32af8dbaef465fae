//! Facets that are not those of exactly two cells.

ghost use Rattle.std.specs.Prelude.{◌≡◌, ◌++◌, ℕ, List, ◌↔◌, map, IfOk, OnOk, MatchBool, MatchOption};
ghost use Rattle.std.specs.List.{flat_map};
ghost use Rattle.std.specs.List.Sorted.{IsStrictlySortedBy};
ghost use Rattle.point_order.specs.Facets.{facets_of};
ghost use Rattle.point_order.specs.Sets.{IsIn};
ghost use Rattle.point_order.specs.declared.cell.Cell.{Cell};
ghost use Rattle.point_order.specs.declared.cell.Cell.TheVariants.{Full, Open};
ghost use Rattle.mesh_check.specs.declared.gaps.Part.{Part as PartOf};
ghost use Rattle.mesh_check.specs.declared.gaps.Side.{Side as SideParts};
ghost use Rattle.mesh_check.specs.Flaws.{as_cells};
ghost use Rattle.mesh_check.specs.Sides.{AreSidesIn, IsPair, IsUnpaired, OpenIn, OpenIs, is_in as is_in_part, side_cmp};
ghost use Rattle.mesh_check.specs.Sides.{side_of, sides_in};

use cell_lists::QuadList;
use point_order::{Cell, Facet, Tri};
use std::alloc::{AllocError, Global};

// How many cells have their facets looked at together, so that these take little memory.
const TOGETHER: usize = 32_768;

// A facet of a cell, with the cell.
#[derive(Clone, Copy, PartialEq, Eq, PartialOrd, Ord)]
pub(crate) struct Side {
    facet: Facet,
    cell: Cell,
}

// A part of all facets. The parts of triples go by their least points.
#[derive(Clone, Copy)]
pub(crate) enum Part {
    // The triples whose least point is not below the first key, and below the second.
    Between(u64, u64),
    // The triples whose least point is not below the key.
    From(u64),
    // The pairs.
    Pairs,
}

// Whether a facet is one of the part.
fn is_in(part: Part, facet: &Facet) -> bool
    ensures { result ≡ is_in_part part facet.now }
{
    match facet {
        Facet::Three(tri) => {
            let (least, _, _) = tri.corners();
            match part {
                Part::Between(low, high) => low <= least.key() && least.key() < high,
                Part::From(low) => low <= least.key(),
                Part::Pairs => false,
            }
        }
        Facet::Two(_) => match part {
            Part::Pairs => true,
            _ => false,
        },
    }
}

// Puts a side of a cell behind the sides, where its facet is one of the part.
fn push_side(sides: &mut Vec<Side>, part: Part, facet: Facet, cell: Cell) -> Result<(), AllocError>
    ensures { OnOk result (sides.new.items ≡ sides.old.items ++ side_of part facet cell) }
{
    if is_in(part, &facet) {
        sides.push(Side { facet, cell })?;
    }
    Ok(())
}

// Puts the sides of a cell behind the sides, those of the part.
fn push_sides(sides: &mut Vec<Side>, part: Part, cell: Cell) -> Result<(), AllocError>
    ensures { OnOk result (sides.new.items ≡ sides.old.items ++ sides_in part cell) }
{
    let [first, second, third, last] = cell.facets();
    push_side(sides, part, first, cell)?;
    push_side(sides, part, second, cell)?;
    push_side(sides, part, third, cell)?;
    push_side(sides, part, last, cell)
}

// How many sides a part is likely to have, so that their list seldom grows.
fn room_for(cells: usize) -> usize {
    cells
        .min(TOGETHER)
        .saturating_mul(4)
        .saturating_add(TOGETHER / 4)
}

// The sides of all cells, those of the part.
fn all_sides(
    alloc: Global,
    part: Part,
    cells: &QuadList,
    hull: &[Tri],
) -> Result<Vec<Side>, AllocError>
    ensures { IfOk result (λ sides. sides.items ≡ flat_map (sides_in part) (as_cells cells.now hull.now)) }
{
    let mut sides = Vec::with_capacity(alloc, room_for(cells.len().saturating_add(hull.len())))?;
    for place in 0..cells.len() {
        push_sides(&mut sides, part, Cell::Full(cells.at(place)))?;
    }
    for tri in hull {
        push_sides(&mut sides, part, Cell::Open(*tri))?;
    }
    Ok(sides)
}

// The sides in order, each once. It takes no memory.
fn in_order(mut sides: Vec<Side>) -> Vec<Side>
    ensures order { IsStrictlySortedBy side_cmp result.items }
    ensures same { (x : SideParts) → IsIn x sides.items ↔ IsIn x result.items }
{
    sides.sort_unstable();
    sides.dedup();
    sides
}

// The least facet of the part that is not one of exactly two cells, if there is one.
fn open_in(
    alloc: Global,
    part: Part,
    cells: &QuadList,
    hull: &[Tri],
) -> Result<Option<Facet>, AllocError>
    ensures { IfOk result (OpenIn part (as_cells cells.now hull.now)) }
{
    let sides = in_order(all_sides(alloc, part, cells, hull)?);
    Ok(first_open(&sides))
}

// The key of the least point of the cell at a place, and else another.
fn key_at(cells: &QuadList, place: usize, other: u64) -> u64 {
    if place < cells.len() {
        cells.at(place).corners().0.key()
    } else {
        other
    }
}

/// The least facet that is not one of exactly two cells, if there is one. The triples come first, those of some cells
/// at a time.
pub(crate) fn open_facet(
    alloc: Global,
    cells: &QuadList,
    hull: &[Tri],
) -> Result<Option<Facet>, AllocError>
    ensures { IfOk result (OpenIs (as_cells cells.now hull.now)) }
{
    let mut low = 0;
    for part in 0..cells.len() / TOGETHER {
        let high = key_at(cells, (part + 1).saturating_mul(TOGETHER), low);
        if let Some(facet) = open_in(alloc, Part::Between(low, high), cells, hull)? {
            return Ok(Some(facet));
        }
        low = low.max(high);
    }
    if let Some(facet) = open_in(alloc, Part::From(low), cells, hull)? {
        return Ok(Some(facet));
    }
    open_in(alloc, Part::Pairs, cells, hull)
}

// What stands behind the next side, where this has the facet and the one after it has not.
fn behind_pair<'a>(facet: &Facet, others: &'a [Side]) -> Option<&'a [Side]>
    ensures { MatchOption result (IsUnpaired facet.now others.now) (λ after. IsPair facet.now others.now after.now) }
{
    let (second, after) = others.split_first()?;
    if !second.facet.is_same(facet) {
        return None;
    }
    if let Some((third, _)) = after.split_first() {
        if third.facet.is_same(facet) {
            return None;
        }
    }
    Some(after)
}

// The least facet of a part that is not one of exactly two cells, by their sides in order.
fn first_open(sides: &[Side]) -> Option<Facet>
    requires { IsStrictlySortedBy side_cmp sides.now }
    ensures { (part : PartOf) (l : List Cell) → AreSidesIn part l sides.now → OpenIn part l result }
{
    let mut rest = sides;
    while let Some((first, others)) = rest.split_first() {
        match behind_pair(&first.facet, others) {
            Some(after) => rest = after,
            None => return Some(first.facet),
        }
    }
    None
}
