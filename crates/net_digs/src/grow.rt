//! The list of cells grows point by point.

ghost use Rattle.std.specs.Prelude.{◌≡◌, ◌↔◌, ◌∷◌, [], ◌++◌, true, length, map, IfOk, List, MatchBool, OnOk, ℕ};
ghost use Rattle.point_order.specs.Complex.{complex};
ghost use Rattle.point_order.specs.Sets.{IsAscending, IsIn};
ghost use Rattle.point_order.specs.Solid.{is_solid};
ghost use Rattle.list_laws.specs.Lists.{AreDistinct};
ghost use Rattle.point_order.specs.declared.cell.Cell.{Cell};
ghost use Rattle.point_order.specs.declared.cell.Cell.TheVariants.{Full};
ghost use Rattle.hole_laws.specs.Edits.{GoesFrom};
ghost use Rattle.hole_laws.specs.Lists.{cell_over};
ghost use Rattle.hole_laws.specs.Digs.{AreFacetsApart};
ghost use Rattle.cell_slots.specs.Nets.{AreMoved, AreWithAll, cells_of_slots};
ghost use Rattle.cell_slots.specs.Clouds.{AreCellsOf};
ghost use Rattle.cell_slots.specs.Marked.{ArePicked};
ghost use Rattle.cell_slots.specs.Parts.{ArePut, AreWithinNew, Grow, HaveRoomFor};
ghost use Rattle.net_digs.specs.declared.choice.Choice.TheVariants.{All};
ghost use Rattle.cell_slots.specs.declared.reach.Reach.TheVariants.{Part, Whole};

use crate::choice::{Choice, done_after};
use crate::desk::Desk;
use crate::dig::{Hole, Side, hole_of};
use crate::marking::Marks;
use crate::opening::{cells_of_four, four_of};
use crate::ranked::ranked;
use crate::turns::{Turn, turns_of};
use cell_net::{Net, Tree};
use cell_slots::{Corners, Edges, HalfFacet, Reach, Spot, edges_of, number_under};
use point_order::{Cell, Point, cells_in_order};
use std::alloc::{AllocError, Global};

/// Notes what lies across the facets of the cell in a slot, which is that of a side of the rim and p.
pub fn link(net: &mut Net, edges: &mut Edges, side: &Side, p: u64, place: usize)
    ensures { net.new ≡ net.old }
{
    let number = number_under(side.facet(), p);
    net.link_two(HalfFacet { place, number }, side.behind());
    for edge in &edges_of(side.facet(), p) {
        let half_facet = edges.meet(edge, place);
        net.link_two(edge.half_facet(place), half_facet);
    }
}

/// Takes cells out of the net, and notes that the slots of all but so many, and those that are not near, are free.
pub fn take_all(net: &mut Net, gone: &[Spot], kept: usize)
    requires { ArePicked (cells_of_slots net.old) gone.now }
    ensures cells { AreMoved (cells_of_slots net.old) (cells_of_slots net.new ++ gone.now) }
    ensures size { length net.new ≡ length net.old }
{
    let mut number: usize = 0;
    for spot in gone {
        net.clear(spot.cell(), spot.place(), number);
        let is_noted = number >= kept || !net.is_near(spot.place());
        net.note_free(spot.place(), is_noted);
        number = number.wrapping_add(1);
    }
}

/// The slot for a new cell: that of a cell that goes, as long as there are some, where it is near, and else another.
pub fn slot_for(net: &mut Net, gone: &[Spot], number: usize) -> usize
    ensures { net.new ≡ net.old }
{
    if number < gone.len() && net.is_near(gone[number].place()) {
        gone[number].place()
    } else {
        net.free_hint()
    }
}

// Puts the cells of p and the facets of the rim into the net, first in the place of those that went.
fn put_all(
    net: &mut Net,
    edges: &mut Edges,
    gone: &[Spot],
    rim: &[Side],
    p: Point,
) -> Result<(), AllocError>
    requires { AreFacetsApart rim.now p }
    ensures { OnOk result (AreWithAll (cells_of_slots net.old) (map (λ f. cell_over f p) rim.now)
        (cells_of_slots net.new)) }
{
    let mut number: usize = 0;
    for side in rim {
        let hint = slot_for(net, gone, number);
        let place = net.put(&Corners::over(side.facet(), p), hint)?;
        link(net, edges, side, p.key(), place);
        number = number.wrapping_add(1);
    }
    Ok(())
}

// The net gets a new point. In a part a foreign cell may be in the way: then the answer is no, and nothing changed.
fn insert(
    net: &mut Net,
    edges: &mut Edges,
    marks: &mut Marks,
    hole: &mut Hole,
    p: Point,
    reach: Reach,
) -> Result<bool, AllocError>
    requires { AreWithinNew reach p (cells_of_slots net.old) }
    ensures { IfOk result (λ is_put. MatchBool is_put (Grow (p ∷ []) (cells_of_slots net.old) (cells_of_slots net.new))
        ((reach ≡ Part) × (net.new ≡ net.old))) }
{
    let could = hole_of(net, marks, hole, p, net.last(), reach)?;
    if !could {
        return Ok(false);
    }
    edges.make_room(hole.rim.len())?;
    take_all(net, &hole.gone, hole.rim.len());
    put_all(net, edges, &hole.gone, &hole.rim, p)?;
    Ok(true)
}

// Puts a point into the net, or else leaves it behind those that are left.
fn put_or_leave(
    net: &mut Net,
    edges: &mut Edges,
    marks: &mut Marks,
    hole: &mut Hole,
    turn: &Turn,
    left: &mut Vec<Turn>,
    reach: Reach,
) -> Result<(), AllocError>
    requires { AreWithinNew reach turn.now (cells_of_slots net.old) }
    ensures put { OnOk result ((more : List ℕ) × (left.new.items ≡ left.old.items ++ more)
        × ArePut (turn.now ∷ []) more (cells_of_slots net.old) (cells_of_slots net.new)) }
    ensures all { OnOk result (reach ≡ Whole → left.new.items ≡ left.old.items) }
{
    let is_put = insert(net, edges, marks, hole, turn.point(), reach)?;
    if is_put {
        return Ok(());
    }
    left.push(turn.tried())?;
    Ok(())
}

// The same, where the point is chosen. Else it is left.
fn put_chosen(
    net: &mut Net,
    edges: &mut Edges,
    marks: &mut Marks,
    hole: &mut Hole,
    turn: &Turn,
    left: &mut Vec<Turn>,
    choice: Choice,
    done: &mut usize,
    reach: Reach,
) -> Result<(), AllocError>
    requires { AreWithinNew reach turn.now (cells_of_slots net.old) }
    ensures put { OnOk result ((more : List ℕ) × (left.new.items ≡ left.old.items ++ more)
        × ArePut (turn.now ∷ []) more (cells_of_slots net.old) (cells_of_slots net.new)) }
    ensures all { OnOk result (reach ≡ Whole → choice ≡ All → left.new.items ≡ left.old.items) }
{
    if choice.passes_over(turn, *done) {
        left.push(turn.copied())?;
        return Ok(());
    }
    net.visit(turn.block());
    put_or_leave(net, edges, marks, hole, turn, left, reach)?;
    *done = done_after(*done, hole.gone.len(), hole.rim.len());
    Ok(())
}

/// Puts the points that are chosen into the net, and answers those that are left: in a part those where a foreign cell
/// is in the way, too.
pub fn put_points(
    alloc: Global,
    net: &mut Net,
    desk: &mut Desk,
    turns: &[Turn],
    choice: Choice,
    reach: Reach,
) -> Result<Vec<Turn>, AllocError>
    requires { HaveRoomFor reach turns.now (cells_of_slots net.old) }
    ensures put { IfOk result (λ left. ArePut turns.now left.items (cells_of_slots net.old) (cells_of_slots net.new)) }
    ensures all { IfOk result (λ left. reach ≡ Whole → choice ≡ All → left.items ≡ []) }
{
    let mut left = Vec::new(alloc);
    let mut done: usize = 0;
    for turn in turns {
        put_chosen(
            net,
            &mut desk.edges,
            &mut desk.marks,
            &mut desk.hole,
            turn,
            &mut left,
            choice,
            &mut done,
            reach,
        )?;
    }
    Ok(left)
}

/// The net of the complex of the points, which are ascending and solid.
pub fn net_of_points(alloc: Global, points: &[Point]) -> Result<Net, AllocError>
    requires ascending { IsAscending points.now }
    requires solid { is_solid points.now ≡ true }
    ensures { IfOk result (λ net. AreCellsOf points.now (cells_of_slots net)) }
{
    let (a, b, c, d) = four_of(points);
    let cells = cells_of_four(alloc, a, b, c, d)?;
    let mut net = Net::of_cells(alloc, &cells)?;
    let turns = turns_of(alloc, points, a, b, c, d, &Tree::none(alloc))?;
    put_points(
        alloc,
        &mut net,
        &mut Desk::new(alloc),
        &turns,
        Choice::All,
        Reach::Whole,
    )?;
    Ok(net)
}

/// The cells of the complex of the points, which are ascending and solid: Full cells first, each kind in order.
///
/// # Errors
/// Want of memory.
pub fn complex_of_points(alloc: Global, points: &[Point]) -> Result<Vec<Cell>, AllocError>
    requires ascending { IsAscending points.now }
    requires solid { is_solid points.now ≡ true }
    ensures { IfOk result (λ cells. cells.items ≡ complex points.now) }
{
    let net = net_of_points(alloc, points)?;
    let cells = ranked(alloc, net)?;
    Ok(cells_in_order(cells))
}

/// The cells.
pub fn cells_of(alloc: Global, spots: &[Spot]) -> Result<Vec<Cell>, AllocError>
    ensures { IfOk result (λ cells. cells.items ≡ spots.now) }
{
    let mut cells = Vec::with_capacity(alloc, spots.len())?;
    for spot in spots {
        cells.push(spot.cell().to_cell())?;
    }
    Ok(cells)
}

/// The cells that a new point takes away from the complex of the points, which are ascending and solid: exactly those
/// that are not in the complex of the points with it, each once, in any order.
///
/// # Errors
/// Want of memory.
pub fn cells_taken(alloc: Global, points: &[Point], p: Point) -> Result<Vec<Cell>, AllocError>
    requires ascending { IsAscending points.now }
    requires solid { is_solid points.now ≡ true }
    requires absent { ¬ (IsIn p points.now) }
    ensures taken { IfOk result (λ cells. (q : Cell) → IsIn q cells.items ↔ GoesFrom points.now p q) }
    ensures once { IfOk result (λ cells. AreDistinct cells.items) }
{
    let _ = p.key();
    let net = net_of_points(alloc, points)?;
    let mut marks = Marks::new(alloc);
    let mut hole = Hole::new(alloc);
    let could = hole_of(&net, &mut marks, &mut hole, p, net.last(), Reach::Whole)?;
    if !could {
        unreachable!();
    }
    cells_of(alloc, &hole.gone)
}
