//! What an edit changes, found by trial of all quadruples and triples of points.

ghost use Rattle.std.specs.Prelude.{◌≡◌, ◌⊎◌, ◌↔◌, ℕ, List, IfOk, OnOk};
ghost use Rattle.std.specs.List.{filter};
ghost use Rattle.point_order.specs.Facets.{points_of};
ghost use Rattle.point_order.specs.Sets.{is_among};
ghost use Rattle.point_order.specs.Complex.{complex};
ghost use Rattle.edit_history.specs.declared.history.Edit.TheVariants.{Add};
ghost use Rattle.edit_history.specs.Edits.{after, reply_to};
ghost use Rattle.cell_store.specs.Shares.{Shows};
ghost use Rattle.cell_store.specs.Swaps.{is_cell_among, without_cells};
ghost use Rattle.cell_store.specs.Meshes.{AllInHand};
ghost use Rattle.claim_rule.specs.Trials.{HasBoth, IsTrialOf, cells_beside, near_cells, near_move};

use cell_store::Hold;
use complex_trial::complex_by_trial;
use edit_history::{Edit, PointSet, Reply};
use point_order::{Cell, Point};
use std::alloc::{AllocError, Global};

/// What an edit of a set changes: its reply, the cells that go and come, and the
/// cells whose points it reaches beside its own.
#[derive(Debug, Drop)]
pub struct Trial {
    pub reply: Reply,
    pub gone: Vec<Cell>,
    pub fresh: Vec<Cell>,
    pub near: Vec<Cell>,
}

// Adds the points to the set.
fn add_all(set: &mut PointSet, points: &[Point]) -> Result<(), AllocError>
    ensures { OnOk result (HasBoth set.old points.now set.new) }
{
    for p in points {
        set.after(Edit::Add(*p))?;
    }
    Ok(())
}

// The points of all buckets, which are all to be in hand.
fn all_points(alloc: Global, hold: &Hold) -> Result<PointSet, AllocError>
    requires { AllInHand hold.now }
    ensures { IfOk result (λ set. (s : List ℕ) → Shows hold.now s → set ≡ s) }
{
    let mut set = PointSet::new(alloc);
    for b in 0..hold.grid().count() {
        add_all(&mut set, hold.bucket(b).points())?;
    }
    // Nothing is read: the call promises that the points ascend, by which the set is the one that is shown.
    let _ = set.points();
    Ok(set)
}

// Whether the cell is one of the list.
fn is_one_of(cell: &Cell, cells: &[Cell]) -> bool
    ensures { result ≡ is_cell_among cell.now cells.now }
{
    cells.iter().any(|d| d.compare(cell).is_eq())
}

// The cells that are none of the others.
fn others(alloc: Global, cells: &[Cell], not_these: &[Cell]) -> Result<Vec<Cell>, AllocError>
    ensures { IfOk result (λ list. list.items ≡ without_cells not_these.now cells.now) }
{
    cells
        .iter()
        .filter(|c| !is_one_of(c, not_these))
        .copied()
        .collect(alloc)
}

// The cells that have the point.
fn cells_with(alloc: Global, cells: &[Cell], p: Point) -> Result<Vec<Cell>, AllocError>
    ensures { IfOk result (λ list. list.items ≡ filter (λ c. is_among p (points_of c)) cells.now) }
{
    cells.iter().filter(|c| c.has(p)).copied().collect(alloc)
}

// The cells beside a move from a to b, of all those of the set that the hold shows.
fn beside(
    alloc: Global,
    hold: &Hold,
    a: Point,
    b: Point,
    all: &[Cell],
) -> Result<Vec<Cell>, AllocError>
    requires { AllInHand hold.now }
    ensures { IfOk result (λ list. (s : List ℕ) → Shows hold.now s →
        list.items ≡ cells_beside a all.now (complex (after s (Add b)))) }
{
    let mut set = all_points(alloc, hold)?;
    set.after(Edit::Add(b))?;
    let with_goal = complex_by_trial(alloc, set.points())?;
    let mut list = others(alloc, all, &with_goal)?;
    let mut at_a = cells_with(alloc, &with_goal, a)?;
    list.append(&mut at_a)?;
    Ok(list)
}

// The cells near a move from a to b with this reply.
fn cells_near_move(
    alloc: Global,
    hold: &Hold,
    a: Point,
    b: Point,
    reply: Reply,
    all: &[Cell],
) -> Result<Vec<Cell>, AllocError>
    requires { AllInHand hold.now }
    ensures { IfOk result (λ list. (s : List ℕ) → Shows hold.now s →
        list.items ≡ near_move reply (cells_beside a all.now (complex (after s (Add b))))) }
{
    match reply {
        Reply::Missing | Reply::Occupied => Ok(Vec::new(alloc)),
        _ => beside(alloc, hold, a, b, all),
    }
}

// The cells whose points the edit, which has this reply, reaches beside its own.
fn near(
    alloc: Global,
    hold: &Hold,
    edit: Edit,
    reply: Reply,
    all: &[Cell],
    gone: &[Cell],
) -> Result<Vec<Cell>, AllocError>
    requires { AllInHand hold.now }
    ensures { IfOk result (λ list. (s : List ℕ) → Shows hold.now s → reply ≡ reply_to s edit →
        list.items ≡ near_cells s edit all.now gone.now) }
{
    match edit {
        Edit::Add(_) => Vec::from_slice(alloc, gone),
        Edit::Take(v) => cells_with(alloc, all, v),
        Edit::Move(a, b) => cells_near_move(alloc, hold, a, b, reply, all),
    }
}

/// What the edit changes of the set that the hold shows, all of whose buckets are to be in hand.
///
/// # Errors
/// Want of memory.
pub fn trial_of(alloc: Global, hold: &Hold, edit: Edit) -> Result<Trial, AllocError>
    requires { AllInHand hold.now }
    ensures { IfOk result (λ t. (s : List ℕ) → Shows hold.now s → IsTrialOf s edit t) }
{
    let mut set = all_points(alloc, hold)?;
    let before = complex_by_trial(alloc, set.points())?;
    let again = edit;
    let reply = set.after(again)?;
    let after = complex_by_trial(alloc, set.points())?;
    let gone = others(alloc, &before, &after)?;
    let fresh = others(alloc, &after, &before)?;
    let near = near(alloc, hold, edit, reply, &before, &gone)?;
    Ok(Trial {
        reply,
        gone,
        fresh,
        near,
    })
}
