//! Two workers that are to see each other.

ghost use Rattle.std.specs.Prelude.{◌≡◌, ◌+◌, ◌^◌, ◌≤◌, ◌∷◌, [], false, IfOk, length};
ghost use Rattle.edit_history.specs.Edits.{share_point};
ghost use Rattle.edit_lists.specs.Dealing.{segments_of};

use crate::gates::Meeting;
use crate::meshes::mesh_of_points;
use crate::reading::list_at;
use crate::telling::Answer;
use bucket_grid::Grid;
use cell_store::Mesh;
use edit_gates::Gate;
use edit_history::Edit;
use edit_workers::{List, Lists, Segment, run_edits, share_a_point};
use std::alloc::{AllocError, Global};
use std::thread::Threads;

// A list of one pair.
fn list_of(alloc: Global, pair: (u32, Edit)) -> Result<List, AllocError>
    ensures { IfOk result (λ list. list.pairs.items ≡ pair ∷ []) }
{
    let mut pairs = Vec::new(alloc);
    pairs.push(pair)?;
    Ok(List { pairs })
}

// One segment of two lists of one pair each.
fn two_lists(alloc: Global, one: (u32, Edit), two: (u32, Edit)) -> Result<Lists, AllocError>
    ensures { IfOk result (λ lists. segments_of lists ≡ ((one ∷ []) ∷ (two ∷ []) ∷ []) ∷ []) }
{
    let mut each = Vec::new(alloc);
    each.push(list_of(alloc, one)?)?;
    each.push(list_of(alloc, two)?)?;
    let mut segments = Vec::new(alloc);
    segments.push(Segment { each })?;
    Ok(Lists { segments })
}

// Makes two edits that share no point, each by a worker of its own.
fn run_two<G: Gate + Sync, R: Threads + Sync>(
    rt: &R,
    alloc: Global,
    mesh: Mesh,
    one: (u32, Edit),
    two: (u32, Edit),
    gate: &G,
) -> Result<Mesh, AllocError>
    requires room { length mesh.history + 2 ≤ 2 ^ 32 }
    requires apart { share_point one.1 two.1 ≡ false }
{
    let lists = two_lists(alloc, one, two)?;
    run_edits(rt, alloc, mesh, &lists, gate)
}

/// Plays a scene of two workers. It is told who saw the other, and how many entries there are in the end.
///
/// # Errors
/// Want of memory.
pub(crate) fn play<R: Threads + Sync>(
    rt: &R,
    alloc: Global,
    told: &mut Answer,
    grid: Grid,
    lists: &str,
) -> Result<(), AllocError> {
    let points = told.all(list_at(lists, 0));
    let pairs: Vec<(u32, Edit)> = told.all(list_at(lists, 1));
    let [one, two] = *pairs.as_slice() else {
        told.put("not two edits");
        return Ok(());
    };
    if share_a_point(&one.1, &two.1) {
        told.put("edits that share a point");
        return Ok(());
    }
    let Some(mesh) = mesh_of_points(alloc, told, grid, &points) else {
        return Ok(());
    };
    let meeting = Meeting::new();
    let mesh = run_two(rt, alloc, mesh, one, two, &meeting)?;
    let (zero, one) = meeting.who_saw();
    write!(told, " {zero} {one} {} entries", mesh.count());
    Ok(())
}
