//! The mesh of a file's lines: its points at once, and its edits by workers.

ghost use Rattle.std.specs.Prelude.{◌≡◌, ◌<◌, ◌+◌, ◌^◌, ℕ, Some, length, option_map, IfOk};
ghost use Rattle.edit_history.specs.OneThread.{places};
ghost use Rattle.edit_history.specs.Opening.{opening_four};
ghost use Rattle.edit_history.specs.Histories.{IsLegal};
ghost use Rattle.edit_files.specs.Held.{content};
ghost use Rattle.command_pages.specs.Run.{IsKept};
ghost use Rattle.delaunay_cli.specs.MeshLists.{AreLists};

use crate::mesh_lists::{MeshLists, lists_of_linked, lists_of_mesh};
use cell_store::Mesh;
use command_words::Making;
use edit_files::File;
use edit_gates::Gate;
use edit_history::laws::one_thread_is_legal;
use edit_workers::{deal_edits, run_edits, run_in_order};
use linked_mesh::LinkedMesh;
use one_mesh::begin_cloud_by_threads;
use std::alloc::{AllocError, Global};
use std::thread::Threads;

/// The mesh of a file's lines as one worker makes it: its points at once, and then its edit lines in their order. No
/// other thread edits it, so it has no buckets, and its history keeps the file for every number of workers. `four` are
/// the places of the opening four.
///
/// # Errors
/// Want of memory.
pub fn mesh_by_one<G: Gate>(
    alloc: Global,
    file: &File,
    four: [usize; 4],
    gate: &G,
) -> Result<LinkedMesh, AllocError>
    requires found { option_map places (opening_four file.now.points.items) ≡ Some four }
    requires small { length file.now.points.items + length file.now.edits.items + 4 < 2 ^ 32 }
    ensures kept { IfOk result (λ mesh. (workers : ℕ) → 0 < workers → IsKept (content file.now) workers mesh) }
    ensures legal { IfOk result (λ mesh. IsLegal mesh) }
{
    one_thread_is_legal();
    let mesh = linked_mesh::begin_cloud(alloc, &file.points, four)?;
    let first = file.points.len() as u32;
    let mesh = run_in_order(alloc, mesh, first, &file.edits, gate)?;
    Ok(mesh)
}

// The mesh of a file's lines over buckets: its points are put in by as many threads as there are workers, and the edits
// are dealt to these.
fn mesh_by_workers<R: Threads + Sync, G: Gate + Sync>(
    rt: &R,
    alloc: Global,
    file: &File,
    four: [usize; 4],
    making: Making,
    gate: &G,
) -> Result<Mesh, AllocError>
    requires found { option_map places (opening_four file.now.points.items) ≡ Some four }
    requires small { length file.now.points.items + length file.now.edits.items + 4 < 2 ^ 32 }
    ensures legal { IfOk result (λ mesh. IsLegal mesh.history) }
    ensures kept { IfOk result (λ mesh. IsKept (content file.now) making.workers mesh.history) }
    ensures grid { IfOk result (λ mesh. mesh.grid ≡ making.grid) }
{
    let threads = making.workers as usize;
    let mesh = begin_cloud_by_threads(rt, alloc, making.grid, &file.points, four, threads)?;
    let lists = deal_edits(alloc, file, making.workers)?;
    let mesh = run_edits(rt, alloc, mesh, &lists, gate)?;
    let _ = mesh.hold();
    Ok(mesh)
}

/// What the mesh of a file's lines leaves: its points are put in at once as by one thread, and then its edit lines are
/// made by the workers, to whom they are dealt over the buckets of the grid. One worker makes them in their order, on a
/// mesh without buckets. `four` are the places of the opening four.
///
/// # Errors
/// Want of memory.
pub fn lists_of_lines<R: Threads + Sync, G: Gate + Sync>(
    rt: &R,
    alloc: Global,
    file: &File,
    four: [usize; 4],
    making: Making,
    gate: &G,
) -> Result<MeshLists, AllocError>
    requires found { option_map places (opening_four file.now.points.items) ≡ Some four }
    requires small { length file.now.points.items + length file.now.edits.items + 4 < 2 ^ 32 }
    ensures kept { IfOk result (λ lists. IsKept (content file.now) making.workers lists.history.items) }
    ensures lists { IfOk result AreLists }
{
    if making.workers == 1 {
        let mesh = mesh_by_one(alloc, file, four, gate)?;
        let lists = lists_of_linked(alloc, mesh)?;
        return Ok(lists);
    }
    let mesh = mesh_by_workers(rt, alloc, file, four, making, gate)?;
    let lists = lists_of_mesh(alloc, mesh)?;
    Ok(lists)
}
