//! The mesh of a cloud of points, made at once.

ghost use Rattle.std.specs.Prelude.{◌≡◌, ◌≤◌, ◌^◌, [], true, Some, length, option_map, IfOk};
ghost use Rattle.point_order.specs.Complex.{complex};
ghost use Rattle.point_order.specs.Sets.{ascending};
ghost use Rattle.point_order.specs.Solid.{is_solid};
ghost use Rattle.edit_history.specs.OneThread.{one_thread, places};
ghost use Rattle.edit_history.specs.Opening.{opening_four};

use bucket_grid::Grid;
use cell_store::Mesh;
use cloud_cells::complex_by_threads;
use edit_history::laws::{one_thread_is_legal, solidity_is_of_the_set};
use net_digs::complex_of_points;
use point_history::{history_of_points, set_of};
use point_order::{Cell, Point};
use std::alloc::{AllocError, Global};
use std::thread::Threads;

// The mesh of a cloud, of which the set, ascending, and the cells are known.
fn mesh_of_set(
    alloc: Global,
    grid: Grid,
    points: &[Point],
    four: [usize; 4],
    set: &[Point],
    cells: &[Cell],
) -> Result<Mesh, AllocError>
    requires found { option_map places (opening_four points.now) ≡ Some four }
    requires small { length points.now ≤ 2 ^ 32 }
    requires set { set.now ≡ ascending points.now }
    requires solid { is_solid set.now ≡ true }
    requires cells { cells.now ≡ complex set.now }
    ensures { IfOk result (λ mesh. mesh ≡ record { grid = grid; history = one_thread points.now [] }) }
{
    one_thread_is_legal();
    let entries = history_of_points(alloc, points, four)?;
    let mesh = Mesh::of_history(alloc, grid, &entries, set, cells)?;
    Ok(mesh)
}

/// The mesh of a cloud, made at once: what `begin` with its opening four makes, and then `apply` with each other point,
/// in the order of the list. So its history has the opening four first, in their order, and then the others, each an
/// add by 0 with the place of its point in the list for a tag: inserted, or a duplicate where its point is there.
///
/// `four` is to be what `find_four` gives, and there are to be at most 2^32 points. For n points it takes about
/// n log n steps where the complex has about n cells.
///
/// # Errors
/// Want of memory, or of a number of 32 bits for a place in a bucket.
pub fn begin_cloud(
    alloc: Global,
    grid: Grid,
    points: &[Point],
    four: [usize; 4],
) -> Result<Mesh, AllocError>
    requires found { option_map places (opening_four points.now) ≡ Some four }
    requires small { length points.now ≤ 2 ^ 32 }
    ensures { IfOk result (λ mesh. mesh ≡ record { grid = grid; history = one_thread points.now [] }) }
{
    solidity_is_of_the_set();
    let set = set_of(alloc, points)?;
    let cells = complex_of_points(alloc, &set)?;
    let mesh = mesh_of_set(alloc, grid, points, four, &set, &cells)?;
    Ok(mesh)
}

/// The same mesh, whose cells so many threads make, where there are points enough that it pays.
///
/// # Errors
/// Want of memory, or of a number of 32 bits for a place in a bucket.
pub fn begin_cloud_by_threads<R: Threads + Sync>(
    rt: &R,
    alloc: Global,
    grid: Grid,
    points: &[Point],
    four: [usize; 4],
    threads: usize,
) -> Result<Mesh, AllocError>
    requires found { option_map places (opening_four points.now) ≡ Some four }
    requires small { length points.now ≤ 2 ^ 32 }
    ensures { IfOk result (λ mesh. mesh ≡ record { grid = grid; history = one_thread points.now [] }) }
{
    solidity_is_of_the_set();
    let set = set_of(alloc, points)?;
    let cells = complex_by_threads(rt, alloc, &set, threads)?;
    let mesh = mesh_of_set(alloc, grid, points, four, &set, &cells)?;
    Ok(mesh)
}
