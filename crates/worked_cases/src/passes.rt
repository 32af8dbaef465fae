//! One thread's passes: a split, orders, a join and the end.

ghost use Rattle.std.specs.Prelude.{◌≡◌, ◌-◌, ◌<◌, ◌≤◌, IfOk, IfSome};
ghost use Rattle.grid_claims.specs.Tries.{IsSplit, opening_pass};
ghost use Rattle.worked_cases.specs.Two.{AreTwo};

use crate::meshes::mesh_of_points;
use crate::orders::follow;
use crate::reading::{list_at, numbers_at};
use crate::tables::{put_entries, put_pass};
use crate::telling::Answer;
use bucket_grid::Grid;
use cell_store::Mesh;
use grid_claims::{MeshTable, Pass};
use point_order::Point;
use std::alloc::{AllocError, Global};

// The most edits that a table's first pass may make.
const MOST: u32 = 1024;

// A table for a mesh of the points.
fn open_once(
    alloc: Global,
    told: &mut Answer,
    grid: Grid,
    points: &[Point],
    parts: u32,
    allowance: u32,
) -> Result<Option<(MeshTable, Pass)>, AllocError>
    requires parts { (0 < parts) × (parts ≤ 64) }
    requires allowance { allowance ≤ 1024 }
    ensures opened { IfOk result (λ r. IfSome r (λ o. (o.0.parts ≡ parts) × (o.1 ≡ opening_pass o.0 allowance))) }
{
    let Some(mesh) = mesh_of_points(alloc, told, grid, points) else {
        return Ok(None);
    };
    let opened = MeshTable::open(alloc, mesh, parts, u64::from(allowance))?;
    Ok(Some(opened))
}

// The same, and once more with another mesh where memory was wanting.
fn opened(
    alloc: Global,
    told: &mut Answer,
    grid: Grid,
    points: &[Point],
    parts: u32,
    allowance: u32,
) -> Result<Option<(MeshTable, Pass)>, AllocError>
    requires parts { (0 < parts) × (parts ≤ 64) }
    requires allowance { allowance ≤ 1024 }
    ensures opened { IfOk result (λ r. IfSome r (λ o. (o.0.parts ≡ parts) × (o.1 ≡ opening_pass o.0 allowance))) }
{
    match open_once(alloc, told, grid, points, parts, allowance) {
        Err(_) => open_once(alloc, told, grid, points, parts, allowance),
        answer => answer,
    }
}

// Splits a pass, and once more where memory was wanting.
pub(crate) fn parted(
    alloc: Global,
    table: &MeshTable,
    pass: &mut Pass,
    parts: u32,
    allowance: u64,
) -> Result<Pass, AllocError>
    requires table { pass.old.table ≡ table.now }
    requires parts { (0 < parts) × (parts < pass.old.parts) }
    requires left { allowance ≤ pass.old.left }
    ensures { IfOk result (λ other. IsSplit parts allowance pass.old pass.new other) }
{
    match table.split(alloc, pass, parts, allowance) {
        Err(_) => table.split(alloc, pass, parts, allowance),
        answer => answer,
    }
}

// A table, and its first pass, of which another one is split off. The first pass is told before the split.
pub(crate) fn opened_two(
    alloc: Global,
    told: &mut Answer,
    grid: Grid,
    points: &[Point],
    of_all: (u32, u32),
    of_other: (u32, u32),
) -> Result<Option<(MeshTable, Pass, Pass)>, AllocError>
    requires parts { (0 < of_other.0) × (of_other.0 < of_all.0) × (of_all.0 ≤ 64) }
    requires allowance { (of_other.1 ≤ of_all.1) × (of_all.1 ≤ 1024) }
    ensures { IfOk result (λ r. IfSome r (λ o. AreTwo o.0 o.1 o.2 (of_all.0 - of_other.0))) }
{
    let ((parts, allowance), (others, given)) = (of_all, of_other);
    let Some((table, mut pass)) = opened(alloc, told, grid, points, parts, allowance)? else {
        return Ok(None);
    };
    put_pass(told, &pass);
    let other = parted(alloc, &table, &mut pass, others, u64::from(given))?;
    Ok(Some((table, pass, other)))
}

// The mesh of a table whose two passes are joined.
pub(crate) fn ended(table: MeshTable, mut pass: Pass, other: Pass) -> Mesh
    requires { AreTwo table pass other pass.parts }
{
    table.join(&mut pass, other);
    table.close(pass)
}

// Puts down what was made of a mesh behind its first entries.
pub(crate) fn put_mesh(
    alloc: Global,
    told: &mut Answer,
    mesh: &Mesh,
    from: usize,
) -> Result<(), AllocError> {
    let history = one_mesh::history(alloc, mesh)?;
    put_entries(told, &history, from);
    Ok(())
}

// Has the other pass do orders, and then both as one, to the end of the table.
fn do_both(
    alloc: Global,
    told: &mut Answer,
    table: MeshTable,
    mut pass: Pass,
    mut other: Pass,
    orders: &str,
    later: &str,
) -> Mesh
    requires { AreTwo table pass other pass.parts }
{
    put_pass(told, &pass);
    put_pass(told, &other);
    follow(alloc, told, &table, &mut other, orders);
    put_pass(told, &other);
    table.join(&mut pass, other);
    put_pass(told, &pass);
    follow(alloc, told, &table, &mut pass, later);
    table.close(pass)
}

/// Plays a scene of passes.
///
/// # Errors
/// Want of memory.
pub(crate) fn play(
    alloc: Global,
    told: &mut Answer,
    grid: Grid,
    lists: &str,
) -> Result<(), AllocError> {
    let points = told.all(list_at(lists, 0));
    let (parts, allowance) = numbers_at(lists, 1);
    let (others, given) = numbers_at(lists, 2);
    if parts > 64 || allowance > MOST || others == 0 || others >= parts || given > allowance {
        told.put("no such passes");
        return Ok(());
    }
    let two = opened_two(
        alloc,
        told,
        grid,
        &points,
        (parts, allowance),
        (others, given),
    )?;
    let Some((table, pass, other)) = two else {
        return Ok(());
    };
    let (orders, later) = (list_at(lists, 3), list_at(lists, 4));
    let mesh = do_both(alloc, told, table, pass, other, orders, later);
    put_mesh(alloc, told, &mesh, points.len())
}
