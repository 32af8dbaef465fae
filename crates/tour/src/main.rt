//! A tour of the library: what a caller writes, from four points to a snapshot beside other threads.
//!
//! It runs as it stands and prints what `stdout` in its crate says, so it cannot fall behind the library.
#![tactic(auto)]

ghost use Rattle.std.specs.Prelude.{◌≡◌, ◌<◌, ◌^◌, IfOk, IsTrue};
ghost use Rattle.hanskup.specs.Condition.{AreFaces};
ghost use Rattle.hanskup.specs.Sets.{IsAscending};

mod threads;

use anyhow::{Result, bail};
use hanskup::{
    Cell, Edit, Faces, LinkedMesh, Point, Shape, alpha, apply, begin, complex, count, faces,
    locate, nearest, opening_points, points, shape_text,
};
use std::alloc::Global;
use std::thread::Threads;

// Four points that do not lie in one plane.
pub(crate) fn four_corners() -> Result<[Point; 4]> {
    Ok([
        Point::new(0, 0, 0)?,
        Point::new(20, 0, 0)?,
        Point::new(0, 20, 0)?,
        Point::new(0, 0, 20)?,
    ])
}

// A mesh begins with four points that do not lie in one plane, each with a tag: here its place in the list.
fn first_mesh(alloc: Global) -> Result<LinkedMesh> {
    let corners = four_corners()?;
    let four = opening_points(&corners)?;
    Ok(begin(alloc, four)?)
}

// Adds or takes a point. The reply says what came of it.
fn edit(rt: &impl Print, alloc: Global, mesh: &mut LinkedMesh, tag: u32, edit: Edit) -> Result<()> {
    if count(mesh) >= 1 << 32 {
        bail!("the history is full");
    }
    let receipt = apply(alloc, mesh, tag, edit)?;
    println!(rt; "edit {}: {:?}", receipt.number, receipt.reply)?;
    Ok(())
}

// Whether the five points ascend.
fn are_ascending(points: &[Point]) -> bool
    ensures { IsTrue result → IsAscending points.now }
{
    match *points {
        [a, b, c, d, e] => a < b && b < c && c < d && d < e,
        _ => false,
    }
}

// The triangles of an alpha complex, each with its kind, and how long its block in a report is.
fn show_triangles(rt: &impl Print, alloc: Global, radius: u64, shape: &Shape) -> Result<()> {
    println!(rt; "at {radius}: {} tetrahedra", shape.cell_count())?;
    for index in 0..shape.triple_slots() {
        if let Some((triple, kind)) = shape.triple(index) {
            println!(rt; "at {radius}: {triple} {kind:?}")?;
        }
    }
    if are_ascending(shape.points()) {
        let block = shape_text(alloc, radius, shape)?.len();
        println!(rt; "at {radius}: a block of {block} bytes")?;
    }
    Ok(())
}

// The alpha complex of the faces at a whole squared radius, which is below 2^30.
fn show_shape(
    rt: &(impl Print + Threads + Sync),
    alloc: Global,
    faces: &Faces,
    radius: u64,
) -> Result<()>
    requires faces { AreFaces faces.now }
    requires radius { radius < 2 ^ 30 }
{
    let shape = alpha(rt, alloc, faces, 16 * radius)?;
    show_triangles(rt, alloc, radius, &shape)
}

// Cells in order, tetrahedra first, and then the triangles of the hull.
fn show_cells(rt: &impl Print, cells: &[Cell]) -> Result<()> {
    for cell in cells {
        println!(rt; "cell {cell}")?;
    }
    Ok(())
}

// The complex of the mesh, and two of its alpha complexes, both from the same faces.
fn show_complex(
    rt: &(impl Print + Threads + Sync),
    alloc: Global,
    mesh: &LinkedMesh,
) -> Result<()> {
    let _ = points(alloc, mesh)?;
    let cells = complex(alloc, mesh)?;
    show_cells(rt, &cells)?;
    let faces = faces(rt, alloc, &cells)?;
    show_shape(rt, alloc, &faces, 270)?;
    show_shape(rt, alloc, &faces, 300)
}

// Where a place lies, at a point or in conflict with a cell, and which point is nearest to it.
fn show_place(rt: &impl Print, mesh: &LinkedMesh, p: Point) -> Result<()> {
    let Some(cell) = locate(mesh, p) else {
        bail!("{p} is there already");
    };
    let near = nearest(mesh, p);
    println!(rt; "{p} is in conflict with {cell}")?;
    println!(rt; "{near} is the nearest point to {p}")?;
    Ok(())
}

// Edits a mesh, and looks at it in between.
fn edit_and_show(
    rt: &(impl Print + Threads + Sync),
    alloc: Global,
    mesh: &mut LinkedMesh,
) -> Result<()> {
    let corner = Point::new(20, 20, 20)?;
    edit(rt, alloc, mesh, 4, Edit::Add(corner))?;
    edit(rt, alloc, mesh, 5, Edit::Add(corner))?;
    show_complex(rt, alloc, mesh)?;
    show_place(rt, mesh, Point::new(1, 30, 30)?)?;
    edit(rt, alloc, mesh, 6, Edit::Take(corner))?;
    edit(rt, alloc, mesh, 7, Edit::Take(Point::new(0, 0, 0)?))
}

fn main(rt: HostRuntime) -> Result<()> {
    let alloc = rt.alloc();
    let mut mesh = first_mesh(alloc)?;
    edit_and_show(&rt, alloc, &mut mesh)?;
    threads::edit_side_by_side(&rt, alloc, &four_corners()?)
}
