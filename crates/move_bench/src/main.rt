//! Makes a mesh of the points of the edit file on standard input, one by one, and then its edits, and prints how many
//! points, cells and hull triangles there are, for measuring. With the word `moves` a take and the add behind it are
//! one move.
//!
//! It never prints a time: `bench/moves` of the repository takes that from outside.
#![tactic(auto)]

use cell_store::Mesh;
use edit_files::read_file;
use edit_history::Edit;
use one_mesh::{apply, begin, complex, grid_for, opening_points, points};
use point_order::{Cell, Point};
use std::alloc::{AllocError, Global};
use std::io::Read;
use std::{env, io};

// Makes an edit, where the history is not too long for it.
fn edit(alloc: Global, mesh: &mut Mesh, edit: Edit) -> Result<(), AllocError> {
    if mesh.count() < 4_294_967_296 {
        apply(alloc, mesh, 0, edit)?;
    }
    Ok(())
}

// Makes the edits, if it is asked a take and the add behind it as one move.
fn make_edits(
    alloc: Global,
    mesh: &mut Mesh,
    edits: &[Edit],
    moves: bool,
) -> Result<(), AllocError> {
    let mut left: Option<Point> = None;
    for next in edits {
        match *next {
            Edit::Take(a) if moves => left = Some(a),
            Edit::Add(b) => match left {
                Some(a) => {
                    left = None;
                    edit(alloc, mesh, Edit::Move(a, b))?;
                }
                None => edit(alloc, mesh, Edit::Add(b))?,
            },
            other => edit(alloc, mesh, other)?,
        }
    }
    Ok(())
}

fn is_full(cell: &Cell) -> bool {
    match cell {
        Cell::Full(_) => true,
        Cell::Open(_) => false,
    }
}

// The mesh of the points, one by one, if four of them are independent.
fn mesh_of(alloc: Global, points: &[Point]) -> Result<Option<Mesh>, AllocError> {
    if points.len() > 4_294_967_296 {
        return Ok(None);
    }
    let Ok(four) = opening_points(points) else {
        return Ok(None);
    };
    let mut mesh = begin(alloc, grid_for(points.len()), four)?;
    for p in points {
        edit(alloc, &mut mesh, Edit::Add(*p))?;
    }
    Ok(Some(mesh))
}

fn main(rt: HostRuntime) -> io::Result<()> {
    let alloc = rt.alloc();
    let mut words = env::args(&rt)?;
    let moves = words.nth(1).is_some();
    let mut text = Vec::new(alloc);
    rt.stdin().read_to_end(&mut text)?;
    let Ok(file) = read_file(alloc, &text) else {
        return Err(io::ErrorKind::InvalidInput.into());
    };
    let Some(mut mesh) = mesh_of(alloc, &file.points)? else {
        println!(rt; "flat")?;
        return Ok(());
    };
    make_edits(alloc, &mut mesh, &file.edits, moves)?;
    let cells = complex(alloc, &mesh)?;
    let full = cells.iter().filter(|cell| is_full(cell)).count();
    println!(rt;
        "points {} cells {} hull {}",
        points(alloc, &mesh)?.len(),
        full,
        cells.len() - full
    )?;
    Ok(())
}
