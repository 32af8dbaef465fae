//! Lines that are dealt to workers, and made by them.

ghost use Rattle.std.specs.Prelude.{◌≡◌, ◌+◌, ◌<◌, ◌≤◌, IfSome, length};
ghost use Rattle.edit_lists.specs.Dealing.{AreOpening};

use crate::meshes::mesh_of_four;
use crate::reading::{list_at, number_at};
use crate::tables::{put_replies, put_shown};
use crate::telling::Answer;
use bucket_grid::Grid;
use cell_store::Mesh;
use edit_files::{File, Version};
use edit_gates::OpenGate;
use edit_history::{Edit, find_four};
use edit_workers::{Segment, deal, run_edits};
use grid_claims::Snapshot;
use one_mesh::{complex, history};
use point_order::Point;
use std::alloc::{AllocError, Global};
use std::thread::Threads;

// The most points, and the most edits, of a scene.
const MOST: usize = 1024;

// The places of the opening four of a file's points, if four of them are independent.
fn four_of(file: &File) -> Option<[usize; 4]>
    ensures { IfSome result (λ four. AreOpening file.now.points.items four) }
{
    match find_four(&file.points) {
        Ok(four) => Some(four),
        Err(_) => None,
    }
}

// The file of points and edits, if there are not too many.
fn file_of(alloc: Global, points: Vec<Point>, edits: Vec<Edit>) -> Option<File>
    ensures { IfSome result (λ file. length file.points.items + length file.edits.items ≤ 2048) }
{
    if points.len() > MOST || edits.len() > MOST {
        return None;
    }
    let radii = Vec::new(alloc);
    Some(File {
        version: Version::Two,
        points,
        edits,
        radii,
        queries: Vec::new(alloc),
    })
}

// Puts down the tags of each list of a segment.
fn put_segment(told: &mut Answer, segment: &Segment) {
    told.put(" segment");
    for list in &segment.each {
        told.put(" list");
        for (tag, _) in &list.pairs {
            write!(told, " {tag}");
        }
        told.put(';');
    }
}

/// Plays a scene of dealt lines: the tags of each list of each segment.
///
/// # Errors
/// Want of memory.
pub(crate) fn play(
    alloc: Global,
    told: &mut Answer,
    workers: u32,
    lists: &str,
) -> Result<(), AllocError> {
    let points = told.all(list_at(lists, 0));
    let edits = told.all(list_at(lists, 1));
    if workers == 0 || workers > 64 {
        told.put("no such workers");
        return Ok(());
    }
    let Some(file) = file_of(alloc, points, edits) else {
        told.put("too many lines");
        return Ok(());
    };
    let Some(four) = four_of(&file) else {
        told.put("no four independent points");
        return Ok(());
    };
    let lists = deal(alloc, &file, four, workers)?;
    for segment in &lists.segments {
        put_segment(told, segment);
    }
    Ok(())
}

// Has the lines of a file behind its opening four made by so many workers.
fn made<R: Threads + Sync>(
    rt: &R,
    alloc: Global,
    mesh: Mesh,
    file: &File,
    four: [usize; 4],
    workers: u32,
) -> Result<Mesh, AllocError>
    requires workers { (0 < workers) × (workers ≤ 64) }
    requires lines { length file.now.points.items + length file.now.edits.items ≤ 2048 }
    requires four { AreOpening file.now.points.items four }
    requires mesh { length mesh.history ≤ 1024 }
{
    let lists = deal(alloc, file, four, workers)?;
    run_edits(rt, alloc, mesh, &lists, &OpenGate)
}

/// Plays a scene of lines that workers make: the reply of each line, how many entries there are in the end, and the
/// cells.
///
/// # Errors
/// Want of memory.
pub(crate) fn make<R: Threads + Sync>(
    rt: &R,
    alloc: Global,
    told: &mut Answer,
    grid: Grid,
    lists: &str,
) -> Result<(), AllocError> {
    let points = told.all(list_at(lists, 0));
    let workers = number_at(list_at(lists, 1), 0);
    let edits = told.all(list_at(lists, 2));
    let Some(file) = file_of(alloc, points, edits) else {
        told.put("too many lines");
        return Ok(());
    };
    let four = four_of(&file);
    let (Some(four), Some(mesh)) = (four, mesh_of_four(alloc, told, grid, &file.points)) else {
        return Ok(());
    };
    if workers == 0 || workers > 64 || mesh.count() > 1024 {
        told.put("no such workers");
        return Ok(());
    }
    let mesh = made(rt, alloc, mesh, &file, four, workers)?;
    let history = history(alloc, &mesh)?;
    let complex = complex(alloc, &mesh)?;
    put_replies(told, &history);
    put_shown(alloc, told, &Ok(Snapshot { history, complex }));
    Ok(())
}
