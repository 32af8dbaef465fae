//! Dealing a file's lines.

ghost use Rattle.std.specs.Prelude.{◌≡◌, ◌+◌, ◌^◌, ◌<◌, ◌≤◌, ◌++◌, map, length, slice_get, Some, IfOk};
ghost use Rattle.edit_history.specs.declared.history.Edit.TheVariants.{Add};
ghost use Rattle.edit_history.specs.OneThread.{tagged_lines};
ghost use Rattle.plain_laws.specs.Running.{dealt, dealt_lines, edit_lines};
ghost use Rattle.edit_lists.specs.Dealing.{segments_of, AreOpening};

use crate::cutting::Cutter;
use crate::lists::Lists;
use edit_files::File;
use edit_history::Edit;
use std::alloc::{AllocError, Global};

// The line of a file at a place.
fn line_at(file: &File, place: usize) -> Edit
    requires within { place < length file.now.points.items + length file.now.edits.items }
    ensures { slice_get (map Add file.now.points.items ++ file.now.edits.items) place ≡ Some result }
{
    let count = file.points.len();
    if place < count {
        Edit::Add(file.points[place])
    } else {
        file.edits[place - count]
    }
}

/// The lines of a file but for the opening four, in segments: a line begins a new segment where it shares a point with
/// an earlier line of the present one and either of the two moves. So a file that moves no point is one segment.
///
/// In its segment each line stands in the list of the worker whose number is the key of its point modulo the number of
/// workers; the point of a move is the place that it leaves. In each list the lines stand in the order of the file,
/// each with its place for a tag. For n lines it takes about n steps.
///
/// There are to be 1 to 64 workers, at most 2^32 lines, and `four` is to be what `find_four` gives.
///
/// # Errors
/// Want of memory.
pub fn deal(alloc: Global, file: &File, four: [usize; 4], workers: u32) -> Result<Lists, AllocError>
    requires workers { (0 < workers) × (workers ≤ 64) }
    requires lines { length file.now.points.items + length file.now.edits.items ≤ 2 ^ 32 }
    requires four { AreOpening file.now.points.items four }
    ensures dealt { IfOk result (λ lists.
        segments_of lists ≡ dealt workers four (tagged_lines file.now.points.items file.now.edits.items)) }
{
    let mut cutter = Cutter::new(alloc, workers)?;
    for place in 0..file.points.len() + file.edits.len() {
        if !four.contains(&place) {
            cutter.put(alloc, workers, place as u32, line_at(file, place))?;
        }
    }
    cutter.finish()
}

/// The edit lines of a file, dealt as `deal` deals lines: what is left to do on a mesh in which the points of the file
/// are there.
///
/// There are to be 1 to 64 workers, and at most 2^32 lines.
///
/// # Errors
/// Want of memory.
pub fn deal_edits(alloc: Global, file: &File, workers: u32) -> Result<Lists, AllocError>
    requires workers { (0 < workers) × (workers ≤ 64) }
    requires lines { length file.now.points.items + length file.now.edits.items ≤ 2 ^ 32 }
    ensures dealt { IfOk result (λ lists.
        segments_of lists ≡ dealt_lines workers (edit_lines file.now.points.items file.now.edits.items)) }
{
    let mut cutter = Cutter::new(alloc, workers)?;
    for place in 0..file.edits.len() {
        let tag = (file.points.len() + place) as u32;
        cutter.put(alloc, workers, tag, file.edits[place])?;
    }
    let lists = cutter.finish()?;
    Ok(lists)
}
