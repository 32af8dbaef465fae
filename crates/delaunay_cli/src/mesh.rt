//! From an accepted file to its history, and to the parts of its report.

ghost use Rattle.std.specs.Prelude.{◌≡◌, ◌<◌, ◌+◌, ◌^◌, false, length, All, IfOk, IfErr};
ghost use Rattle.edit_files.specs.Held.{content};
ghost use Rattle.command_pages.specs.Page.{AreReportParts, report_of_parts};
ghost use Rattle.command_pages.specs.Report.{report_of};
ghost use Rattle.command_pages.specs.Reading.{AreRadii};
ghost use Rattle.command_ends.specs.Meshed.{IsMeshed, IsUnmeshed};

use crate::mesh_lists::MeshLists;
use crate::mesh_of_lines::lists_of_lines;
use command_pages::{Parts, made_of_points, parts_of};
use command_words::{Asked, Making, Stop};
use edit_files::File;
use edit_gates::Gate;
use edit_history::Entry;
use one_mesh::find_four;
use std::alloc::Global;
use std::thread::Threads;

/// Makes the mesh of the file's lines by workers, its history, and the parts of the report of what that leaves, with
/// a shape for each radius and with the tags of the history, each where it is asked for. Of a file without edit lines
/// no mesh is made: its history is that of one thread, for every number of workers, and its cells are made at once.
///
/// # Errors
///
/// `Flat` where the points of the file have no four independent ones among them, and `Memory`.
pub fn history_and_parts<R: Threads + Sync, G: Gate + Sync>(
    rt: &R,
    alloc: Global,
    file: &File,
    making: Making,
    asked: Asked,
    gate: &G,
) -> Result<(Vec<Entry>, Parts), Stop>
    requires lines { length file.now.points.items + length file.now.edits.items + 4 < 2 ^ 32 }
    requires radii { AreRadii file.now.version file.now.radii.items }
    ensures made { IfOk result (λ made. IsMeshed making.workers asked.shape asked.order
        (content file.now) made.0.items (report_of_parts made.1)) }
    ensures ready { IfOk result (λ made. AreReportParts made.1) }
    ensures stop { IfErr result (IsUnmeshed (content file.now)) }
{
    let Ok(four) = find_four(&file.points) else {
        return Err(Stop::Flat);
    };
    if file.edits.is_empty() {
        return Ok(made_of_points(rt, alloc, making, asked, file, four)?);
    }
    let lists = lists_of_lines(rt, alloc, file, four, making, gate)?;
    let MeshLists {
        history,
        points,
        cells,
    } = lists;
    let parts = parts_of(alloc, making, asked, file, points, cells, &history)?;
    Ok((history, parts))
}
