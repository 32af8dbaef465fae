//! A file without edit lines: its history and the parts of its report, without a mesh.

ghost use Rattle.std.specs.Prelude.{◌≡◌, ◌<◌, ◌+◌, ◌^◌, [], true, length, All, IfOk, Some, option_map, ℕ};
ghost use Rattle.point_order.specs.Sets.{IsAscending, ascending};
ghost use Rattle.point_order.specs.Solid.{is_solid};
ghost use Rattle.del_laws.specs.Keys.{AreKeys};
ghost use Rattle.edit_history.specs.Histories.{IsLegal};
ghost use Rattle.edit_history.specs.OneThread.{places};
ghost use Rattle.edit_history.specs.Opening.{opening_four};
ghost use Rattle.edit_files.specs.Held.{content};
ghost use Rattle.command_pages.specs.Page.{AreReportParts, report_of_parts};
ghost use Rattle.command_pages.specs.Report.{report_of};
ghost use Rattle.command_pages.specs.Reading.{AreRadii};
ghost use Rattle.command_pages.specs.Run.{IsKept};

use crate::made::Parts;
use crate::parts::parts_of;
use cloud_cells::complex_by_threads;
use command_words::{Asked, Making};
use edit_files::File;
use edit_history::Entry;
use edit_history::laws::{one_thread_is_legal, solidity_is_of_the_set};
use point_history::{history_of_points, set_of};
use point_order::Point;
use std::alloc::{AllocError, Global};
use std::thread::Threads;

// Reads each key, so that it is known to be one.
fn read_keys(points: &[Point])
    ensures { AreKeys points.now }
{
    for point in points {
        let _ = point.key();
    }
}

/// The history of one thread of a file without edit lines, and the parts of its report. No mesh is made: the history
/// keeps the file for every number of workers, and the cells are those of its points, made by as many threads as there
/// are workers, where there are points enough that it pays. `four` are the places of the opening four.
///
/// # Errors
/// Want of memory.
pub fn made_of_points<R: Threads + Sync>(
    rt: &R,
    alloc: Global,
    making: Making,
    asked: Asked,
    file: &File,
    four: [usize; 4],
) -> Result<(Vec<Entry>, Parts), AllocError>
    requires found { option_map places (opening_four file.now.points.items) ≡ Some four }
    requires solid { is_solid file.now.points.items ≡ true }
    requires no_edits { file.now.edits.items ≡ [] }
    requires radii { AreRadii file.now.version file.now.radii.items }
    requires lines { length file.now.points.items + length file.now.edits.items + 4 < 2 ^ 32 }
    ensures kept { IfOk result (λ made. (workers : ℕ) → 0 < workers →
        IsKept (content file.now) workers made.0.items) }
    ensures legal { IfOk result (λ made. IsLegal made.0.items) }
    ensures report { IfOk result (λ made. report_of_parts made.1
        ≡ report_of asked.shape asked.order (content file.now) made.0.items) }
    ensures ready { IfOk result (λ made. AreReportParts made.1) }
{
    one_thread_is_legal();
    solidity_is_of_the_set();
    let points = set_of(alloc, &file.points)?;
    read_keys(&points);
    let cells = complex_by_threads(rt, alloc, &points, making.workers as usize)?;
    let kept = history_of_points(alloc, &file.points, four)?;
    let parts = parts_of(alloc, making, asked, file, points, cells, &kept)?;
    Ok((kept, parts))
}
