//! The parts of a report, of a history and of the points that it leaves.

ghost use Rattle.std.specs.Prelude.{◌≡◌, ◌<◌, ◌+◌, ◌^◌, length, true, All, IfOk, option_map, Vec, ℕ};
ghost use Rattle.std.specs.declared.alloc.Global.{Global};
ghost use Rattle.point_order.specs.Complex.{complex};
ghost use Rattle.point_order.specs.Sets.{IsAscending};
ghost use Rattle.point_order.specs.Solid.{is_solid};
ghost use Rattle.del_laws.specs.Keys.{AreKeys};
ghost use Rattle.edit_history.specs.Histories.{replay};
ghost use Rattle.edit_files.specs.Held.{content};
ghost use Rattle.command_pages.specs.Page.{AreReportParts, radii_of as radii_of_it, report_of_parts};
ghost use Rattle.command_pages.specs.Report.{order_of as order_of_it, report_of, tags_of};
ghost use Rattle.command_pages.specs.Reading.{AreRadii};

use crate::made::Parts;
use crate::replies::replies_by_tag;
use command_words::{Asked, Making};
use edit_files::File;
use edit_history::Entry;
use point_order::{Cell, Point};
use std::alloc::{AllocError, Global};

// The tags of a history, in its order.
fn tags(alloc: Global, entries: &[Entry]) -> Result<Vec<u32>, AllocError>
    ensures { IfOk result (λ tags. tags.items ≡ tags_of entries.now) }
{
    let mut tags = Vec::with_capacity(alloc, entries.len())?;
    for entry in entries {
        tags.push(entry.tag)?;
    }
    Ok(tags)
}

// The tags, where they are asked for.
fn order_of(alloc: Global, order: bool, entries: &[Entry]) -> Result<Option<Vec<u32>>, AllocError>
    ensures { IfOk result (λ tags. option_map (λ (tags : Vec ℕ Global). tags.items) tags
        ≡ order_of_it order entries.now) }
{
    if order {
        Ok(Some(tags(alloc, entries)?))
    } else {
        Ok(None)
    }
}

// The radii, where shapes are asked for.
fn radii_of(alloc: Global, shape: bool, radii: &[u64]) -> Result<Vec<u64>, AllocError>
    ensures { IfOk result (λ v. v.items ≡ radii_of_it shape radii.now) }
{
    if shape {
        Vec::from_slice(alloc, radii)
    } else {
        Ok(Vec::new(alloc))
    }
}

// Whether the lines of a report are made by threads.
fn are_by_threads(making: Making, asked: Asked) -> bool {
    asked.shape || making.workers > 1
}

/// The parts of the report of a history of a file's lines: `points` are those that it leaves, and `cells` those of
/// their complex. Its lines are made by threads where it has shapes or several workers made the mesh.
///
/// # Errors
/// Want of memory.
pub fn parts_of(
    alloc: Global,
    making: Making,
    asked: Asked,
    file: &File,
    points: Vec<Point>,
    cells: Vec<Cell>,
    kept: &[Entry],
) -> Result<Parts, AllocError>
    requires points { points.items ≡ replay kept.now }
    requires cells { cells.items ≡ complex (replay kept.now) }
    requires ascending { IsAscending (replay kept.now) }
    requires keys { AreKeys (replay kept.now) }
    requires solid { is_solid (replay kept.now) ≡ true }
    requires radii { AreRadii file.now.version file.now.radii.items }
    requires lines { length file.now.points.items + length file.now.edits.items < 2 ^ 32 }
    ensures report { IfOk result (λ parts. report_of_parts parts
        ≡ report_of asked.shape asked.order (content file.now) kept.now) }
    ensures ready { IfOk result AreReportParts }
{
    Ok(Parts {
        replies: replies_by_tag(alloc, file.points.len() + file.edits.len(), kept)?,
        points,
        cells,
        version: file.version,
        radii: radii_of(alloc, asked.shape, &file.radii)?,
        order: order_of(alloc, asked.order, kept)?,
        by_threads: are_by_threads(making, asked),
    })
}
