//! Reports of replies, tags and points.

ghost use Rattle.point_order.specs.Sets.{IsAscending};
ghost use Rattle.mesh_files.specs.Report.{AreCountedInOrder, shapes_seen};

use crate::ends::end_of;
use crate::reading::list_at;
use crate::telling::{Answer, put_bytes, put_made};
use byte_ends::MemSink;
use complex_trial::complex_by_trial;
use mesh_files::{Report, mesh_text, put_report, summary_text};
use point_order::points_in_order;
use std::alloc::Global;

// The report's summary and its text, and how its writing to an end ends.
fn put_texts(alloc: Global, answer: &mut Answer, report: &Report, end: &str) -> Option<()>
    requires points { IsAscending report.now.points.items }
    requires shapes { AreCountedInOrder (shapes_seen report.now.shapes.items) }
{
    put_made(answer, summary_text(alloc, report));
    answer.put("; ");
    put_made(answer, mesh_text(alloc, report));
    let numbers = answer.all(end);
    let (room, step, fails) = end_of(&numbers)?;
    let mut sink = answer.got(MemSink::new(alloc, room, step, fails))?;
    let is_written = put_report(&mut sink, report).is_ok();
    write!(answer, "; written: {is_written}, ");
    put_bytes(answer, sink.bytes());
    Some(())
}

/// Answers a case of a report, whose cells are those of the points by trial.
pub(crate) fn put(alloc: Global, answer: &mut Answer, lists: &str) -> Option<()> {
    let points = points_in_order(answer.all(list_at(lists, 2)));
    let cells = answer.got(complex_by_trial(alloc, &points))?;
    let replies = answer.all(list_at(lists, 0));
    let tags = answer.all(list_at(lists, 1));
    let report = Report {
        replies,
        points,
        cells: &cells,
        shapes: Vec::new(alloc),
        order: if tags.is_empty() { None } else { Some(tags) },
    };
    put_texts(alloc, answer, &report, list_at(lists, 3))
}
