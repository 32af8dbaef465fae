//! The shapes of a mesh, one for each radius, and the texts that have them.

ghost use Rattle.std.specs.Prelude.{◌≡◌, ◌≤◌, true, map, IfOk, IfErr, OnOk};
ghost use Rattle.std.specs.Io.KnownBytes.{Appends};
ghost use Rattle.byte_ends.specs.Ends.{AppendsFront, HasCause, Rose};
ghost use Rattle.point_order.specs.Complex.{complex};
ghost use Rattle.point_order.specs.Sets.{IsAscending};
ghost use Rattle.point_order.specs.Solid.{is_solid};
ghost use Rattle.del_laws.specs.Keys.{AreKeys};
ghost use Rattle.alpha_complex.specs.Condition.{AreFacesOf};
ghost use Rattle.alpha_complex.specs.Shapes.{shape_of};
ghost use Rattle.mesh_files.specs.Report.{AreCountedInOrder, parts_of, shapes_seen};
ghost use Rattle.mesh_files.specs.Summary.{summary_text as summary_text_of};
ghost use Rattle.mesh_files.specs.Text.{report_text};
ghost use Rattle.command_pages.specs.Puts.{IsUnput};
ghost use Rattle.edit_files.specs.Content.{alpha_of};
ghost use Rattle.command_pages.specs.Reading.{AreRadii};
ghost use Rattle.command_pages.specs.Page.{AreFacesFor, AreReportParts, report_of_parts, text_of_form};

use crate::made::{Form, Parts};
use crate::text::put_text;
use alpha_complex::{Shape, alphas};
use byte_ends::{Failed, Sink};
use command_words::Stop;
use edit_files::Version;
use face_list::{Faces, faces};
use mesh_files::{Report, put_report, put_report_by_threads, summary_text};
use point_order::{Cell, Point};
use std::alloc::{AllocError, Global};
use std::thread::Threads;

// The faces of the cells of a mesh, where there are radii.
fn faces_for<'b, R: Threads + Sync>(
    rt: &R,
    alloc: Global,
    points: &[Point],
    cells: &'b [Cell],
    radii: &[u64],
) -> Result<Option<Faces<'b>>, AllocError>
    requires ascending { IsAscending points.now }
    requires keys { AreKeys points.now }
    requires solid { is_solid points.now ≡ true }
    requires cells { cells.now ≡ complex points.now }
    ensures { IfOk result (AreFacesFor radii.now points.now) }
{
    if radii.is_empty() {
        return Ok(None);
    }
    let faces = faces(rt, alloc, cells)?;
    Ok(Some(faces))
}

// The alpha complex for each of the radii of a file of this version, in their order, of the set whose faces these are.
// Their least alphas are made once.
fn shapes_of_faces<'a, 'b, R: Threads + Sync>(
    rt: &R,
    alloc: Global,
    points: &[Point],
    faces: &'a Faces<'b>,
    version: Version,
    radii: &[u64],
) -> Result<Vec<(u64, Shape<'a, 'b>)>, AllocError>
    requires faces { AreFacesOf points.now faces.now }
    requires radii { AreRadii version radii.now }
    ensures { IfOk result (λ shapes. shapes_seen shapes.items
        ≡ map (λ radius. (radius, shape_of points.now (alpha_of version radius))) radii.now) }
{
    let known = alphas(rt, alloc, faces)?;
    let mut shapes = Vec::new(alloc);
    for radius in radii {
        let shape = known.shape_by_threads(rt, alloc, version.alpha(*radius))?;
        shapes.push((*radius, shape))?;
    }
    Ok(shapes)
}

// The alpha complex for each of the radii, where there are any.
fn shapes<'a, 'b, R: Threads + Sync>(
    rt: &R,
    alloc: Global,
    points: &[Point],
    faces: &'a Option<Faces<'b>>,
    version: Version,
    radii: &[u64],
) -> Result<Vec<(u64, Shape<'a, 'b>)>, AllocError>
    requires faces { AreFacesFor radii.now points.now faces.now }
    requires radii { AreRadii version radii.now }
    ensures { IfOk result (λ shapes. shapes_seen shapes.items
        ≡ map (λ radius. (radius, shape_of points.now (alpha_of version radius))) radii.now) }
{
    match faces {
        Some(faces) => shapes_of_faces(rt, alloc, points, faces, version, radii),
        None => Ok(Vec::new(alloc)),
    }
}

// Writes a report, whose lines are made by threads where that is wanted.
fn write_report<R: Threads + Sync, O: Sink>(
    rt: &R,
    alloc: Global,
    report: &Report,
    by_threads: bool,
    out: &mut O,
) -> Result<(), Failed>
    requires points { IsAscending report.now.points.items }
    requires shapes { AreCountedInOrder (shapes_seen report.now.shapes.items) }
    ensures whole { OnOk result (Appends (O.holds out.old) (O.holds out.new) (report_text (parts_of report.now))) }
    ensures front { AppendsFront (O.holds out.old) (O.holds out.new) (report_text (parts_of report.now)) }
    ensures cause { HasCause (O.faults out.old) (O.faults out.new) result }
{
    if by_threads {
        put_report_by_threads(rt, alloc, out, report)
    } else {
        put_report(out, report)
    }
}

// Puts a report, and says of a fault that the output failed.
fn put_whole<R: Threads + Sync, O: Sink>(
    rt: &R,
    alloc: Global,
    report: &Report,
    by_threads: bool,
    out: &mut O,
) -> Result<(), Stop>
    requires points { IsAscending report.now.points.items }
    requires shapes { AreCountedInOrder (shapes_seen report.now.shapes.items) }
    ensures whole { OnOk result (Appends (O.holds out.old) (O.holds out.new) (report_text (parts_of report.now))) }
    ensures stop { IfErr result (IsUnput (Rose (O.faults out.old) (O.faults out.new)) (O.holds out.old)
        (O.holds out.new)
        (report_text (parts_of report.now))) }
    ensures later { O.faults out.old ≤ O.faults out.new }
{
    match write_report(rt, alloc, report, by_threads, out) {
        Ok(()) => Ok(()),
        Err(Failed) => Err(Stop::WriteFault),
    }
}

// Puts the summary of a report, which is made before anything of it is written.
fn put_summary<O: Sink>(alloc: Global, report: &Report, out: &mut O) -> Result<(), Stop>
    ensures whole { OnOk result (Appends (O.holds out.old) (O.holds out.new)
        (summary_text_of (parts_of report.now))) }
    ensures stop { IfErr result (IsUnput (Rose (O.faults out.old) (O.faults out.new)) (O.holds out.old)
        (O.holds out.new)
        (summary_text_of (parts_of report.now))) }
    ensures later { O.faults out.old ≤ O.faults out.new }
{
    let text = summary_text(alloc, report)?;
    put_text(&text, out)
}

// Puts a report in a form.
fn put<R: Threads + Sync, O: Sink>(
    rt: &R,
    alloc: Global,
    form: Form,
    report: &Report,
    by_threads: bool,
    out: &mut O,
) -> Result<(), Stop>
    requires points { IsAscending report.now.points.items }
    requires shapes { AreCountedInOrder (shapes_seen report.now.shapes.items) }
    ensures whole { OnOk result (Appends (O.holds out.old) (O.holds out.new)
        (text_of_form form (parts_of report.now))) }
    ensures stop { IfErr result (IsUnput (Rose (O.faults out.old) (O.faults out.new)) (O.holds out.old)
        (O.holds out.new)
        (text_of_form form (parts_of report.now))) }
    ensures later { O.faults out.old ≤ O.faults out.new }
{
    match form {
        Form::Whole => put_whole(rt, alloc, report, by_threads, out),
        Form::Summary => put_summary(alloc, report, out),
    }
}

/// Makes the shapes of a report, and then writes it in a form.
///
/// # Errors
/// `Memory` where there is none for the shapes or the summary: then nothing is written. `WriteFault` where the output
/// failed: then it has taken a front of the text.
pub fn put_parts<R: Threads + Sync, O: Sink>(
    rt: &R,
    alloc: Global,
    form: Form,
    parts: Parts,
    out: &mut O,
) -> Result<(), Stop>
    requires { AreReportParts parts }
    ensures whole { OnOk result (Appends (O.holds out.old) (O.holds out.new)
        (text_of_form form (report_of_parts parts))) }
    ensures stop { IfErr result (IsUnput (Rose (O.faults out.old) (O.faults out.new)) (O.holds out.old)
        (O.holds out.new)
        (text_of_form form (report_of_parts parts))) }
    ensures later { O.faults out.old ≤ O.faults out.new }
{
    let Parts {
        replies,
        points,
        cells,
        version,
        radii,
        order,
        by_threads,
    } = parts;
    let faces = faces_for(rt, alloc, &points, &cells, &radii)?;
    let shapes = shapes(rt, alloc, &points, &faces, version, &radii)?;
    let report = Report {
        replies,
        points,
        cells: &cells,
        shapes,
        order,
    };
    put(rt, alloc, form, &report, by_threads, out)
}
