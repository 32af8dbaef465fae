//! The report of a mesh: replies, points, cells, hull, shapes and order.

ghost use Rattle.std.specs.Prelude.{◌≡◌, ℕ, codes, length, map, option_map, Vec, IfOk, IsOk, OnOk, OnErr};
ghost use Rattle.std.specs.declared.alloc.Global.{Global};
ghost use Rattle.point_order.specs.Sets.{IsAscending};
ghost use Rattle.std.specs.Io.KnownBytes.{Appends};
ghost use Rattle.byte_ends.specs.Ends.{AppendsFront, HasCause, Rose};
ghost use Rattle.text_sheets.specs.Lines.{block};
ghost use Rattle.text_sheets.specs.Sheets.{Puts};
ghost use Rattle.mesh_files.specs.Report.{AreCountedInOrder, parts_of, shapes_seen};
ghost use Rattle.text_sheets.specs.Indices.{indices_line};
ghost use Rattle.mesh_files.specs.Text.{reply_line, point_line, full_corners, hull_corners, tag_line, order_block};
ghost use Rattle.mesh_files.specs.Text.{mesh_blocks, report_text};
ghost use Rattle.mesh_reader.specs.Grammar.{reply_word};

use crate::rows::{Beside, InTurn, RowLines, Rows, Way};
use crate::shapes::put_shapes;
use alpha_complex::Shape;
use byte_ends::{Failed, Sink};
use edit_history::Reply;
use point_order::{Cell, Point};
use std::alloc::{AllocError, Global};
use std::thread::Threads;
use text_sheets::{Indices, Sheet, WholeText, put_hull_line, put_number_and, put_three, put_title};

/// What a report tells.
///
/// The cells are borrowed, since the faces that the shapes borrow stand on them.
#[derive(Drop)]
pub struct Report<'a, 'b> {
    /// The reply to each point and edit line, in the order of the lines.
    pub replies: Vec<Reply>,
    /// The points of the mesh, ascending.
    pub points: Vec<Point>,
    /// The cells of the mesh in their order, Full cells first.
    pub cells: &'b [Cell],
    /// The radii in their order, each with its alpha complex.
    pub shapes: Vec<(u64, Shape<'a, 'b>)>,
    /// The tags of the history, in its order, where they are asked for.
    pub order: Option<Vec<u32>>,
}

// Puts the line of a reply.
fn put_reply<O: Sink>(sheet: &mut Sheet<O>, reply: Reply)
    ensures { Puts O.holds O.faults sheet.old sheet.new (reply_line reply) }
{
    sheet.put(word_of(reply).as_bytes());
    sheet.put(b"\n");
}

pub(crate) fn word_of(reply: Reply) -> &'static str
    ensures { result.now ≡ reply_word reply }
{
    match reply {
        Reply::Inserted => "Inserted",
        Reply::Duplicate => "Duplicate",
        Reply::Removed => "Removed",
        Reply::Missing => "Missing",
        Reply::Flat => "Flat",
        Reply::Moved => "Moved",
        Reply::Occupied => "Occupied",
    }
}

// Puts the block of the replies.
fn put_replies<O: Sink>(sheet: &mut Sheet<O>, replies: &[Reply])
    ensures { Puts O.holds O.faults sheet.old sheet.new (block (codes "replies") (map reply_line replies.now)) }
{
    put_title(sheet, b"replies", replies.len());
    for reply in replies {
        put_reply(sheet, *reply);
    }
}

// Puts the line of a point.
pub(crate) fn put_point<O: Sink>(sheet: &mut Sheet<O>, point: Point)
    ensures { Puts O.holds O.faults sheet.old sheet.new (point_line point) }
{
    put_three(sheet, point.x() as u64, point.y() as u64, point.z() as u64);
}

// Puts the block of the points.
fn put_points<O: Sink>(sheet: &mut Sheet<O>, points: &[Point])
    ensures { Puts O.holds O.faults sheet.old sheet.new (block (codes "points") (map point_line points.now)) }
{
    put_title(sheet, b"points", points.len());
    for point in points {
        put_point(sheet, *point);
    }
}

// How many cells are Full.
pub(crate) fn full_count(cells: &[Cell]) -> usize
    ensures { result ≡ length (full_corners cells.now) }
{
    let mut count: usize = 0;
    for cell in cells {
        if let Cell::Full(_) = *cell {
            count += 1;
        }
    }
    count
}

// How many cells are Open.
pub(crate) fn hull_count(cells: &[Cell]) -> usize
    ensures { result ≡ length (hull_corners cells.now) }
{
    let mut count: usize = 0;
    for cell in cells {
        if let Cell::Open(_) = *cell {
            count += 1;
        }
    }
    count
}

// Puts the block of the Full cells.
fn put_cells<W: Way, O: Sink>(way: &W, sheet: &mut Sheet<O>, indices: &Indices, cells: &[Cell])
    requires { W.is_open way.now }
    ensures { Puts O.holds O.faults sheet.old sheet.new
        (block (codes "cells") (map (indices_line indices.now) (full_corners cells.now))) }
{
    put_title(sheet, b"cells", full_count(cells));
    let rows = Rows::Cells(cells);
    way.put_rows(sheet, &RowLines { indices, rows });
}

// Puts the block of the Open cells.
fn put_hull<O: Sink>(sheet: &mut Sheet<O>, indices: &Indices, cells: &[Cell])
    ensures { Puts O.holds O.faults sheet.old sheet.new
        (block (codes "hull") (map (indices_line indices.now) (hull_corners cells.now))) }
{
    put_title(sheet, b"hull", hull_count(cells));
    for cell in cells {
        match *cell {
            Cell::Open(tri) => put_hull_line(sheet, indices, tri),
            Cell::Full(_) => {}
        }
    }
}

// Puts the line of a tag.
fn put_tag<O: Sink>(sheet: &mut Sheet<O>, tag: u32)
    ensures { Puts O.holds O.faults sheet.old sheet.new (tag_line tag) }
{
    put_number_and(sheet, u64::from(tag), b"\n");
}

// Puts the block of the tags.
fn put_tags<O: Sink>(sheet: &mut Sheet<O>, tags: &[u32])
    ensures { Puts O.holds O.faults sheet.old sheet.new (block (codes "order") (map tag_line tags.now)) }
{
    put_title(sheet, b"order", tags.len());
    for tag in tags {
        put_tag(sheet, *tag);
    }
}

// Puts the block of the tags, where there are any.
fn put_order<O: Sink>(sheet: &mut Sheet<O>, order: &Option<Vec<u32>>)
    ensures { Puts O.holds O.faults sheet.old sheet.new
        (order_block (option_map (λ (tags : Vec ℕ Global). tags.items) order.now)) }
{
    match order {
        Some(tags) => put_tags(sheet, tags),
        None => {}
    }
}

// Puts what the report tells of the mesh: its replies, points, cells and hull.
fn put_mesh<W: Way, O: Sink>(way: &W, sheet: &mut Sheet<O>, report: &Report)
    requires open { W.is_open way.now }
    requires points { IsAscending report.now.points.items }
    ensures { Puts O.holds O.faults sheet.old sheet.new (mesh_blocks (parts_of report.now)) }
{
    let points: &[Point] = &report.points;
    let indices = Indices::new(points);
    put_replies(sheet, &report.replies);
    put_points(sheet, points);
    put_cells(way, sheet, &indices, report.cells);
    put_hull(sheet, &indices, report.cells);
}

// Puts the text of the report.
fn put_all<W: Way, O: Sink>(way: &W, sheet: &mut Sheet<O>, report: &Report)
    requires open { W.is_open way.now }
    requires points { IsAscending report.now.points.items }
    requires shapes { AreCountedInOrder (shapes_seen report.now.shapes.items) }
    ensures { Puts O.holds O.faults sheet.old sheet.new (report_text (parts_of report.now)) }
{
    sheet.put(b"mesh3-out 1\n");
    put_mesh(way, sheet, report);
    put_shapes(way, sheet, &report.shapes);
    put_order(sheet, &report.order);
    sheet.put(b"end\n");
}

/// Writes the report: its replies, points, cells, hull, shapes and order, one block after another, each line with a
/// line feed. Cells are written by the indices of their points, counted from 0 in the list of points, and the faces
/// of a shape by those of its own points. It takes no memory: the text goes to the sink a page of 4,096 bytes at a
/// time.
///
/// # Errors
///
/// `Failed` where the sink failed. Then it has taken a front of the text.
pub fn put_report<O: Sink>(out: &mut O, report: &Report) -> Result<(), Failed>
    requires points { IsAscending report.now.points.items }
    requires shapes { AreCountedInOrder (shapes_seen report.now.shapes.items) }
    ensures whole { OnOk result (Appends (O.holds out.old) (O.holds out.new) (report_text (parts_of report.now))) }
    ensures front { AppendsFront (O.holds out.old) (O.holds out.new) (report_text (parts_of report.now)) }
    ensures cause { HasCause (O.faults out.old) (O.faults out.new) result }
    ensures done { (Rose (O.faults out.old) (O.faults out.new) → ⊥) → IsOk result }
{
    let mut sheet = Sheet::new(out);
    put_all(&InTurn, &mut sheet, report);
    sheet.close()
}

/// Writes what `put_report` writes. The lines of the cells of the mesh and of the edges, triangles and cells of shapes
/// are made by as many threads as there are processors, a few megabytes before they are written; where memory for them
/// is refused, they are made one after another.
///
/// # Errors
///
/// `Failed` where the sink failed. Then it has taken a front of the text.
pub fn put_report_by_threads<R: Threads + Sync, O: Sink>(
    rt: &R,
    alloc: Global,
    out: &mut O,
    report: &Report,
) -> Result<(), Failed>
    requires points { IsAscending report.now.points.items }
    requires shapes { AreCountedInOrder (shapes_seen report.now.shapes.items) }
    ensures whole { OnOk result (Appends (O.holds out.old) (O.holds out.new) (report_text (parts_of report.now))) }
    ensures front { AppendsFront (O.holds out.old) (O.holds out.new) (report_text (parts_of report.now)) }
    ensures cause { HasCause (O.faults out.old) (O.faults out.new) result }
    ensures done { (Rose (O.faults out.old) (O.faults out.new) → ⊥) → IsOk result }
{
    let way = Beside { rt, alloc };
    let mut sheet = Sheet::new(out);
    put_all(&way, &mut sheet, report);
    sheet.close()
}

/// The text that `put_report` writes of the report.
///
/// # Errors
///
/// `AllocError` where there is no memory for the text.
pub fn mesh_text(alloc: Global, report: &Report) -> Result<Vec<u8>, AllocError>
    requires points { IsAscending report.now.points.items }
    requires shapes { AreCountedInOrder (shapes_seen report.now.shapes.items) }
    ensures { IfOk result (λ text. text.items ≡ report_text (parts_of report.now)) }
{
    let mut text = WholeText::new(alloc);
    match put_report(&mut text, report) {
        Ok(()) => Ok(text.into_bytes()),
        Err(Failed) => Err(AllocError),
    }
}
