//! Rows of a mesh and of a shape, each told by its number, and two ways to put them.

ghost use Rattle.std.specs.Prelude.{◌≡◌, ◌<◌, [], ⊤, None, length, slice_index_or};
ghost use Rattle.std.specs.List.{concat};
ghost use Rattle.std.specs.Thread.{IsSync};
ghost use Rattle.text_sheets.specs.Indices.{indices_line};
ghost use Rattle.text_sheets.specs.Lines.{held_line};
ghost use Rattle.text_sheets.specs.Sheets.{Puts};
ghost use Rattle.mesh_files.specs.Rows.{full_piece, lines_of_rows};
ghost use Rattle.mesh_files.specs.Text.{face_line, kind_word};

use alpha_complex::{Kind, Shape};
use byte_ends::Sink;
use point_order::{Cell, Point};
use std::alloc::Global;
use std::thread::Threads;
use text_sheets::{Indices, Lines, Sheet, put_beside, put_full_line, put_in_turn, put_indices};

/// What has a row for each of its cells or faces.
#[derive(Clone, Copy)]
pub(crate) enum Rows<'a, 'b, 'c> {
    /// The Full ones of these cells.
    Cells(&'a [Cell]),
    /// The edges of a shape.
    Edges(&'a Shape<'b, 'c>),
    /// Its triangles.
    Triangles(&'a Shape<'b, 'c>),
    /// Its cells.
    Quads(&'a Shape<'b, 'c>),
}

/// The lines of rows, by the indices of points.
#[derive(Drop)]
pub(crate) struct RowLines<'a, 'b, 'c, 'd> {
    pub indices: &'a Indices<'d>,
    pub rows: Rows<'a, 'b, 'c>,
}

/// How rows are put.
pub(crate) trait Way {
    /// That it can be gone.
    ghost is_open: { Self → Type 0 };

    /// Puts the lines of rows.
    fn put_rows<O: Sink>(&self, sheet: &mut Sheet<O>, lines: &RowLines)
        requires { is_open self.now }
        ensures { Puts O.holds O.faults sheet.old sheet.new
            (concat (lines_of_rows lines.now.indices.now lines.now.rows)) };
}

/// One after another, which takes no memory.
#[derive(Drop)]
pub(crate) struct InTurn;

/// Made side by side by threads, a while before they are put.
#[derive(Drop)]
pub(crate) struct Beside<'a, R> {
    pub rt: &'a R,
    pub alloc: Global,
}

// The word of a kind.
fn word_of(kind: Kind) -> &'static str
    ensures { result.now ≡ kind_word kind }
{
    match kind {
        Kind::Singular => "singular",
        Kind::Regular => "regular",
        Kind::Interior => "interior",
    }
}

/// Puts the line of a face.
pub(crate) fn put_face<O: Sink>(
    sheet: &mut Sheet<O>,
    indices: &Indices,
    corners: &[Point],
    kind: Kind,
)
    ensures { Puts O.holds O.faults sheet.old sheet.new (face_line indices.now corners.now kind) }
{
    put_indices(sheet, indices, corners);
    sheet.put(word_of(kind).as_bytes());
    sheet.put(b"\n");
}

// Puts the line of the pair of an index, where it is admitted.
fn put_pair<O: Sink>(sheet: &mut Sheet<O>, indices: &Indices, shape: &Shape, index: usize)
    requires { index < length shape.now.pairs }
    ensures { Puts O.holds O.faults sheet.old sheet.new
        (held_line (λ f. face_line indices.now f.0 f.1) (slice_index_or shape.now.pairs index None)) }
{
    match shape.pair(index) {
        Some((pair, kind)) => put_face(sheet, indices, pair.points(), kind),
        None => {}
    }
}

// Puts the line of the triple of an index, where it is admitted.
fn put_triple<O: Sink>(sheet: &mut Sheet<O>, indices: &Indices, shape: &Shape, index: usize)
    requires { index < length shape.now.triples }
    ensures { Puts O.holds O.faults sheet.old sheet.new (held_line (λ f. face_line indices.now f.0 f.1)
        (slice_index_or shape.now.triples index None)) }
{
    match shape.triple(index) {
        Some((triple, kind)) => put_face(sheet, indices, triple.points(), kind),
        None => {}
    }
}

// Puts the line of the cell of an index, where it is admitted.
fn put_quad<O: Sink>(sheet: &mut Sheet<O>, indices: &Indices, shape: &Shape, index: usize)
    requires { index < length shape.now.cells }
    ensures { Puts O.holds O.faults sheet.old sheet.new
        (held_line (indices_line indices.now) (slice_index_or shape.now.cells index None)) }
{
    match shape.cell(index) {
        Some(quad) => put_full_line(sheet, indices, quad),
        None => {}
    }
}

// Puts the line of a cell, where it is Full.
fn put_full<O: Sink>(sheet: &mut Sheet<O>, indices: &Indices, cell: Cell)
    ensures { Puts O.holds O.faults sheet.old sheet.new (full_piece (indices_line indices.now) cell) }
{
    match cell {
        Cell::Full(quad) => put_full_line(sheet, indices, quad),
        Cell::Open(_) => {}
    }
}

// How many rows there are.
fn row_count(indices: &Indices, rows: Rows) -> usize
    ensures { result ≡ length (lines_of_rows indices.now rows.entry) }
{
    match rows {
        Rows::Cells(cells) => cells.len(),
        Rows::Edges(shape) => shape.pair_slots(),
        Rows::Triangles(shape) => shape.triple_slots(),
        Rows::Quads(shape) => shape.cell_slots(),
    }
}

// Puts the line of a row.
fn put_row<O: Sink>(sheet: &mut Sheet<O>, indices: &Indices, rows: Rows, number: usize)
    requires { number < length (lines_of_rows indices.now rows) }
    ensures { Puts O.holds O.faults sheet.old sheet.new
        (slice_index_or (lines_of_rows indices.now rows.entry) number []) }
{
    match rows {
        Rows::Cells(cells) => put_full(sheet, indices, cells[number]),
        Rows::Edges(shape) => put_pair(sheet, indices, shape, number),
        Rows::Triangles(shape) => put_triple(sheet, indices, shape, number),
        Rows::Quads(shape) => put_quad(sheet, indices, shape, number),
    }
}

impl<'a, 'b, 'c, 'd> Lines for RowLines<'a, 'b, 'c, 'd> {
    ghost lines_of = { λ l. lines_of_rows l.indices.now l.rows };

    fn count(&self) -> usize {
        row_count(self.indices, self.rows)
    }

    fn put_line<O: Sink>(&self, sheet: &mut Sheet<O>, number: usize) {
        put_row(sheet, self.indices, self.rows, number);
    }
}

impl Way for InTurn {
    ghost is_open = { λ _. ⊤ };

    fn put_rows<O: Sink>(&self, sheet: &mut Sheet<O>, lines: &RowLines) {
        put_in_turn(sheet, lines);
    }
}

impl<'a, R: Threads + Sync> Way for Beside<'a, R> {
    ghost is_open = { λ _. IsSync R.row };

    fn put_rows<O: Sink>(&self, sheet: &mut Sheet<O>, lines: &RowLines) {
        put_beside(self.rt, self.alloc, sheet, lines);
    }
}
