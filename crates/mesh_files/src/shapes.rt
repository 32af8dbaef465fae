//! The block of a radius: the faces of an alpha complex.

ghost use Rattle.std.specs.Prelude.{◌≡◌, ◌<◌, ◌++◌, [], ◌∷◌, None, codes, decimal, length, map, slice_index_or, IfOk};
ghost use Rattle.std.specs.Prelude.{OnOk, OnErr};
ghost use Rattle.std.specs.List.{concat};
ghost use Rattle.point_order.specs.Sets.{IsAscending};
ghost use Rattle.std.specs.Io.KnownBytes.{Appends};
ghost use Rattle.byte_ends.specs.Ends.{HasCause};
ghost use Rattle.alpha_complex.specs.Slots.{shape_seen};
ghost use Rattle.list_laws.specs.Lists.{held};
ghost use Rattle.text_sheets.specs.Lines.{block, held_line};
ghost use Rattle.text_sheets.specs.Sheets.{Puts};
ghost use Rattle.mesh_files.specs.Report.{AreCountedInOrder, shapes_seen};
ghost use Rattle.text_sheets.specs.Indices.{index_of, indices_line};
ghost use Rattle.mesh_files.specs.Text.{kind_word, face_line, face_blocks, shape_text as shape_text_of, shape_blocks};
ghost use Rattle.mesh_files.specs.Text.{points_of_faces, counted_points};

use crate::rows::{InTurn, RowLines, Rows, Way, put_face};
use alpha_complex::Shape;
use byte_ends::{Failed, Sink};
use std::alloc::{AllocError, Global};
use text_sheets::{Indices, Sheet, WholeText, put_number_and, put_title};

// Puts the block of the points, which count themselves.
fn put_points<O: Sink>(sheet: &mut Sheet<O>, indices: &Indices, shape: &Shape)
    ensures { Puts O.holds O.faults sheet.old sheet.new
        (block (codes "points") (map (λ f. face_line indices.now (f.0 ∷ []) f.1) shape.now.points)) }
{
    let count = shape.points().len();
    put_title(sheet, b"points", count);
    for index in 0..count {
        let (point, kind) = shape.point(index);
        put_face(sheet, indices, &[point], kind);
    }
}

// Puts the block of the edges.
fn put_pairs<W: Way, O: Sink>(way: &W, sheet: &mut Sheet<O>, indices: &Indices, shape: &Shape)
    requires { W.is_open way.now }
    ensures { Puts O.holds O.faults sheet.old sheet.new
        (block (codes "edges") (map (λ f. face_line indices.now f.0 f.1) (held shape.now.pairs))) }
{
    put_title(sheet, b"edges", shape.pair_count());
    let rows = Rows::Edges(shape);
    way.put_rows(sheet, &RowLines { indices, rows });
}

// Puts the block of the triangles.
fn put_triples<W: Way, O: Sink>(way: &W, sheet: &mut Sheet<O>, indices: &Indices, shape: &Shape)
    requires { W.is_open way.now }
    ensures { Puts O.holds O.faults sheet.old sheet.new (block (codes "triangles")
        (map (λ f. face_line indices.now f.0 f.1) (held shape.now.triples))) }
{
    put_title(sheet, b"triangles", shape.triple_count());
    let rows = Rows::Triangles(shape);
    way.put_rows(sheet, &RowLines { indices, rows });
}

// Puts the block of the cells.
fn put_cells<W: Way, O: Sink>(way: &W, sheet: &mut Sheet<O>, indices: &Indices, shape: &Shape)
    requires { W.is_open way.now }
    ensures { Puts O.holds O.faults sheet.old sheet.new
        (block (codes "cells") (map (indices_line indices.now) (held shape.now.cells))) }
{
    put_title(sheet, b"cells", shape.cell_count());
    let rows = Rows::Quads(shape);
    way.put_rows(sheet, &RowLines { indices, rows });
}

// Puts the faces of a shape, kind by kind.
fn put_faces<W: Way, O: Sink>(way: &W, sheet: &mut Sheet<O>, shape: &Shape)
    requires open { W.is_open way.now }
    requires points { IsAscending (counted_points (shape_seen shape.now)) }
    ensures { Puts O.holds O.faults sheet.old sheet.new
        (face_blocks (counted_points (shape_seen shape.now)) (shape_seen shape.now)) }
{
    let indices = Indices::new(shape.points());
    put_points(sheet, &indices, shape);
    put_pairs(way, sheet, &indices, shape);
    put_triples(way, sheet, &indices, shape);
    put_cells(way, sheet, &indices, shape);
}

// Puts the block of a radius.
fn put_shape<W: Way, O: Sink>(way: &W, sheet: &mut Sheet<O>, radius: u64, shape: &Shape)
    requires open { W.is_open way.now }
    requires points { IsAscending (counted_points (shape_seen shape.now)) }
    ensures { Puts O.holds O.faults sheet.old sheet.new (shape_text_of radius (shape_seen shape.now)) }
{
    sheet.put(b"shape ");
    put_number_and(sheet, radius, b"\n");
    put_faces(way, sheet, shape);
}

// Puts one block for each radius.
pub(crate) fn put_shapes<W: Way, O: Sink>(way: &W, sheet: &mut Sheet<O>, shapes: &[(u64, Shape)])
    requires open { W.is_open way.now }
    requires counted { AreCountedInOrder (shapes_seen shapes.now) }
    ensures { Puts O.holds O.faults sheet.old sheet.new (shape_blocks (shapes_seen shapes.now)) }
{
    for (radius, shape) in shapes {
        put_shape(way, sheet, *radius, shape);
    }
}

// Writes the block of a radius.
fn put_block<O: Sink>(out: &mut O, radius: u64, shape: &Shape) -> Result<(), Failed>
    requires { IsAscending (counted_points (shape_seen shape.now)) }
    ensures { OnOk result (Appends (O.holds out.old) (O.holds out.new) (shape_text_of radius (shape_seen shape.now))) }
{
    let mut sheet = Sheet::new(out);
    put_shape(&InTurn, &mut sheet, radius, shape);
    sheet.close()
}

/// The block of a radius: the points of its alpha complex, and the admitted edges, triangles and cells, by the
/// indices of their points, which count the shape's own points from 0.
///
/// # Errors
///
/// `AllocError` where there is no memory for the text.
pub fn shape_text(alloc: Global, radius: u64, shape: &Shape) -> Result<Vec<u8>, AllocError>
    requires { IsAscending (counted_points (shape_seen shape.now)) }
    ensures { IfOk result (λ text. text.items ≡ shape_text_of radius (shape_seen shape.now)) }
{
    let mut text = WholeText::new(alloc);
    match put_block(&mut text, radius, shape) {
        Ok(()) => Ok(text.into_bytes()),
        Err(Failed) => Err(AllocError),
    }
}
