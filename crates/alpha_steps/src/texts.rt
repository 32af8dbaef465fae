//! The text of thresholds.

ghost use Rattle.std.specs.Prelude.{◌≡◌, ◌<◌, ◌++◌, [], None, codes, length, map, slice_index_or, IsOk, OnOk, OnErr};
ghost use Rattle.std.specs.Io.KnownBytes.{Appends};
ghost use Rattle.byte_ends.specs.Ends.{AppendsFront, HasCause, Rose};
ghost use Rattle.point_order.specs.Sets.{IsAscending};
ghost use Rattle.text_sheets.specs.Lines.{block, held_line};
ghost use Rattle.list_laws.specs.Lists.{held};
ghost use Rattle.text_sheets.specs.Sheets.{Puts};
ghost use Rattle.alpha_steps.specs.declared.threshold.Threshold.TheVariants.{Never};
ghost use Rattle.alpha_steps.specs.Text.{step_line, steps_text, threshold_word};

use crate::steps::Thresholds;
use crate::threshold::Threshold;
use byte_ends::{Failed, Sink};
use point_order::Point;
use text_sheets::{Indices, Sheet, put_indices, put_number, put_title};

// Puts a threshold.
fn put_threshold<O: Sink>(sheet: &mut Sheet<O>, threshold: Threshold)
    ensures { Puts O.holds O.faults sheet.old sheet.new (threshold_word threshold) }
{
    match threshold {
        Threshold::At(alpha) => put_number(sheet, alpha),
        Threshold::Never => sheet.put(b"none"),
    }
}

// Puts the line of a face.
fn put_step<O: Sink>(
    sheet: &mut Sheet<O>,
    indices: &Indices,
    corners: &[Point],
    threshold: Threshold,
)
    ensures { Puts O.holds O.faults sheet.old sheet.new (step_line indices.now (corners.now, threshold)) }
{
    put_indices(sheet, indices, corners);
    put_threshold(sheet, threshold);
    sheet.put(b"\n");
}

// Puts the line of the pair of an index.
fn put_pair<O: Sink>(sheet: &mut Sheet<O>, indices: &Indices, list: &Thresholds, index: usize)
    requires { index < length list.now.pairs }
    ensures { Puts O.holds O.faults sheet.old sheet.new
        (step_line indices.now (slice_index_or list.now.pairs index ([], Never))) }
{
    let (pair, threshold) = list.pair(index);
    put_step(sheet, indices, pair.points(), threshold);
}

// Puts the block of the pairs.
fn put_pairs<O: Sink>(sheet: &mut Sheet<O>, indices: &Indices, list: &Thresholds)
    ensures { Puts O.holds O.faults sheet.old sheet.new
        (block (codes "edges") (map (step_line indices.now) list.now.pairs)) }
{
    put_title(sheet, b"edges", list.pair_count());
    for index in 0..list.pair_count() {
        put_pair(sheet, indices, list, index);
    }
}

// Puts the line of the triple of an index.
fn put_triple<O: Sink>(sheet: &mut Sheet<O>, indices: &Indices, list: &Thresholds, index: usize)
    requires { index < length list.now.triples }
    ensures { Puts O.holds O.faults sheet.old sheet.new
        (step_line indices.now (slice_index_or list.now.triples index ([], Never))) }
{
    let (triple, threshold) = list.triple(index);
    put_step(sheet, indices, triple.points(), threshold);
}

// Puts the block of the triples.
fn put_triples<O: Sink>(sheet: &mut Sheet<O>, indices: &Indices, list: &Thresholds)
    ensures { Puts O.holds O.faults sheet.old sheet.new
        (block (codes "triangles") (map (step_line indices.now) list.now.triples)) }
{
    put_title(sheet, b"triangles", list.triple_count());
    for index in 0..list.triple_count() {
        put_triple(sheet, indices, list, index);
    }
}

// Puts the line of the cell of an index, where it is Full.
fn put_cell<O: Sink>(sheet: &mut Sheet<O>, indices: &Indices, list: &Thresholds, index: usize)
    requires { index < length list.now.cells }
    ensures { Puts O.holds O.faults sheet.old sheet.new
        (held_line (step_line indices.now) (slice_index_or list.now.cells index None)) }
{
    match list.cell(index) {
        Some((quad, threshold)) => put_step(sheet, indices, quad.points(), threshold),
        None => {}
    }
}

// Puts the block of the Full cells.
fn put_cells<O: Sink>(sheet: &mut Sheet<O>, indices: &Indices, list: &Thresholds)
    ensures { Puts O.holds O.faults sheet.old sheet.new
        (block (codes "cells") (map (step_line indices.now) (held list.now.cells))) }
{
    put_title(sheet, b"cells", list.cell_count());
    for index in 0..list.cell_slots() {
        put_cell(sheet, indices, list, index);
    }
}

// Puts the whole text.
fn put_all<O: Sink>(sheet: &mut Sheet<O>, list: &Thresholds)
    requires { IsAscending list.now.points }
    ensures { Puts O.holds O.faults sheet.old sheet.new (steps_text list.now) }
{
    sheet.put(b"mesh3-steps 1\n");
    let indices = Indices::new(list.points());
    put_pairs(sheet, &indices, list);
    put_triples(sheet, &indices, list);
    put_cells(sheet, &indices, list);
    sheet.put(b"end\n");
}

// How many bytes a line has at most that names so many points of a list.
fn line_room(points: usize, corners: usize) -> usize {
    let digits = points.max(1).ilog10() as usize + 2;
    digits.saturating_mul(corners).saturating_add(12)
}

/// How many bytes the text has at most: what is to hold it whole takes room for so many at once, in place of growing.
pub fn text_room(list: &Thresholds) -> usize {
    let points = list.points().len();
    let pairs = list.pair_count().saturating_mul(line_room(points, 2));
    let triples = list.triple_count().saturating_mul(line_room(points, 3));
    let cells = list.cell_count().saturating_mul(line_room(points, 4));
    pairs
        .saturating_add(triples)
        .saturating_add(cells)
        .saturating_add(128)
}

/// Writes the text of the thresholds. It takes no memory.
///
/// # Errors
///
/// `Failed` where the sink failed. Then it has taken a front of the text.
pub fn put_steps<O: Sink>(out: &mut O, list: &Thresholds) -> Result<(), Failed>
    requires { IsAscending list.now.points }
    ensures whole { OnOk result (Appends (O.holds out.old) (O.holds out.new) (steps_text list.now)) }
    ensures front { AppendsFront (O.holds out.old) (O.holds out.new) (steps_text list.now) }
    ensures cause { HasCause (O.faults out.old) (O.faults out.new) result }
    ensures done { (Rose (O.faults out.old) (O.faults out.new) → ⊥) → IsOk result }
{
    let mut sheet = Sheet::new(out);
    put_all(&mut sheet, list);
    sheet.close()
}
