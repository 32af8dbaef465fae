//! The thresholds of all faces of a complex.

ghost use Rattle.std.specs.Prelude.{◌≡◌, ◌<◌, None, length, slice_index_or};
ghost use Rattle.face_list.specs.Faces.{full_cells};
ghost use Rattle.list_laws.specs.Lists.{held};
ghost use Rattle.alpha_steps.specs.Seen.{cell_steps_of, step_of_cell, steps_of};

use crate::threshold::{Threshold, threshold_of};
use face_list::Faces;
use point_order::{Cell, Pair, Point, Quad, Tri};
use std::marker::Model;

/// The points of a complex, and its pairs, triples and Full cells with their thresholds, each list in order. It borrows
/// the faces.
#[derive(Drop)]
pub struct Thresholds<'a, 'b> {
    pub(crate) faces: &'a Faces<'b>,
    // The least alpha of each, 2^34 or more where there is none.
    pub(crate) pairs: Vec<u64>,
    pub(crate) triples: Vec<u64>,
    pub(crate) cells: Vec<u64>,
}

impl<'a, 'b> Model for Thresholds<'a, 'b> {
    ghost use Rattle.alpha_steps.specs.Seen.{AreAsMany, steps_seen};
    ghost use Rattle.alpha_steps.specs.Thresholds.{StepSlots};

    ghost Value = { StepSlots };

    ghost view = { steps_seen };

    ghost invariant = { AreAsMany };
}

// A face of an index with the threshold of its number.
fn step_at<F: Copy>(faces: &[F], leasts: &[u64], index: usize) -> (F, Threshold)
    requires faces { index < length faces.now }
    requires leasts { index < length leasts.now }
    ensures { result ≡ slice_index_or (steps_of faces.now leasts.now) index result }
{
    (faces[index], threshold_of(leasts[index]))
}

// A cell with the threshold of its number, where it is Full.
fn cell_step(cell: Cell, least: u64) -> Option<(Quad, Threshold)>
    ensures { result ≡ step_of_cell cell least }
{
    match cell {
        Cell::Full(quad) => Some((quad, threshold_of(least))),
        Cell::Open(_) => None,
    }
}

// The cell of an index with the threshold of its number, where it is Full.
fn cell_step_at(cells: &[Cell], leasts: &[u64], index: usize) -> Option<(Quad, Threshold)>
    requires cells { index < length cells.now }
    requires leasts { index < length leasts.now }
    ensures { result ≡ slice_index_or (cell_steps_of cells.now leasts.now) index None }
{
    cell_step(cells[index], leasts[index])
}

// How many cells are Full.
fn full_count(cells: &[Cell]) -> usize
    ensures { result ≡ length (full_cells cells.now) }
{
    let mut count = 0;
    for cell in cells {
        if let Cell::Full(_) = *cell {
            count += 1;
        }
    }
    count
}

impl<'a, 'b> Thresholds<'a, 'b> {
    /// The points, ascending.
    pub fn points(&self) -> &[Point]
        ensures { result.now ≡ self.now.points }
    {
        self.faces.points()
    }

    /// How many pairs there are.
    pub fn pair_count(&self) -> usize
        ensures { result ≡ length self.now.pairs }
    {
        self.pairs.len()
    }

    /// The pair of an index, in lexicographic order, with its threshold.
    pub fn pair(&self, index: usize) -> (Pair, Threshold)
        requires { index < length self.now.pairs }
        ensures { result ≡ slice_index_or self.now.pairs index result }
    {
        step_at(self.faces.pairs(), &self.pairs, index)
    }

    /// How many triples there are.
    pub fn triple_count(&self) -> usize
        ensures { result ≡ length self.now.triples }
    {
        self.triples.len()
    }

    /// The triple of an index, in lexicographic order, with its threshold.
    pub fn triple(&self, index: usize) -> (Tri, Threshold)
        requires { index < length self.now.triples }
        ensures { result ≡ slice_index_or self.now.triples index result }
    {
        step_at(self.faces.triples(), &self.triples, index)
    }

    /// How many cells the complex has, Open ones too, in their order.
    pub fn cell_slots(&self) -> usize
        ensures { result ≡ length self.now.cells }
    {
        self.cells.len()
    }

    /// The cell of an index with its threshold, where it is Full.
    pub fn cell(&self, index: usize) -> Option<(Quad, Threshold)>
        requires { index < length self.now.cells }
        ensures { result ≡ slice_index_or self.now.cells index None }
    {
        cell_step_at(self.faces.cells(), &self.cells, index)
    }

    /// How many Full cells there are.
    pub fn cell_count(&self) -> usize
        ensures { result ≡ length (held self.now.cells) }
    {
        full_count(self.faces.cells())
    }
}
