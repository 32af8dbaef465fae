//! Faces, each with the cells that contain it.

ghost use Rattle.std.specs.Prelude.{◌≡◌, ◌<◌, All, length, map, slice_index_or};
ghost use Rattle.face_list.specs.Tables.{IsTable, cells_numbered, table_seen};

use crate::table::Table;
use point_order::{Cell, Pair, Point, Tri};
use std::marker::Model;

/// The faces of a list of cells: the points, pairs and triples inside Full cells, each with the cells that contain it.
///
/// The cells stand once, and faces name them by their numbers, which count the list from 0.
#[derive(Drop)]
pub struct Faces<'a> {
    pub(crate) cells: &'a [Cell],
    pub(crate) points: Table<Point>,
    pub(crate) pairs: Table<Pair>,
    pub(crate) triples: Table<Tri>,
}

impl<'a> Model for Faces<'a> {
    ghost use Rattle.std.specs.Prelude.{length};
    ghost use Rattle.face_list.specs.Seen.{FaceLists};
    ghost use Rattle.face_list.specs.Tables.{IsTable, table_seen};

    ghost Value = { FaceLists };

    ghost view = { λ f. record {
      cells = f.cells.now;
      points = table_seen f.cells.now f.points;
      pairs = table_seen f.cells.now f.pairs;
      triples = table_seen f.cells.now f.triples;
    } };

    ghost invariant = { λ f. IsTable (length f.cells.now) f.points × IsTable (length f.cells.now) f.pairs
        × IsTable (length f.cells.now) f.triples };
}

impl<'a> Faces<'a> {
    /// The cells, in their order.
    pub fn cells(&self) -> &[Cell]
        ensures { result.now ≡ self.now.cells }
    {
        self.cells
    }

    /// The points of Full cells, ascending, each once.
    pub fn points(&self) -> &[Point]
        ensures { result.now ≡ map (λ f. f.0) self.now.points }
    {
        &self.points.keys
    }

    /// The pairs inside Full cells, in lexicographic order, each once.
    pub fn pairs(&self) -> &[Pair]
        ensures { result.now ≡ map (λ f. f.0) self.now.pairs }
    {
        &self.pairs.keys
    }

    /// The triples inside Full cells, in lexicographic order, each once.
    pub fn triples(&self) -> &[Tri]
        ensures { result.now ≡ map (λ f. f.0) self.now.triples }
    {
        &self.triples.keys
    }

    /// The point of an index, and the numbers of the cells that have it, Open ones too, in their order.
    pub fn point(&self, index: usize) -> (Point, &[u32])
        requires { index < length self.now.points }
        ensures face { (result.0, cells_numbered self.now.cells result.1.now)
            ≡ slice_index_or self.now.points index (result.0, cells_numbered self.now.cells result.1.now) }
        ensures numbers { All (λ n. n < length self.now.cells) result.1.now }
    {
        self.points.face(index)
    }

    /// The pair of an index, and the numbers of the cells that have both points, Open ones too, in their order.
    pub fn pair(&self, index: usize) -> (Pair, &[u32])
        requires { index < length self.now.pairs }
        ensures face { (result.0, cells_numbered self.now.cells result.1.now)
            ≡ slice_index_or self.now.pairs index (result.0, cells_numbered self.now.cells result.1.now) }
        ensures numbers { All (λ n. n < length self.now.cells) result.1.now }
    {
        self.pairs.face(index)
    }

    /// The triple of an index, and the numbers of the cells that have all three points, Open ones too, in their order.
    pub fn triple(&self, index: usize) -> (Tri, &[u32])
        requires { index < length self.now.triples }
        ensures face { (result.0, cells_numbered self.now.cells result.1.now)
            ≡ slice_index_or self.now.triples index (result.0, cells_numbered self.now.cells result.1.now) }
        ensures numbers { All (λ n. n < length self.now.cells) result.1.now }
    {
        self.triples.face(index)
    }

    /// The tables of the points, of the pairs and of the triples, each by itself, so that one can be let go before the
    /// others.
    pub fn apart(self) -> (Table<Point>, Table<Pair>, Table<Tri>)
        ensures points { table_seen self.entry.cells result.0 ≡ self.entry.points }
        ensures pairs { table_seen self.entry.cells result.1 ≡ self.entry.pairs }
        ensures triples { table_seen self.entry.cells result.2 ≡ self.entry.triples }
        ensures point_table { IsTable (length self.entry.cells) result.0 }
        ensures pair_table { IsTable (length self.entry.cells) result.1 }
        ensures triple_table { IsTable (length self.entry.cells) result.2 }
    {
        let Faces {
            points,
            pairs,
            triples,
            ..
        } = self;
        (points, pairs, triples)
    }
}
