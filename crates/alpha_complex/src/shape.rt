//! The faces of an alpha complex.

ghost use Rattle.std.specs.Prelude.{◌≡◌, ◌<◌, None, count_by, is_some, length, map, option_map, slice_index_or, zip};
ghost use Rattle.alpha_complex.specs.Slots.{shape_seen, cell_slots_of, marked_cell, slots_of};

use face_list::Faces;
use point_order::{Cell, Pair, Point, Quad, Tri};
use std::marker::Model;

/// How an admitted face lies among the cells that contain it. An Open cell counts as one that is not admitted.
#[derive(Clone, Copy, Debug, PartialEq, Eq)]
pub enum Kind {
    /// None of them is admitted.
    Singular,
    /// Some are admitted, and some are not.
    Regular,
    /// All are admitted.
    Interior,
}

/// The admitted faces of a complex for one alpha. It borrows the faces of the complex, and holds a kind for each that
/// is admitted.
///
/// A face is reached by its index among the faces of the complex, which are in order, so the admitted ones come in
/// order too.
#[derive(Drop)]
pub struct Shape<'a, 'b> {
    pub(crate) faces: &'a Faces<'b>,
    pub(crate) points: Vec<Kind>,
    pub(crate) pairs: Vec<Option<Kind>>,
    pub(crate) triples: Vec<Option<Kind>>,
    pub(crate) cells: Vec<bool>,
}

impl<'a, 'b> Model for Shape<'a, 'b> {
    ghost use Rattle.alpha_complex.specs.Slots.{ShapeSlots};

    ghost Value = { ShapeSlots };

    ghost use Rattle.alpha_complex.specs.Seen.{IsShape, slots_seen};

    ghost view = { slots_seen };

    ghost invariant = { IsShape };
}

// A face with its kind, where it has one.
fn with_kind<F: Copy>(face: F, kind: Option<Kind>) -> Option<(F, Kind)>
    ensures { result ≡ option_map (λ k. (face, k)) kind }
{
    match kind {
        Some(kind) => Some((face, kind)),
        None => None,
    }
}

// The face of an index with its kind, where it has one.
fn face_at<F: Copy>(faces: &[F], kinds: &[Option<Kind>], index: usize) -> Option<(F, Kind)>
    requires faces { index < length faces.now }
    requires kinds { index < length kinds.now }
    ensures { result ≡ slice_index_or (slots_of faces.now kinds.now) index None }
{
    with_kind(faces[index], kinds[index])
}

// The point of an index with its kind.
fn point_at(points: &[Point], kinds: &[Kind], index: usize) -> (Point, Kind)
    requires points { index < length points.now }
    requires kinds { index < length kinds.now }
    ensures { result ≡ slice_index_or (zip points.now kinds.now) index result }
{
    (points[index], kinds[index])
}

// The points of a cell, where it is Full and marked.
fn marked(cell: Cell, mark: bool) -> Option<Quad>
    ensures { result ≡ marked_cell cell mark }
{
    match cell {
        Cell::Full(quad) => { if mark { Some(quad) } else { None } }
        Cell::Open(_) => None,
    }
}

// The points of the cell of an index, where it is Full and marked.
fn cell_at(cells: &[Cell], marks: &[bool], index: usize) -> Option<Quad>
    requires cells { index < length cells.now }
    requires marks { index < length marks.now }
    ensures { result ≡ slice_index_or (cell_slots_of cells.now marks.now) index None }
{
    marked(cells[index], marks[index])
}

// How many faces have a kind.
fn kind_count(kinds: &[Option<Kind>]) -> usize
    ensures { result ≡ count_by is_some kinds.now }
{
    let mut count = 0;
    for kind in kinds {
        if kind.is_some() {
            count += 1;
        }
    }
    count
}

// How many cells are Full and marked.
fn marked_count(cells: &[Cell], marks: &[bool]) -> usize
    requires { length marks.now ≡ length cells.now }
    ensures { result ≡ count_by is_some (cell_slots_of cells.now marks.now) }
{
    let mut count = 0;
    for index in 0..cells.len() {
        if cell_at(cells, marks, index).is_some() {
            count += 1;
        }
    }
    count
}

impl<'a, 'b> Shape<'a, 'b> {
    /// The points, ascending: all points of the set, since a point is admitted at every alpha.
    pub fn points(&self) -> &[Point]
        ensures { result.now ≡ map (λ p. p.0) self.now.points }
    {
        self.faces.points()
    }

    /// The point of an index, with its kind.
    pub fn point(&self, index: usize) -> (Point, Kind)
        requires { index < length self.now.points }
        ensures { result ≡ slice_index_or self.now.points index result }
    {
        point_at(self.faces.points(), &self.points, index)
    }

    /// How many pairs the complex has, admitted or not, in lexicographic order. `pair` takes an index below this.
    pub fn pair_slots(&self) -> usize
        ensures { result ≡ length self.now.pairs }
    {
        self.pairs.len()
    }

    /// The pair of an index, with its kind, where it is admitted.
    pub fn pair(&self, index: usize) -> Option<(Pair, Kind)>
        requires { index < length self.now.pairs }
        ensures { result ≡ slice_index_or self.now.pairs index None }
    {
        face_at(self.faces.pairs(), &self.pairs, index)
    }

    /// How many pairs are admitted.
    pub fn pair_count(&self) -> usize
        ensures { result ≡ length (shape_seen self.now).pairs }
    {
        kind_count(&self.pairs)
    }

    /// How many triples the complex has, admitted or not, in lexicographic order. `triple` takes an index below this.
    pub fn triple_slots(&self) -> usize
        ensures { result ≡ length self.now.triples }
    {
        self.triples.len()
    }

    /// The triple of an index, with its kind, where it is admitted.
    pub fn triple(&self, index: usize) -> Option<(Tri, Kind)>
        requires { index < length self.now.triples }
        ensures { result ≡ slice_index_or self.now.triples index None }
    {
        face_at(self.faces.triples(), &self.triples, index)
    }

    /// How many triples are admitted.
    pub fn triple_count(&self) -> usize
        ensures { result ≡ length (shape_seen self.now).triples }
    {
        kind_count(&self.triples)
    }

    /// How many cells the complex has, admitted or not, Open ones too, in their order. `cell` takes an index below
    /// this.
    pub fn cell_slots(&self) -> usize
        ensures { result ≡ length self.now.cells }
    {
        self.cells.len()
    }

    /// The points of the cell of an index, where it is Full and admitted.
    pub fn cell(&self, index: usize) -> Option<Quad>
        requires { index < length self.now.cells }
        ensures { result ≡ slice_index_or self.now.cells index None }
    {
        cell_at(self.faces.cells(), &self.cells, index)
    }

    /// How many cells are admitted.
    pub fn cell_count(&self) -> usize
        ensures { result ≡ length (shape_seen self.now).cells }
    {
        marked_count(self.faces.cells(), &self.cells)
    }
}
