//! The least alphas of faces.

ghost use Rattle.std.specs.Prelude.{◌≡◌, ◌<◌, ◌^◌, ◌∷◌, [], ℕ, All, List, length, map, nat_le, slice_index_or, IfOk};
ghost use Rattle.std.specs.List.{list_all, list_any};
ghost use Rattle.point_order.specs.Complex.{complex};
ghost use Rattle.face_list.specs.Faces.{parts_in};
ghost use Rattle.face_list.specs.Tables.{cells_numbered};
ghost use Rattle.alpha_complex.specs.Condition.{AreFacesOf};
ghost use Rattle.alpha_complex.specs.Judged.{is_admitted_pair, is_admitted_triple, is_small_cell};
ghost use Rattle.alpha_complex.specs.declared.kinds.Part.TheVariants.{Pairs, Triples};
ghost use Rattle.alpha_complex.specs.Kinds.{kind_of, part_kind};
ghost use Rattle.alpha_complex.specs.Leasts.{AreAlphasOf, AreKnown, AreLeastOf, IsLeastOf, face_at, is_admitted_point};
ghost use Rattle.alpha_complex.specs.Leasts.{kind_at, kind_where, point_face_at};
ghost use Rattle.alpha_complex.specs.Shapes.{shape_of};
ghost use Rattle.alpha_complex.specs.Slots.{shape_seen};
ghost use Rattle.alpha_complex.specs.Told.{TellsFace};

use crate::kinds::{
    Level, Part, kinds_of_part, kinds_of_points, marks, marks_by_threads, part_by_threads,
    points_by_threads,
};
use crate::owns::number_at;
use crate::rounds::{all_least, some_least};
use crate::shape::{Kind, Shape};
use face_list::Faces;
use std::alloc::{AllocError, Global};
use std::thread::Threads;

/// The least alphas at which a face is admitted, and some and all of the cells that contain it are. A number of 2^34
/// or more is no alpha.
#[repr(C)]
#[derive(Clone, Copy, Debug, PartialEq, Eq)]
pub struct FaceAlphas {
    /// The face itself.
    pub admitted: u64,
    /// Some cell that contains it: from here on it is regular, or more.
    pub regular: u64,
    /// All cells that contain it: from here on it is interior.
    pub interior: u64,
}

impl FaceAlphas {
    /// Whether the face is admitted at an alpha.
    pub fn is_admitted(&self, alpha: u64) -> bool
        ensures { result ≡ nat_le self.now.admitted alpha }
    {
        self.admitted <= alpha
    }

    /// The kind of the face at an alpha at which it is admitted.
    pub fn kind(&self, alpha: u64) -> Kind
        ensures { result ≡ kind_at self.now alpha }
    {
        if self.interior <= alpha {
            Kind::Interior
        } else if self.regular <= alpha {
            Kind::Regular
        } else {
            Kind::Singular
        }
    }

    /// The kind of the face at an alpha, where it is admitted.
    pub fn kind_where_admitted(&self, alpha: u64) -> Option<Kind>
        ensures { result ≡ kind_where self.now alpha }
    {
        if self.is_admitted(alpha) {
            Some(self.kind(alpha))
        } else {
            None
        }
    }
}

/// The least alphas of the faces of a complex, each list in the order of the faces: a face is admitted at an alpha
/// exactly where its number is at most it. A point is admitted at every alpha.
#[derive(Drop)]
pub struct Alphas<'a, 'b> {
    /// The faces.
    pub faces: &'a Faces<'b>,
    /// The least alpha at which each pair is admitted.
    pub pairs: Vec<u64>,
    /// The least alpha at which each triple is admitted.
    pub triples: Vec<u64>,
    /// The least alpha at which each cell is Full and within alpha.
    pub cells: Vec<u64>,
}

impl<'a, 'b> Alphas<'a, 'b> {
    // The numbers of a face, of which that of its admission is known, by the cells around it.
    fn with_cells_of(&self, admitted: u64, around: &[u32]) -> FaceAlphas
        requires cells { AreLeastOf is_small_cell self.now.faces.now.cells self.now.cells.items }
        requires numbers { All (λ n. n < length self.now.faces.now.cells) around.now }
        ensures admitted { result.admitted ≡ admitted }
        ensures regular { IsLeastOf
            (λ alpha. list_any (is_small_cell alpha) (cells_numbered self.now.faces.now.cells around.now))
            result.regular }
        ensures interior { IsLeastOf
            (λ alpha. list_all (is_small_cell alpha) (cells_numbered self.now.faces.now.cells around.now))
            result.interior }
    {
        FaceAlphas {
            admitted,
            regular: some_least(self.faces, &self.cells, around),
            interior: all_least(self.faces, &self.cells, around),
        }
    }

    /// The numbers of the point of an index, which is admitted at every alpha.
    pub fn point(&self, index: usize) -> FaceAlphas
        requires known { AreKnown self.now }
        requires index { index < length self.now.faces.now.points }
        ensures numbers { AreAlphasOf is_admitted_point (point_face_at self.now.faces.now.points index) result }
        ensures told { (s : List ℕ) → AreFacesOf s self.now.faces.now →
            TellsFace s (slice_index_or s index 0 ∷ []) result }
    {
        let (_, around) = self.faces.point(index);
        self.with_cells_of(0, around)
    }

    /// The numbers of the pair of an index.
    pub fn pair(&self, index: usize) -> FaceAlphas
        requires known { AreKnown self.now }
        requires index { index < length self.now.faces.now.pairs }
        ensures numbers { AreAlphasOf (is_admitted_pair self.now.faces.now.triples)
            (face_at self.now.faces.now.pairs index) result }
        ensures told { (s : List ℕ) → AreFacesOf s self.now.faces.now →
            TellsFace s (slice_index_or (parts_in 2 (complex s)) index []) result }
    {
        let (_, around) = self.faces.pair(index);
        self.with_cells_of(number_at(&self.pairs, index), around)
    }

    /// The numbers of the triple of an index.
    pub fn triple(&self, index: usize) -> FaceAlphas
        requires known { AreKnown self.now }
        requires index { index < length self.now.faces.now.triples }
        ensures numbers { AreAlphasOf is_admitted_triple (face_at self.now.faces.now.triples index) result }
        ensures told { (s : List ℕ) → AreFacesOf s self.now.faces.now →
            TellsFace s (slice_index_or (parts_in 3 (complex s)) index []) result }
    {
        let (_, around) = self.faces.triple(index);
        self.with_cells_of(number_at(&self.triples, index), around)
    }

    /// The alpha complex for one alpha, a squared radius in sixteenths, below 2^34, as `alpha` gives it: a comparison
    /// for each face, and a look at the cells around each that is admitted. It borrows the faces, and not these
    /// numbers.
    ///
    /// # Errors
    /// Want of memory.
    pub fn shape(&self, alloc: Global, alpha: u64) -> Result<Shape<'a, 'b>, AllocError>
        requires known { AreKnown self.now }
        requires alpha { alpha < 2 ^ 34 }
        ensures points { IfOk result (λ shape. (s : List ℕ) → AreFacesOf s self.now.faces.now →
            (shape_seen shape).points ≡ (shape_of s alpha).points) }
        ensures pairs { IfOk result (λ shape. (s : List ℕ) → AreFacesOf s self.now.faces.now →
            (shape_seen shape).pairs ≡ (shape_of s alpha).pairs) }
        ensures triples { IfOk result (λ shape. (s : List ℕ) → AreFacesOf s self.now.faces.now →
            (shape_seen shape).triples ≡ (shape_of s alpha).triples) }
        ensures cells { IfOk result (λ shape. (s : List ℕ) → AreFacesOf s self.now.faces.now →
            (shape_seen shape).cells ≡ (shape_of s alpha).cells) }
    {
        let level = Level {
            faces: self.faces,
            cells: &self.cells,
            alpha,
        };
        let points = kinds_of_points(alloc, &level)?;
        let pairs = kinds_of_part(alloc, &level, Part::Pairs, &self.pairs)?;
        let triples = kinds_of_part(alloc, &level, Part::Triples, &self.triples)?;
        let cells = marks(alloc, &self.cells, alpha)?;
        Ok(self.with_kinds(alpha, points, pairs, triples, cells))
    }

    /// What `shape` gives, made by several threads, as many as there are processors.
    ///
    /// # Errors
    /// Want of memory.
    pub fn shape_by_threads<R: Threads + Sync>(
        &self,
        rt: &R,
        alloc: Global,
        alpha: u64,
    ) -> Result<Shape<'a, 'b>, AllocError>
        requires known { AreKnown self.now }
        requires alpha { alpha < 2 ^ 34 }
        ensures points { IfOk result (λ shape. (s : List ℕ) → AreFacesOf s self.now.faces.now →
            (shape_seen shape).points ≡ (shape_of s alpha).points) }
        ensures pairs { IfOk result (λ shape. (s : List ℕ) → AreFacesOf s self.now.faces.now →
            (shape_seen shape).pairs ≡ (shape_of s alpha).pairs) }
        ensures triples { IfOk result (λ shape. (s : List ℕ) → AreFacesOf s self.now.faces.now →
            (shape_seen shape).triples ≡ (shape_of s alpha).triples) }
        ensures cells { IfOk result (λ shape. (s : List ℕ) → AreFacesOf s self.now.faces.now →
            (shape_seen shape).cells ≡ (shape_of s alpha).cells) }
    {
        let level = Level {
            faces: self.faces,
            cells: &self.cells,
            alpha,
        };
        let points = points_by_threads(rt, alloc, &level)?;
        let pairs = part_by_threads(rt, alloc, &level, Part::Pairs, &self.pairs)?;
        let triples = part_by_threads(rt, alloc, &level, Part::Triples, &self.triples)?;
        let cells = marks_by_threads(rt, alloc, &self.cells, alpha)?;
        Ok(self.with_kinds(alpha, points, pairs, triples, cells))
    }

    // The alpha complex for one alpha, of which these are the kinds.
    fn with_kinds(
        &self,
        alpha: u64,
        points: Vec<Kind>,
        pairs: Vec<Option<Kind>>,
        triples: Vec<Option<Kind>>,
        cells: Vec<bool>,
    ) -> Shape<'a, 'b>
        requires known { AreKnown self.now }
        requires alpha { alpha < 2 ^ 34 }
        requires points { points.items ≡ map (kind_of alpha) self.now.faces.now.points }
        requires pairs { pairs.items ≡ map (part_kind Pairs self.now.faces.now alpha) self.now.faces.now.pairs }
        requires triples { triples.items ≡ map (part_kind Triples self.now.faces.now alpha) self.now.faces.now.triples }
        requires cells { cells.items ≡ map (λ n. nat_le n alpha) self.now.cells.items }
        ensures points { (s : List ℕ) → AreFacesOf s self.now.faces.now →
            (shape_seen result).points ≡ (shape_of s alpha).points }
        ensures pairs { (s : List ℕ) → AreFacesOf s self.now.faces.now →
            (shape_seen result).pairs ≡ (shape_of s alpha).pairs }
        ensures triples { (s : List ℕ) → AreFacesOf s self.now.faces.now →
            (shape_seen result).triples ≡ (shape_of s alpha).triples }
        ensures cells { (s : List ℕ) → AreFacesOf s self.now.faces.now →
            (shape_seen result).cells ≡ (shape_of s alpha).cells }
    {
        Shape {
            faces: self.faces,
            points,
            pairs,
            triples,
            cells,
        }
    }
}
