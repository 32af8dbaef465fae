//! The least alphas at which a triple and a pair are admitted.

ghost use Rattle.std.specs.Prelude.{◌≡◌, ◌<◌, length};
ghost use Rattle.alpha_complex.specs.Judged.{is_small_cell, is_admitted_triple, is_admitted_pair};
ghost use Rattle.alpha_complex.specs.Leasts.{AreLeastOf, AreHigher, IsLeastOf, face_at};

use crate::covers::cover_least;
use crate::higher::HigherAlphas;
use crate::owns::own_least;
use crate::rounds::some_least;
use face_list::Faces;

/// The least alpha at which the triple of an index is admitted, by the numbers of the cells.
pub(crate) fn triple_least(faces: &Faces, cells: &[u64], index: usize) -> u64
    requires cells { AreLeastOf is_small_cell faces.now.cells cells.now }
    requires index { index < length faces.now.triples }
    ensures { IsLeastOf (λ alpha. is_admitted_triple alpha (face_at faces.now.triples index)) result }
{
    let (tri, around) = faces.triple(index);
    let regular = some_least(faces, cells, around);
    let itself = own_least(tri.points(), faces.cells(), around);
    regular.min(itself)
}

/// The least alpha at which the pair of an index is admitted, by those of the cells and of the triples.
pub(crate) fn pair_least(higher: &HigherAlphas, index: usize) -> u64
    requires higher { AreHigher higher.now }
    requires index { index < length higher.now.faces.now.pairs }
    ensures { IsLeastOf (λ alpha. is_admitted_pair higher.now.faces.now.triples alpha
        (face_at higher.now.faces.now.pairs index)) result }
{
    let (pair, around) = higher.faces.pair(index);
    let regular = some_least(higher.faces, higher.cells, around);
    let itself = own_least(pair.points(), higher.faces.cells(), around);
    let cover = cover_least(higher, &pair, around);
    regular.min(itself.min(cover))
}
