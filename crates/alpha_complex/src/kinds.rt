//! The kinds of faces for one alpha, by the cells around them.

ghost use Rattle.std.specs.Prelude.{◌≡◌, ◌<◌, All, length, map, nat_le, slice_index, IfOk};
ghost use Rattle.face_list.specs.Tables.{cells_numbered};
ghost use Rattle.alpha_complex.specs.Admitted.{kind_by};
ghost use Rattle.alpha_complex.specs.Judged.{is_small_cell};
ghost use Rattle.alpha_complex.specs.Kinds.{AreLeastOfPart, IsLevel, kind_of, part_kind, faces_of_part};
ghost use Rattle.alpha_complex.specs.Leasts.{face_at, point_face_at};

use crate::alone::each_in_turn;
use crate::owns::number_at;
use crate::rounds::{all_least, some_least};
use crate::shape::Kind;
use face_list::Faces;
use rayon::prelude::*;
use std::alloc::{AllocError, Global};
use std::thread::Threads;

/// The faces of a complex, the least alphas of its cells, and an alpha.
#[derive(Clone, Copy)]
pub struct Level<'a, 'b> {
    pub faces: &'a Faces<'b>,
    pub cells: &'a [u64],
    pub alpha: u64,
}

/// The pairs or the triples.
#[derive(Clone, Copy)]
pub enum Part {
    Pairs,
    Triples,
}

// How many faces of a part there are.
fn count_of(faces: &Faces, part: Part) -> usize
    ensures { result ≡ length (faces_of_part part faces.now) }
{
    match part {
        Part::Pairs => faces.pairs().len(),
        Part::Triples => faces.triples().len(),
    }
}

// The kind of a face, by the numbers of the cells around it.
fn kind_around(level: &Level, around: &[u32]) -> Kind
    requires level { IsLevel level.now }
    requires numbers { All (λ n. n < length level.now.faces.now.cells) around.now }
    ensures { result ≡ kind_by (is_small_cell level.now.alpha) (cells_numbered level.now.faces.now.cells around.now) }
{
    if all_least(level.faces, level.cells, around) <= level.alpha {
        Kind::Interior
    } else if some_least(level.faces, level.cells, around) <= level.alpha {
        Kind::Regular
    } else {
        Kind::Singular
    }
}

// The kind of the point of an index.
fn kind_of_point(level: &Level, index: usize) -> Kind
    requires level { IsLevel level.now }
    requires index { index < length level.now.faces.now.points }
    ensures { result ≡ kind_of level.now.alpha (point_face_at level.now.faces.now.points index) }
{
    let (_, around) = level.faces.point(index);
    kind_around(level, around)
}

// The kind of the face of an index.
fn kind_of_face(level: &Level, part: Part, index: usize) -> Kind
    requires level { IsLevel level.now }
    requires index { index < length (faces_of_part part level.now.faces.now) }
    ensures { result ≡ kind_of level.now.alpha (face_at (faces_of_part part level.now.faces.now) index) }
{
    let around = match part {
        Part::Pairs => level.faces.pair(index).1,
        Part::Triples => level.faces.triple(index).1,
    };
    kind_around(level, around)
}

// The same, where the face is admitted.
fn kind_where_admitted(level: &Level, part: Part, leasts: &[u64], index: usize) -> Option<Kind>
    requires level { IsLevel level.now }
    requires leasts { AreLeastOfPart part level.now.faces.now leasts.now }
    requires index { index < length (faces_of_part part level.now.faces.now) }
    ensures { result ≡ part_kind part level.now.faces.now level.now.alpha
        (face_at (faces_of_part part level.now.faces.now) index) }
{
    if number_at(leasts, index) <= level.alpha {
        Some(kind_of_face(level, part, index))
    } else {
        None
    }
}

/// The kinds of the points, which are all admitted.
pub(crate) fn kinds_of_points(alloc: Global, level: &Level) -> Result<Vec<Kind>, AllocError>
    requires { IsLevel level.now }
    ensures { IfOk result (λ v. v.items ≡ map (kind_of level.now.alpha) level.now.faces.now.points) }
{
    let mut kinds = vec![in alloc; Kind::Singular; level.faces.points().len()]?;
    each_in_turn(
        &mut kinds,
        |index: usize, kind: &mut Kind|
            requires { IsLevel level.now × (index < length level.now.faces.now.points) }
            ensures { kind.new ≡ kind_of level.entry.now.alpha (point_face_at level.entry.now.faces.now.points index) }
        {
            *kind = kind_of_point(level, index);
        },
    );
    Ok(kinds)
}

/// The kinds of the faces of a part that are admitted, and none at the others.
pub(crate) fn kinds_of_part(
    alloc: Global,
    level: &Level,
    part: Part,
    leasts: &[u64],
) -> Result<Vec<Option<Kind>>, AllocError>
    requires level { IsLevel level.now }
    requires leasts { AreLeastOfPart part level.now.faces.now leasts.now }
    ensures { IfOk result (λ v. v.items
        ≡ map (part_kind part level.now.faces.now level.now.alpha) (faces_of_part part level.now.faces.now)) }
{
    let mut kinds = vec![in alloc; None; count_of(level.faces, part)]?;
    each_in_turn(
        &mut kinds,
        |index: usize, kind: &mut Option<Kind>|
            requires { IsLevel level.now × AreLeastOfPart part level.now.faces.now leasts.now
                × (index < length (faces_of_part part level.now.faces.now)) }
            ensures { kind.new ≡ part_kind part level.entry.now.faces.now level.entry.now.alpha
                (face_at (faces_of_part part level.entry.now.faces.now) index) }
        {
            *kind = kind_where_admitted(level, part, leasts, index);
        },
    );
    Ok(kinds)
}

/// Which of the numbers are at most alpha.
pub(crate) fn marks(alloc: Global, leasts: &[u64], alpha: u64) -> Result<Vec<bool>, AllocError>
    ensures { IfOk result (λ v. v.items ≡ map (λ n. nat_le n alpha) leasts.now) }
{
    leasts.iter().map(|least| *least <= alpha).collect(alloc)
}

/// What `kinds_of_points` gives, made by several threads.
pub(crate) fn points_by_threads<R: Threads + Sync>(
    rt: &R,
    alloc: Global,
    level: &Level,
) -> Result<Vec<Kind>, AllocError>
    requires { IsLevel level.now }
    ensures { IfOk result (λ v. v.items ≡ map (kind_of level.now.alpha) level.now.faces.now.points) }
{
    let mut kinds = vec![in alloc; Kind::Singular; level.faces.points().len()]?;
    par_for_each_mut(
        rt,
        &mut kinds,
        |index: usize, kind: &mut Kind|
            requires { IsLevel level.now × (index < length level.now.faces.now.points) }
            ensures { kind.new ≡ kind_of level.entry.now.alpha (point_face_at level.entry.now.faces.now.points index) }
        {
            *kind = kind_of_point(level, index);
        },
    );
    Ok(kinds)
}

/// What `kinds_of_part` gives, made by several threads.
pub(crate) fn part_by_threads<R: Threads + Sync>(
    rt: &R,
    alloc: Global,
    level: &Level,
    part: Part,
    leasts: &[u64],
) -> Result<Vec<Option<Kind>>, AllocError>
    requires level { IsLevel level.now }
    requires leasts { AreLeastOfPart part level.now.faces.now leasts.now }
    ensures { IfOk result (λ v. v.items
        ≡ map (part_kind part level.now.faces.now level.now.alpha) (faces_of_part part level.now.faces.now)) }
{
    let mut kinds = vec![in alloc; None; count_of(level.faces, part)]?;
    par_for_each_mut(
        rt,
        &mut kinds,
        |index: usize, kind: &mut Option<Kind>|
            requires { IsLevel level.now × AreLeastOfPart part level.now.faces.now leasts.now
                × (index < length (faces_of_part part level.now.faces.now)) }
            ensures { kind.new ≡ part_kind part level.entry.now.faces.now level.entry.now.alpha
                (face_at (faces_of_part part level.entry.now.faces.now) index) }
        {
            *kind = kind_where_admitted(level, part, leasts, index);
        },
    );
    Ok(kinds)
}

/// What `marks` gives, made by several threads.
pub(crate) fn marks_by_threads<R: Threads + Sync>(
    rt: &R,
    alloc: Global,
    leasts: &[u64],
    alpha: u64,
) -> Result<Vec<bool>, AllocError>
    ensures { IfOk result (λ v. v.items ≡ map (λ n. nat_le n alpha) leasts.now) }
{
    let mut marks = vec![in alloc; false; leasts.len()]?;
    par_for_each_mut(
        rt,
        &mut marks,
        |place: usize, mark: &mut bool|
            requires { place < length leasts.now }
            ensures { mark.new ≡ nat_le (slice_index leasts.entry.now place) alpha }
        {
            *mark = leasts[place] <= alpha;
        },
    );
    Ok(marks)
}
