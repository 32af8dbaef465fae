//! The least alphas of the faces, made by several threads.

ghost use Rattle.std.specs.Prelude.{◌≡◌, ◌<◌, length, IfOk};
ghost use Rattle.face_list.specs.Tables.{cell_at};
ghost use Rattle.alpha_complex.specs.Judged.{is_small_cell, is_admitted_triple, is_admitted_pair};
ghost use Rattle.alpha_complex.specs.Leasts.{AreLeastOf, AreOrdered, AreHigher, IsLeastOf, face_at};

use crate::higher::HigherAlphas;
use crate::least::{pair_least, triple_least};
use crate::owns::{BEYOND, cell_least_of};
use crate::places::places_of;
use face_list::Faces;
use point_order::Cell;
use rayon::prelude::*;
use std::alloc::{AllocError, Global};
use std::thread::Threads;

/// The least alpha of each cell.
pub(crate) fn leasts_of_cells<R: Threads + Sync>(
    rt: &R,
    alloc: Global,
    cells: &[Cell],
) -> Result<Vec<u64>, AllocError>
    ensures { IfOk result (λ v. AreLeastOf is_small_cell cells.now v.items) }
{
    let mut leasts = vec![in alloc; BEYOND; cells.len()]?;
    par_for_each_mut(
        rt,
        &mut leasts,
        |index: usize, least: &mut u64|
            requires { index < length cells.now }
            ensures { IsLeastOf (λ alpha. is_small_cell alpha (cell_at cells.entry.now index)) least.new }
        {
            *least = cell_least_of(&cells[index]);
        },
    );
    Ok(leasts)
}

/// The least alpha at which each triple is admitted, by the numbers of the cells.
pub(crate) fn leasts_of_triples<R: Threads + Sync>(
    rt: &R,
    alloc: Global,
    faces: &Faces,
    cells: &[u64],
) -> Result<Vec<u64>, AllocError>
    requires { AreLeastOf is_small_cell faces.now.cells cells.now }
    ensures { IfOk result (λ v. AreLeastOf is_admitted_triple faces.now.triples v.items) }
{
    let mut leasts = vec![in alloc; BEYOND; faces.triples().len()]?;
    par_for_each_mut(
        rt,
        &mut leasts,
        |index: usize, least: &mut u64|
            requires { AreLeastOf is_small_cell faces.now.cells cells.now × (index < length faces.now.triples) }
            ensures { IsLeastOf (λ alpha. is_admitted_triple alpha (face_at faces.entry.now.triples index)) least.new }
        {
            *least = triple_least(faces, cells, index);
        },
    );
    Ok(leasts)
}

// The least alpha at which each pair is admitted.
fn leasts_by_higher<R: Threads + Sync>(
    rt: &R,
    alloc: Global,
    higher: &HigherAlphas,
) -> Result<Vec<u64>, AllocError>
    requires { AreHigher higher.now }
    ensures { IfOk result (λ v. AreLeastOf (is_admitted_pair higher.now.faces.now.triples) higher.now.faces.now.pairs
        v.items) }
{
    let mut leasts = vec![in alloc; BEYOND; higher.faces.pairs().len()]?;
    par_for_each_mut(
        rt,
        &mut leasts,
        |index: usize, least: &mut u64|
            requires { AreHigher higher.now × (index < length higher.now.faces.now.pairs) }
            ensures { IsLeastOf (λ alpha. is_admitted_pair higher.entry.now.faces.now.triples alpha
                (face_at higher.entry.now.faces.now.pairs index)) least.new }
        {
            *least = pair_least(higher, index);
        },
    );
    Ok(leasts)
}

/// The least alpha at which each pair is admitted, by the numbers of the cells and of the triples.
pub(crate) fn leasts_of_pairs<R: Threads + Sync>(
    rt: &R,
    alloc: Global,
    faces: &Faces,
    cells: &[u64],
    triples: &[u64],
) -> Result<Vec<u64>, AllocError>
    requires order { AreOrdered faces.now.triples }
    requires cells { AreLeastOf is_small_cell faces.now.cells cells.now }
    requires triples { AreLeastOf is_admitted_triple faces.now.triples triples.now }
    ensures { IfOk result (λ v. AreLeastOf (is_admitted_pair faces.now.triples) faces.now.pairs v.items) }
{
    let places = places_of(alloc, faces)?;
    let higher = HigherAlphas {
        faces,
        cells,
        triples,
        places: &places,
    };
    leasts_by_higher(rt, alloc, &higher)
}
