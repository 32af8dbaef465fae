//! Labels of cells: those that chains join have one.

ghost use Rattle.std.specs.Prelude.{◌≡◌, ◌<◌, [], All, length, slice_index_or, IfOk};
ghost use Rattle.face_list.specs.Tables.{cells_numbered};
ghost use Rattle.std.specs.List.{range_with_len};
ghost use Rattle.solid_parts.specs.Labels.{AreLabels};

use crate::groups::{flatten, join_all};
use face_list::{Faces, number_of};
use std::alloc::{AllocError, Global};

/// The numbers below a count.
///
/// # Errors
/// Want of memory.
pub fn numbers_below(alloc: Global, count: usize) -> Result<Vec<u32>, AllocError>
    ensures { IfOk result (λ v. v.items ≡ range_with_len 0 count) }
{
    let mut numbers = Vec::with_capacity(alloc, count)?;
    for index in 0..count {
        let number = number_of(index)?;
        numbers.push(number)?;
    }
    Ok(numbers)
}

/// The numbers of the cells around the triple of an index.
pub fn around<'a>(faces: &'a Faces<'_>, index: usize) -> &'a [u32]
    requires { index < length faces.now.triples }
    ensures cells { cells_numbered faces.now.cells result.now ≡ (slice_index_or faces.now.triples index ([], [])).1 }
    ensures below { All (λ n. n < length faces.now.cells) result.now }
{
    let (_, numbers) = faces.triple(index);
    numbers
}

/// The labels of the cells: marked ones have one where chains of marked cells join them.
///
/// # Errors
/// Want of memory.
pub fn labels_of(alloc: Global, faces: &Faces, marks: &[bool]) -> Result<Vec<u32>, AllocError>
    requires { length marks.now ≡ length faces.now.cells }
    ensures { IfOk result (λ labels. AreLabels faces.now marks.now (length faces.now.triples) labels.items) }
{
    let mut leads = numbers_below(alloc, faces.cells().len())?;
    for index in 0..faces.triples().len() {
        join_all(&mut leads, marks, around(faces, index));
    }
    flatten(&mut leads);
    Ok(leads)
}
