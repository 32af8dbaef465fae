//! The least alphas of faces by the cells around them, which a table names.

ghost use Rattle.std.specs.Prelude.{◌≡◌, ◌<◌, All, length, max, slice_index_or, IfOk};
ghost use Rattle.face_list.specs.Tables.{IsTable};
ghost use Rattle.mesh_rows.specs.Around.{AreAlphasAround, AreLeastOfAll, AreLeastOfSome, IsAround, numbers_at};

use alpha_complex::FaceAlphas;
use face_list::Table;
use std::alloc::{AllocError, Global};

// No alpha is as great.
const BEYOND: u64 = 1 << 34;

// The alpha of a cell.
fn alpha_of(cells: &[u64], cell: u32) -> u64
    requires { cell < length cells.now }
    ensures { result ≡ slice_index_or cells.now cell 0 }
{
    cells[cell as usize]
}

// The least of the numbers of some cells: from it on some of these pass.
fn least_among(cells: &[u64], around: &[u32]) -> u64
    requires { All (λ n. n < length cells.now) around.now }
    ensures { AreLeastOfSome cells.now around.now result }
{
    let mut least = BEYOND;
    for number in around {
        least = least.min(alpha_of(cells, *number));
    }
    least
}

// The greater of two numbers.
fn greater(m: u64, n: u64) -> u64
    ensures { result ≡ max m n }
{
    if m < n { n } else { m }
}

// The greatest: from it on all do.
fn most_among(cells: &[u64], around: &[u32]) -> u64
    requires { All (λ n. n < length cells.now) around.now }
    ensures { AreLeastOfAll cells.now around.now result }
{
    let mut most = 0;
    for number in around {
        most = greater(most, alpha_of(cells, *number));
    }
    most
}

// The numbers of the face of an index, of which that of its admission is known.
fn alphas_at<K: Copy>(table: &Table<K>, admitted: u64, cells: &[u64], index: usize) -> FaceAlphas
    requires table { IsTable (length cells.now) table.now }
    requires index { index < length table.now.keys.items }
    ensures { IsAround cells.now (numbers_at table.now index) admitted result }
{
    let (_, around) = table.face(index);
    FaceAlphas {
        admitted,
        regular: least_among(cells, around),
        interior: most_among(cells, around),
    }
}

/// The numbers of the faces of a table, of which those of their admission are known, and those of the cells.
///
/// # Errors
/// Want of memory.
pub(crate) fn alphas_around<K: Copy>(
    alloc: Global,
    table: &Table<K>,
    admitted: Vec<u64>,
    cells: &[u64],
) -> Result<Vec<FaceAlphas>, AllocError>
    requires table { IsTable (length cells.now) table.now }
    requires admitted { length admitted.items ≡ length table.now.keys.items }
    ensures { IfOk result (λ v. AreAlphasAround cells.now table.now admitted.items v.items) }
{
    let count = admitted.len();
    let mut alphas = Vec::with_capacity(alloc, count)?;
    for index in 0..count {
        alphas.push(alphas_at(table, admitted[index], cells, index))?;
    }
    Ok(alphas)
}
