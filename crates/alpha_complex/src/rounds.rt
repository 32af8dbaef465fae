//! The least alphas at which some and all of the cells around a face are Full and within alpha.

ghost use Rattle.std.specs.Prelude.{◌≡◌, ◌<◌, All, length, max};
ghost use Rattle.std.specs.List.{list_all, list_any};
ghost use Rattle.face_list.specs.Tables.{cell_at, cells_numbered};
ghost use Rattle.alpha_complex.specs.Judged.{is_small_cell};
ghost use Rattle.alpha_complex.specs.Leasts.{AreLeastOf, IsLeastOf};

use crate::owns::{BEYOND, number_at};
use face_list::Faces;

// The least alpha of the cell of a number.
fn least_at(faces: &Faces, cells: &[u64], number: u32) -> u64
    requires cells { AreLeastOf is_small_cell faces.now.cells cells.now }
    requires number { number < length faces.now.cells }
    ensures { IsLeastOf (λ alpha. is_small_cell alpha (cell_at faces.now.cells number)) result }
{
    number_at(cells, number as usize)
}

/// The least alpha at which some of the cells of some numbers is Full and within alpha.
pub(crate) fn some_least(faces: &Faces, cells: &[u64], around: &[u32]) -> u64
    requires cells { AreLeastOf is_small_cell faces.now.cells cells.now }
    requires numbers { All (λ n. n < length faces.now.cells) around.now }
    ensures { IsLeastOf (λ alpha. list_any (is_small_cell alpha) (cells_numbered faces.now.cells around.now)) result }
{
    let mut least = BEYOND;
    for number in around {
        least = least.min(least_at(faces, cells, *number));
    }
    least
}

// The greater of two numbers.
fn greater(m: u64, n: u64) -> u64
    ensures { result ≡ max m n }
{
    if m < n { n } else { m }
}

/// The least alpha at which all of the cells of some numbers are Full and within alpha.
pub(crate) fn all_least(faces: &Faces, cells: &[u64], around: &[u32]) -> u64
    requires cells { AreLeastOf is_small_cell faces.now.cells cells.now }
    requires numbers { All (λ n. n < length faces.now.cells) around.now }
    ensures { IsLeastOf (λ alpha. list_all (is_small_cell alpha) (cells_numbered faces.now.cells around.now)) result }
{
    let mut least = 0;
    for number in around {
        least = greater(least, least_at(faces, cells, *number));
    }
    least
}
