//! The cells that are admitted at an alpha.

ghost use Rattle.std.specs.Prelude.{◌≡◌, ◌<◌, ◌^◌, map, IfOk};
ghost use Rattle.alpha_complex.specs.Judged.{is_small_cell};

use point_order::Cell;
use small_spheres::cell_within;
use std::alloc::{AllocError, Global};

// Whether the cell is Full and within alpha.
fn is_small(cell: &Cell, alpha: u64) -> bool
    requires { alpha < 2 ^ 34 }
    ensures { result ≡ is_small_cell alpha cell.now }
{
    match *cell {
        Cell::Full(quad) => {
            let (a, b, c, d) = quad.corners();
            cell_within(a, b, c, d, alpha)
        }
        Cell::Open(_) => false,
    }
}

/// Which of the cells are Full and within alpha.
///
/// # Errors
/// Want of memory.
pub fn marks_of(alloc: Global, cells: &[Cell], alpha: u64) -> Result<Vec<bool>, AllocError>
    requires { alpha < 2 ^ 34 }
    ensures { IfOk result (λ v. v.items ≡ map (is_small_cell alpha) cells.now) }
{
    let mut marks = Vec::with_capacity(alloc, cells.len())?;
    for cell in cells {
        marks.push(is_small(cell, alpha))?;
    }
    Ok(marks)
}
