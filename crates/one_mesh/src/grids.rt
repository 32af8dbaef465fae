//! The grid for one thread.

ghost use Rattle.std.specs.Prelude.{◌≡◌, ◌<◌, ◌≤◌, true};
ghost use Rattle.bucket_grid.specs.Grids.{is_grid_size};

use bucket_grid::Grid;

// The grid of a size that a grid may have.
fn grid_of(size: u32) -> Grid
    requires { is_grid_size size ≡ true }
    ensures { result ≡ size }
{
    match Grid::new(size) {
        Ok(grid) => grid,
        Err(_) => unreachable!(),
    }
}

/// The grid that suits a mesh which one thread edits, where it is to have about so many points. Buckets are there to be
/// claimed by threads side by side: one thread is quicker with few of them, since a cell stands in the bucket of each
/// of its vertices.
pub fn grid_for(points: usize) -> Grid
    ensures few { points < 16384 → result ≡ 1 }
    ensures many { 16384 ≤ points → result ≡ 2 }
{
    if points < 16384 {
        grid_of(1)
    } else {
        grid_of(2)
    }
}
