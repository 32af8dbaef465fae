//! The cells of a bucket at numbered places, with a star for each vertex: the numbers of the places of its cells.
//!
//! The definitions stand in `specs/`: the bucket of a point, an exchange of cells in a list in order, and when stars
//! are those of the cells. Where the place across a facet is likely to be is kept too; no definition speaks of it.
//!
//! ```
//! let grid = Grid::new(4)?;
//! let mut cells = Cells::new(alloc).placed(grid, grid.bucket_of(a));
//! let mut stock = Stock::new(alloc);
//! let matched = Matched::of(alloc, &mut stock, grid, &[], &[cell])?;
//! let plan = cells.plan(alloc, &mut stock, &[], &[cell], &matched, false)?;  // all memory is taken here
//! cells.carry_out(plan);                        // the cell is there, if it has a point in the bucket
//! for cell in cells.cells_at(a) {               // ascending; `cells_around` gives them at once, in any order
//!     ..
//! }
//! ```
#![tactic(auto)]

mod adding;
mod around;
mod at_once;
mod cells;
mod coming;
mod doors;
mod free;
mod guesses;
mod homes;
mod joined;
mod joins;
mod key_lists;
mod keys;
mod links;
mod marks;
mod matched;
mod moves;
mod numbers;
mod order;
mod parts;
mod plan;
mod planner;
mod slots;
mod star;
mod steps;
mod stock;
mod turns;
mod vacant;
mod vertices;
mod writes;

pub use cells::Cells;
pub use matched::Matched;
pub use numbers::as_number;
pub use plan::Plan;
pub use star::{BucketCells, Star, StarCells};
pub use steps::Steps;
pub use stock::Stock;
