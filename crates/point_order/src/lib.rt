//! Points of a cube of whole numbers, in the order of their keys, and the cells
//! and facets of a Delaunay complex of them.
//!
//! The definitions that all crates above share stand in `specs/`: orientation, the lifted height and determinant,
//! solid sets, Full and Open cells, the complex of a set, and conflict.
//!
//! ```
//! let a = Point::new(0, 0, 2)?;       // refused exactly outside 0 to 16383
//! let cell = Cell::full(d, b, a, c);  // four distinct points in any order; `cell.points()` ascends
//! for facet in &cell.facets() { .. }  // facet i lacks point i
//! println!(rt; "{cell}")?;            // [(0, 0, 0), (0, 0, 2), (0, 2, 0), (2, 0, 0)]
//! ```
#![tactic(auto)]

pub mod cell;
pub mod laws;
mod on_facet;
mod order;
mod point;
mod step;
mod text;

pub use cell::{Cell, Facet, Pair, Quad, Tri};
pub use order::{cells_in_order, has_cell, points_in_order};
pub use point::{OutOfRange, Point};
pub use step::{Normal, Step};
