//! Lists of cells of four points that take 16 bytes a cell, half of what the cells themselves take.
//!
//! A list knows points by numbers of 32 bits, and keeps each cell as four of these. Contracts see it as its cells.
//!
//! ```
//! let mut cells = QuadList::new(alloc);
//! cells.know(point)?;                              // number 0, and so on
//! cells.push(quad, Places { a: 0, b: 1, c: 2, d: 3 })?;    // where its points are likely to be known
//! let quad = cells.at(0);
//! ```
#![tactic(auto)]

mod known;
mod list;

pub use known::Places;
pub use list::QuadList;
