//! The complex of a set of points by trial of all quadruples and triples: the plain program of the definition.
//!
//! It is slow, since it tries each four and each three of the points against all of them, and it shares nothing with
//! the search for cavities. It serves as the other program beside which that one is tested.
//!
//! ```
//! let cells = complex_by_trial(alloc, &points)?;  // ascending points; the cells sorted
//! ```
#![tactic(auto)]

mod tests_of_cells;
mod trial;

pub use trial::complex_by_trial;
