//! Digs in a net of cells: a walk to a cell in conflict with a point, the cavity that the point takes, its boundary,
//! and the cells that come; stars of points and what refills them; and the complex of a cloud by one thread.
//!
//! ```
//! let cells = complex_of_points(alloc, &points)?;  // ascending solid points; the cells sorted
//! let gone = cells_taken(alloc, &points, p)?;      // those that a new point takes away
//! ```
#![tactic(auto)]

mod arrive;
mod behind_all;
mod choice;
mod desk;
mod dig;
mod grow;
mod judge;
mod marking;
mod opening;
mod ranked;
mod refill;
mod star;
mod turns;
mod walk;

pub use arrive::{arrived, filled_hole, taken_back};
pub use behind_all::cells_behind;
pub use choice::Choice;
pub use desk::Desk;
pub use dig::{Hole, hole_of};
pub use grow::{cells_of, cells_taken, complex_of_points, net_of_points, put_points, take_all};
pub use judge::first_in_conflict;
pub use marking::Marks;
pub use opening::{cells_of_four, four_of};
pub use ranked::ranked_by_threads;
pub use refill::{fill, make_room};
pub use star::{give_back, star_of};
pub use turns::{Turn, turns_of};
pub use walk::{walked_from, walked_to};
