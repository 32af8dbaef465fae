//! What the running table of a mesh is made of: its words and slots, the rule that holds between any two steps of its
//! passes, the steps that the rule allows, and the hands of a pass.
//!
//! The definitions stand in `specs/`: the table as a board (`Faces`), the rule and how the table came to be as it is
//! (`Rule`, `Reached`), what each step makes of the pass that takes it (`Plays`), its trail and what it carries.
//!
//! ```
//! let (board, place) = board_for(alloc, mesh, 2, 1000)?;                // and the seat of the first pass
//! let (hold, order) = empty_hands(alloc, grid)?;
//! let mut hands = Hands { place, hold, order, first: 0 };
//! take_in(&board, &mut hands.place, &mut hands.hold, ..)?;              // else the word of the pass that has it
//! let number = commit_at(&board, &mut hands.place, tag, edit, reply);   // with all in hand that the edit touches
//! let_go(&board, &mut hands);
//! let mut closed = board.close_with(hands.place);
//! gather(&mut closed, &mut hold);                                       // all buckets, from the seat of all parts
//! ```
#![tactic(auto)]

mod hands;
mod homing;
pub mod laws;
mod laying;
mod plays;
mod slot;
mod steps;
mod view;

pub use hands::{Hands, let_go, look_and_let_go, take_in};
pub use homing::gather;
pub use laying::{board_for, empty_hands};
pub use plays::Together;
pub use slot::Slot;
pub use steps::{commit_at, look_at, part};
pub use view::{Act, Board, Child, Key, Law, Place, View};
