//! The board: what passes do to a table of buckets with words, as a machine over plain events.
//!
//! An event is one atomic step of one pass. The definitions stand in `specs/`: what a board shows, when it is good, and
//! what each event makes of it. It takes part in no run.
//!
//! ```
//! let mut board = Board::new(alloc, mesh, 2, 10)?;
//! // Done, Taken with the word found, or Short: its condition fails
//! let played = board.play(alloc, &Event::Claim(0, 3))?;
//! ```
#![tactic(auto)]

mod board;
mod edits;
mod event;
pub mod laws;
mod trial;

pub use board::Board;
pub use event::{Event, Played};
