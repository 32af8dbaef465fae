//! Removal by refilled holes: the cells that go when a point is taken, and those that come.
//!
//! The cells at the point go. Those that come have only points of its link, the points that some cell joins to it; and
//! they are the cells that the point takes away from the complex of any solid set between its link and the rest. So a
//! `Refill` finds what the point takes away from the complex of the link, or where the link is flat, of the link and
//! the points across from it. It wraps the hole that the cells at the point leave (`gift_wrap`); or where one of them
//! is Open, or the link is large, it makes that complex. Where these points are flat too, the rest is.
//! `docs/GEOMETRY.md` tells the laws. The definitions stand in `specs/`.
//!
//! ```
//! let mut refill = Refill::start(alloc, v)?;      // v is a point, and its bucket is in hand
//! loop {
//!     match refill.advance(alloc, &hold)? {
//!         RefillTurn::Done(change) => break,      // change.gone are the cells at v, change.fresh those that come
//!         RefillTurn::Flat => break,              // without v no four points are independent
//!         RefillTurn::Need(b) => hold.put(b, ..), // a bucket that the removal has to have
//!     }
//! }
//! ```
#![tactic(auto)]

pub mod laws;
mod near;
mod refill;

pub use refill::{Refill, RefillTurn};
