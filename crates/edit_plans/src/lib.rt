//! What an edit changes, found by turns over the buckets in hand.
//!
//! The definitions stand in `specs/`.
//!
//! ```
//! let mut planner = Planner::begin(edit);
//! let plan = loop {
//!     match planner.advance(alloc, &mut hold)? {
//!         PlanTurn::Done(plan) => break plan,  // its reply, the cells that go, and those that come
//!         PlanTurn::Need(b, next) => {         // a bucket that is needed
//!             hold.put(b, ..);
//!             planner = next;
//!         }
//!     }
//! };
//! let plan = plan_of(alloc, &mut mesh, edit)?; // where every bucket is in hand: the mesh is then as before
//! ```
#![tactic(auto)]

mod in_mesh;
pub mod laws;
mod leaving;
mod moving;
mod plan;
mod planner;

pub use in_mesh::plan_of;
pub use plan::{Landed, Plan, PlanTurn, Planner};
