//! Gates: whoever makes edits tells a gate of the moments of each, and a gate may keep it there. A test holds two workers
//! at the same moment by one, and so sees that they work side by side.
//!
//! ```
//! gate.pass(worker, Moment::Ready);     // all that the edit needs is in hand
//! let gate = OpenGate;                  // keeps nobody
//! ```
#![tactic(auto)]

mod gate;

pub use gate::{Gate, Moment, OpenGate};
