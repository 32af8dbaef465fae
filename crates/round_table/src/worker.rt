//! Workers.

use crate::pass::Pass;

/// A worker of a round: its pass, and what it makes of what it claims.
#[derive(Drop)]
pub struct Worker<T, S> {
    pub pass: Pass<T>,
    pub state: S,
}
