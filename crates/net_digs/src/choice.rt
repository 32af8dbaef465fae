//! Which of the points that wait are put in. No contract speaks of it but that all are, where all are chosen.

ghost use Rattle.std.specs.Prelude.{◌≡◌, IsTrue};
ghost use Rattle.net_digs.specs.declared.choice.Choice.TheVariants.{All};

use crate::turns::Turn;

/// All points, or those that come before so much is done, or some of those that were given up more than once.
#[derive(Clone, Copy)]
pub enum Choice {
    All,
    Before(usize),
    Sown,
}

// What a try costs beside the cells that are found.
const TRY: usize = 10;

impl Choice {
    /// Whether a point is passed over, where so much was done.
    pub fn passes_over(self, turn: &Turn, done: usize) -> bool
        ensures { IsTrue result → ¬ (self ≡ All) }
    {
        match self {
            Choice::All => false,
            Choice::Before(most) => done >= most,
            Choice::Sown => !turn.is_sown(),
        }
    }
}

/// How much was done after a hole of so many cells and sides was dug.
pub fn done_after(done: usize, gone: usize, rim: usize) -> usize {
    done.saturating_add(gone)
        .saturating_add(rim)
        .saturating_add(TRY)
}
