//! Why nothing is made.

ghost use Rattle.std.specs.Prelude.{◌≡◌};
ghost use Rattle.mesh_rows.specs.declared.stop.Stop.TheVariants.{Memory};

use std::alloc::AllocError;

/// Why nothing is made.
#[derive(Clone, Copy)]
pub enum Stop {
    /// Memory was wanting.
    Memory,
    /// A coordinate is not 0 to 16383.
    Outside,
    /// No four of the points are independent.
    Flat,
    /// 32 bits do not number the points or the cells.
    Full,
}

impl From<AllocError> for Stop {
    ghost from_gives = { λ _ e. e ≡ Memory };

    fn from(_: AllocError) -> Self {
        Stop::Memory
    }
}
