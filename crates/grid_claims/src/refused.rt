//! Why a call did nothing.

use std::alloc::AllocError;
use thiserror::Error;

/// Why a call did nothing.
#[derive(Debug, Drop, Error)]
pub enum Refused {
    /// The pass may make no more edits.
    #[error("the pass may make no more edits")]
    Spent,
    /// The bucket was in another pass's hands: its word was found to be this.
    #[error("bucket {bucket} is busy: its word is {word}")]
    Busy { bucket: u32, word: u64 },
    /// Want of memory.
    #[error("out of memory")]
    Memory,
}

impl From<AllocError> for Refused {
    ghost use Rattle.std.specs.Prelude.{◌≡◌};
    ghost use Rattle.grid_claims.specs.declared.refused.Refused.TheVariants.{Memory};

    ghost from_gives = { λ _ why. why ≡ Memory };

    fn from(_: AllocError) -> Refused {
        Refused::Memory
    }
}
