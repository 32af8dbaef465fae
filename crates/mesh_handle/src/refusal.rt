//! Why a call does nothing.

ghost use Rattle.std.specs.Prelude.{◌≡◌};
ghost use Rattle.mesh_handle.specs.declared.refusal.Refusal.TheVariants.{Memory};

use std::alloc::AllocError;

/// Why a call does nothing to the mesh of a handle.
#[derive(Clone, Copy, Debug, PartialEq, Eq)]
pub enum Refusal {
    /// Memory was wanting.
    Memory,
    /// A coordinate is not 0 to 16383.
    Outside,
    /// The handle has no mesh.
    Empty,
    /// The mesh has 2^32 entries, so no edit is made of it; or 2^32 points or cells, so no rows are.
    Full,
    /// The edit has no kind.
    Unknown,
}

impl From<AllocError> for Refusal {
    ghost from_gives = { λ _ e. e ≡ Memory };

    fn from(_: AllocError) -> Self {
        Refusal::Memory
    }
}
