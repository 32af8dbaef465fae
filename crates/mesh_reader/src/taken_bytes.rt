//! Bytes of which clauses alone speak.

ghost use Rattle.std.specs.Prelude.{◌≡◌, ◌++◌, [], List, ℕ};
ghost use base.Fml.{ftrue};

use std::marker::{Model, PhantomData};

/// Bytes that a reader has taken, as clauses see them. It has none of them, and no size.
pub(crate) struct TakenBytes {
    marker: PhantomData<u8>,
    pub(crate) ghost bytes: { List ℕ },
}

impl Model for TakenBytes {
    ghost also_owns = { λ _. ftrue };
}

impl TakenBytes {
    // Those that the caller picks, from what it hands in.
    fn of<T>(from: &T) -> TakenBytes
        ghost picked: { List ℕ }
        ensures { result.bytes ≡ picked }
    {
        let _ = from;
        TakenBytes {
            marker: PhantomData,
        }
    }

    /// None.
    pub(crate) fn nothing() -> TakenBytes
        ensures { result.bytes ≡ [] }
    {
        TakenBytes::of(&())
    }

    /// These, and a piece behind them.
    pub(crate) fn and(self, piece: &[u8]) -> TakenBytes
        ensures { result.bytes ≡ self.bytes ++ piece.now }
    {
        TakenBytes::of(&(self, piece))
    }
}

impl Drop for TakenBytes {
    fn drop(self) {
        let Self { marker: _ } = self;
    }
}
