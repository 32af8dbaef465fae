//! A whole text in memory.

ghost use Rattle.std.specs.Prelude.{◌≡◌, ◌<◌, [], Some, length, IfOk};
ghost use Rattle.std.specs.Io.{WritesAtMost};
ghost use Rattle.std.specs.Io.KnownBytes.{WriteAppends};
ghost use Rattle.byte_ends.specs.Ends.{HasCause};

use byte_ends::{Failed, Sink};
use std::alloc::{AllocError, Global};
use std::marker::Model;

/// A sink in memory that grows with what is written. It fails where there is no memory for a piece.
#[derive(Drop)]
pub struct WholeText {
    bytes: Vec<u8>,
    faults: u64,
}

impl Model for WholeText {
    ghost use Rattle.text_sheets.specs.Pages.{Grown};

    ghost Value = { Grown };

    ghost view = { λ s. record { bytes = s.bytes.items; faults = s.faults } };
}

impl WholeText {
    /// A sink that holds nothing.
    pub fn new(alloc: Global) -> Self
        ensures { result ≡ record { bytes = []; faults = 0 } }
    {
        WholeText {
            bytes: Vec::new(alloc),
            faults: 0,
        }
    }

    /// The same, with room for so many bytes.
    ///
    /// # Errors
    /// Want of memory.
    pub fn with_room(alloc: Global, room: usize) -> Result<Self, AllocError>
        ensures { IfOk result (λ text. text ≡ record { bytes = []; faults = 0 }) }
    {
        let bytes = Vec::with_capacity(alloc, room)?;
        Ok(WholeText { bytes, faults: 0 })
    }

    /// The bytes that it holds.
    pub fn into_bytes(self) -> Vec<u8>
        ensures { result.items ≡ self.bytes }
    {
        let WholeText { bytes, faults: _ } = self;
        bytes
    }
}

impl Sink for WholeText {
    ghost holds = { λ s. Some s.bytes };

    ghost faults = { λ s. s.faults };

    fn write(&mut self, piece: &[u8]) -> Result<usize, Failed>
        ensures bound { WritesAtMost result piece.now }
        ensures progress { IfOk result (λ count. 0 < length piece.now → 0 < count) }
        ensures bytes { WriteAppends (Some self.old.bytes) (Some self.new.bytes) result piece.now }
        ensures cause { HasCause self.old.faults self.new.faults result }
    {
        match self.bytes.extend_from_slice(piece) {
            Ok(()) => Ok(piece.len()),
            Err(_) => {
                self.faults = self.faults.saturating_add(1);
                Err(Failed)
            }
        }
    }
}
