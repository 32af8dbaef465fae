// A source and a sink of bytes, as the code above them sees them.
ghost use Rattle.std.specs.Prelude.{ℕ, ◌<◌, List, length, IfOk};
ghost use Rattle.std.specs.declared.option.Option.{Option};
ghost use Rattle.std.specs.Io.{ReadsAtMost, WritesAtMost};
ghost use Rattle.std.specs.Io.KnownBytes.{ReadConsumes, WriteAppends};
ghost use Rattle.byte_ends.specs.Ends.{HasCause};

use thiserror::Error;

/// A read or a write failed. The end's count of faults rose in that call.
#[derive(Clone, Copy, Debug, PartialEq, Eq, Error)]
#[error("a read or a write failed")]
pub struct Failed;

/// Where bytes come from.
pub trait Source {
    /// The bytes that are left, or `None` where the source does not tell them.
    ghost left: { Self → Option (List ℕ) };

    /// How often the source failed. The count never falls, and stands still at 2^64 - 1.
    ghost faults: { Self → ℕ };

    /// Takes bytes that are left, puts them at the buffer's front and returns how many they are.
    /// For a nonempty buffer 0 is the end of input.
    ///
    /// # Errors
    ///
    /// `Failed` where the source failed. Then it took no byte.
    fn read(&mut self, buf: &mut [u8]) -> Result<usize, Failed>
        ensures bound { ReadsAtMost result buf.new }
        ensures bytes { ReadConsumes (left self.old) (left self.new) result buf.new }
        ensures cause { HasCause (faults self.old) (faults self.new) result };
}

/// Where bytes go.
pub trait Sink {
    /// The bytes that the sink holds, or `None` where it does not tell them.
    ghost holds: { Self → Option (List ℕ) };

    /// How often the sink failed. The count never falls, and stands still at 2^64 - 1.
    ghost faults: { Self → ℕ };

    /// Takes bytes from the front of the piece and returns how many they are.
    /// Of a nonempty piece it takes at least one.
    ///
    /// # Errors
    ///
    /// `Failed` where the sink failed. Then it took no byte.
    fn write(&mut self, piece: &[u8]) -> Result<usize, Failed>
        ensures bound { WritesAtMost result piece.now }
        ensures progress { IfOk result (λ count. 0 < length piece.now → 0 < count) }
        ensures bytes { WriteAppends (holds self.old) (holds self.new) result piece.now }
        ensures cause { HasCause (faults self.old) (faults self.new) result };
}
