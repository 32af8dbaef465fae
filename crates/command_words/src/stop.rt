//! Why a run stops, and the status and the line of each end.

ghost use Rattle.std.specs.Prelude.{◌≡◌};
ghost use Rattle.command_words.specs.declared.stop.Stop.TheVariants.{Memory};
ghost use Rattle.command_words.specs.Stops.{line_of_stop, stop_of_read};
ghost use Rattle.command_words.specs.Lines.{status_of};

use byte_ends::ReadError;
use std::alloc::AllocError;

/// Why a run ends with another status than 0: before its text is written whole, or with what it tells of it.
#[derive(Drop)]
pub enum Stop {
    /// There was no memory for it.
    Memory,
    /// The words are none that the program takes.
    Usage,
    /// The source failed.
    ReadFault,
    /// The output failed.
    WriteFault,
    /// The input is no edit file. This line tells the fault.
    BadLine(Vec<u8>),
    /// The file has no four independent points among its point lines.
    Flat,
    /// The input is longer than it may be.
    TooLong,
    /// There is no part of the index.
    NoPart,
    /// There is no alpha with at most so many parts.
    NoAlpha,
    /// The mesh that was read is no complex.
    BadMesh,
}

impl From<AllocError> for Stop {
    ghost from_gives = { λ _ e. e ≡ Memory };

    fn from(_: AllocError) -> Self {
        Stop::Memory
    }
}

impl From<ReadError> for Stop {
    ghost from_gives = { λ why e. e ≡ stop_of_read why };

    fn from(why: ReadError) -> Self {
        match why {
            ReadError::Fault => Stop::ReadFault,
            ReadError::Memory => Stop::Memory,
        }
    }
}

impl Stop {
    /// The status of the end, and the line that tells it.
    pub fn told(&self) -> (u8, &[u8])
        ensures status { result.0 ≡ status_of self.now }
        ensures line { result.1.now ≡ line_of_stop self.now }
    {
        match self {
            Stop::Memory => (1, b"delaunay: out of memory\n"),
            Stop::Usage => (2, b"delaunay: usage\n"),
            Stop::ReadFault => (3, b"delaunay: read fault\n"),
            Stop::WriteFault => (4, b"delaunay: write fault\n"),
            Stop::BadLine(line) => (5, line),
            Stop::Flat => (6, b"delaunay: no four independent points\n"),
            Stop::TooLong => (7, b"delaunay: input too long\n"),
            Stop::NoPart => (8, b"delaunay: no such part\n"),
            Stop::NoAlpha => (9, b"delaunay: no such alpha\n"),
            Stop::BadMesh => (10, b"delaunay: bad mesh\n"),
        }
    }
}
