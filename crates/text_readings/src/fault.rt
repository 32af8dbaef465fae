//! Why a text is not what a reader reads.

ghost use Rattle.std.specs.Prelude.{◌≡◌};
ghost use Rattle.text_readings.specs.Judging.{refused_at};

use std::alloc::{AllocError, AllocFailed};
use thiserror::Error;

/// What is wrong with a line.
#[derive(Clone, Copy, Debug, PartialEq, Eq)]
pub enum Why {
    /// It is not the section word that stands there, or a section word that does not, or it follows the end.
    Section,
    /// It is not of the form of its section's lines.
    Field,
    /// It is of that form, and a number of it is out of its range.
    Range,
    /// Its section has no room for one more.
    TooMany,
    /// It is missing: the text ends before it.
    Truncated,
}

/// The fault of a text that is not what is read.
#[derive(Clone, Copy, Debug, PartialEq, Eq, Error)]
#[error("line {line}: {why:?}")]
pub struct Fault {
    /// The number of the first bad line, from 1; of a truncated text, the number of its lines plus 1.
    pub line: u64,
    pub why: Why,
}

/// Why a text was not read.
#[derive(Clone, Copy, Debug, PartialEq, Eq, Error)]
pub enum ReadRefused {
    /// The text is not what is read.
    #[error("{0}")]
    Bad(Fault),
    /// There was no memory for what it names.
    #[error("out of memory")]
    Memory,
}

/// Why a line was not taken.
#[derive(Clone, Copy)]
pub enum LineRefused {
    /// It is wrong where it stands.
    Bad(Why),
    /// There was no memory for what it names.
    Memory,
}

impl LineRefused {
    /// Why the text was not read, where this line has that number.
    pub fn of_line(self, line: u64) -> ReadRefused
        ensures { result ≡ refused_at line self }
    {
        match self {
            LineRefused::Bad(why) => ReadRefused::Bad(Fault { line, why }),
            LineRefused::Memory => ReadRefused::Memory,
        }
    }
}

impl From<Why> for LineRefused {
    ghost use Rattle.text_readings.specs.declared.fault.LineRefused.TheVariants as line_refusals;

    ghost from_gives = { λ why e. e ≡ line_refusals.Bad why };

    fn from(why: Why) -> LineRefused {
        LineRefused::Bad(why)
    }
}

impl<T: Drop> From<AllocFailed<T>> for LineRefused {
    ghost use Rattle.text_readings.specs.declared.fault.LineRefused.TheVariants as line_refusals;

    ghost from_gives = { λ _ e. e ≡ line_refusals.Memory };

    fn from(_e: AllocFailed<T>) -> LineRefused {
        LineRefused::Memory
    }
}

impl From<AllocError> for LineRefused {
    ghost use Rattle.text_readings.specs.declared.fault.LineRefused.TheVariants as line_refusals;

    ghost from_gives = { λ _ e. e ≡ line_refusals.Memory };

    fn from(_e: AllocError) -> LineRefused {
        LineRefused::Memory
    }
}
