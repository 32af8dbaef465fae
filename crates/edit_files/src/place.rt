//! What is due in an edit file. The grammar speaks of it; no caller has to.

ghost use Rattle.std.specs.Prelude.{◌≡◌};
ghost use Rattle.edit_files.specs.Grammar.{due_behind, word_behind};

use crate::version::Version;

/// A list of the file.
#[derive(Clone, Copy, Debug)]
pub enum Part {
    Points,
    Edits,
    Radii,
    Queries,
}

/// What is due.
#[derive(Clone, Copy, Debug)]
pub enum Due {
    /// The first line.
    Title,
    /// The word `points`.
    Heading,
    /// A line of a list, or the word behind it.
    Body(Part),
    /// No line.
    Nothing,
}

// The word behind a list of a file of this version, and what is due then.
pub(crate) fn behind(version: Version, part: Part) -> (&'static [u8], Due)
    ensures word { result.0.now ≡ word_behind version part }
    ensures due { result.1 ≡ due_behind version part }
{
    match part {
        Part::Points => (b"edits", Due::Body(Part::Edits)),
        Part::Edits => (b"radii", Due::Body(Part::Radii)),
        Part::Radii => behind_radii(version),
        Part::Queries => (b"end", Due::Nothing),
    }
}

// The word behind the radii, and what is due then.
fn behind_radii(version: Version) -> (&'static [u8], Due)
    ensures word { result.0.now ≡ word_behind version Part.Radii }
    ensures due { result.1 ≡ due_behind version Part.Radii }
{
    if version.row().queries {
        (b"queries", Due::Body(Part::Queries))
    } else {
        (b"end", Due::Nothing)
    }
}
