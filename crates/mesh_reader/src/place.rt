//! What is due in the text of a mesh. The grammar speaks of it; no caller has to.

ghost use Rattle.std.specs.Prelude.{◌≡◌};
ghost use Rattle.mesh_reader.specs.Grammar.{behind as behind_of, lines_due as due_of, most_of, head_word as letters_of};

// The most replies and points that there may be.
pub(crate) const POINT_LIMIT: u64 = 262_144;

// The most cells, and the most triples.
const CELL_LIMIT: u64 = 16_777_216;

/// A list of the text.
#[derive(Clone, Copy, Debug)]
pub enum Part {
    Replies,
    Points,
    Cells,
    Hull,
}

/// What is due.
#[derive(Clone, Copy, Debug)]
pub enum Due {
    /// The first line.
    Title,
    /// The head of a list.
    Head(Part),
    /// A line of a list, with so many more behind it.
    Body(Part, u64),
    /// The word `end`.
    Last,
    /// No line.
    Nothing,
}

// The word of a list's head, with the space behind it.
pub(crate) fn word_of(part: Part) -> &'static str
    ensures { result.now ≡ letters_of part }
{
    match part {
        Part::Replies => "replies ",
        Part::Points => "points ",
        Part::Cells => "cells ",
        Part::Hull => "hull ",
    }
}

// The most lines of a list.
pub(crate) fn limit_of(part: Part) -> u64
    ensures { result ≡ most_of part }
{
    match part {
        Part::Replies => POINT_LIMIT,
        Part::Points => POINT_LIMIT,
        Part::Cells => CELL_LIMIT,
        Part::Hull => CELL_LIMIT,
    }
}

// What is due behind a list.
fn behind(part: Part) -> Due
    ensures { result ≡ behind_of part }
{
    match part {
        Part::Replies => Due::Head(Part::Points),
        Part::Points => Due::Head(Part::Cells),
        Part::Cells => Due::Head(Part::Hull),
        Part::Hull => Due::Last,
    }
}

// What is due where so many lines of a list are.
pub(crate) fn lines_due(part: Part, count: u64) -> Due
    ensures { result ≡ due_of part count }
{
    if count == 0 {
        behind(part)
    } else {
        Due::Body(part, count - 1)
    }
}
