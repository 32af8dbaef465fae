//! What an insertion comes to, and the complex of four points. Each function
//! here does nothing, and its contract is a law.

ghost use Rattle.insertion.specs.Entries.{InsertionFollows};
ghost use Rattle.hole_laws.specs.FiveCells.{FourHaveFive};

/// The entry of an insertion follows the history, with exactly the cells that its point takes away and those
/// that it brings: what a change of a mesh asks.
pub fn insertion_follows()
    ensures { InsertionFollows }
{}

/// The complex of four independent points has the Full cell of the four, and the Open cell on each of its facets.
pub fn complex_of_four()
    ensures { FourHaveFive }
{}
