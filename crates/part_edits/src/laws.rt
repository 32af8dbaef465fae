//! The laws of edits that are made in parts of a complex. Each function here does nothing, and its contract is a law.

ghost use Rattle.part_edits.specs.Laws.{MadeOneAfterAnother, MadeSideBySide, OrderedByTags, RoundIsLegal, LeftIsLater};
ghost use Rattle.part_edits.specs.Laws.{WorkersCompose};

/// In one part lines are made one after another, and in two parts side by side, whatever the other cells are; so what
/// several workers make, each in its part, are the cells of the set after all their lines.
pub fn parts_compose()
    ensures after { MadeOneAfterAnother }
    ensures beside { MadeSideBySide }
    ensures all { WorkersCompose }
{}

/// Lines have the same replies in the order of their tags, and leave the same set, where those that share a point stand
/// in that order, and four independent points are neither taken nor moved. So the history may go on with them so.
pub fn ordered_by_tags()
    ensures order { OrderedByTags }
    ensures legal { RoundIsLegal }
{}

/// Of lines in the order of their tags, one that was set aside has a greater tag than each that was made and shares a
/// point with it.
pub fn left_is_later()
    ensures { LeftIsLater }
{}
