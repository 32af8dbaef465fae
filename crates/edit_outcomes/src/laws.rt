//! Laws of what a list of edits comes to. Each function does nothing, and its contract is a law.

ghost use Rattle.edit_outcomes.specs.Laws.{EntriesLeave, EntriesReply, SetByChanges};

/// The entries that one thread makes of edits have the replies of the outcome, and leave its set.
pub fn entries_as_told()
    ensures replies { EntriesReply }
    ensures left { EntriesLeave }
{}

/// A set is another one without the points that it lacks, and with those that the other one lacks.
pub fn set_by_changes()
    ensures { SetByChanges }
{}
