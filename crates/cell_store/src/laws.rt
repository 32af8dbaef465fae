//! What an entry makes of the buckets of a hold, what buckets say of a history and of a set, and what edits touch.
//! Each function here does nothing, and its contract is laws.

ghost use Rattle.cell_store.specs.Between.{ChangesCompose, EnteredShows, LeftIsSame, SightOutside};
ghost use Rattle.cell_store.specs.Changes.{AnyKeepsHold, NextEntry, EntryKeepsHold, ShareAfterAny, ShareAfterEntry};
ghost use Rattle.cell_store.specs.Changes.{ShareElsewhere};
ghost use Rattle.cell_store.specs.Ready.{ChangeFindsCells};
ghost use Rattle.cell_store.specs.Shares.{ShareIsOne, StandsShows};
ghost use Rattle.cell_store.specs.Meshes.{HistoryIs, MeshIs, MeshGathersHistory, MeshGathersComplex, AllAreHeld};
ghost use Rattle.cell_store.specs.Meshes.{MoreAreHeld, EmptyStands, EmptyShows, FewerStand, FewerShow, PutStands};
ghost use Rattle.cell_store.specs.Meshes.{PutShows, PutIsMore, TakeIsFewer};
ghost use Rattle.cell_store.specs.Touches.{ShareOutsideTouch, ReachFromHeld, CommitsCommute};

/// An entry that follows a sound history is next. After an exchange of exactly the gone and the new cells, and after
/// the entry, a hold that stood for a history stands for the history with the entry; each share is that exact
/// function of the one before, and a bucket that the entry does not touch keeps its share.
pub fn entry_keeps_hold()
    ensures next { NextEntry }
    ensures hold { EntryKeepsHold }
    ensures share { ShareAfterEntry }
    ensures elsewhere { ShareElsewhere }
{}

/// With every bucket in hand a hold stands for one history at most: the entries of its buckets in order of number. So
/// the buckets of a mesh tell which mesh it is.
pub fn hold_has_one_history()
    ensures history { HistoryIs }
    ensures mesh { MeshIs }
{}

/// A bucket in its place that is a share is one content, and a hold that stands for a history shows the set that it
/// leaves.
pub fn shares_show()
    ensures share { ShareIsOne }
    ensures shown { StandsShows }
{}

/// The entries of all buckets are those of the history, and in the order of their numbers they are the history; the
/// cells of all buckets are those of the complex, and in order, each once, they are the complex.
pub fn all_buckets_gather()
    ensures history { MeshGathersHistory }
    ensures complex { MeshGathersComplex }
{}

/// With every bucket in hand the cells of any list are held, and with more buckets in hand those that were held are.
pub fn cells_are_held()
    ensures all { AllAreHeld }
    ensures more { MoreAreHeld }
{}

/// With fewer buckets in hand a hold stands for what it stood for, and shows what it showed, and so does one that
/// takes a share in hand. With none it stands for every sound history, and shows every solid set.
pub fn buckets_come_and_go()
    ensures empty_stands { EmptyStands }
    ensures empty_shows { EmptyShows }
    ensures fewer_stand { FewerStand }
    ensures fewer_show { FewerShow }
    ensures taken { TakeIsFewer }
    ensures put_stands { PutStands }
    ensures put_shows { PutShows }
    ensures put { PutIsMore }
{}

/// An edit changes the share of no bucket that it does not touch. What it touches and answers is found from the
/// buckets in hand alone. Two edits of which the second touches, after the first, no bucket that the first touches,
/// commute.
pub fn edits_are_local()
    ensures outside { ShareOutsideTouch }
    ensures found { ReachFromHeld }
    ensures commute { CommitsCommute }
{}

/// With one point more, for a while, a hold shows the set with it, and there and back it is as before. A bucket that
/// the point does not touch has the same of both sets. Two changes, one after the other, are one.
pub fn points_come_and_go()
    ensures entered { EnteredShows }
    ensures left { LeftIsSame }
    ensures outside { SightOutside }
    ensures composed { ChangesCompose }
{}

/// After any entry, a move too, the share of each bucket is that exact function of the one before, and a hold that
/// stood for a history stands for the history with the entry. An exchange of what is gone and new finds its cells.
pub fn any_entry_keeps_hold()
    ensures share { ShareAfterAny }
    ensures hold { AnyKeepsHold }
    ensures found { ChangeFindsCells }
{}
