//! Laws of the opening four and of histories. Each function does nothing, and its contract is a law.

ghost use Rattle.edit_history.specs.Laws.{OpeningLaw, FourLaw, SetLaw, LeavesSet, MoreLeaves, MoreIsLegal, LegalLaw};
ghost use Rattle.edit_history.specs.Laws.{KeepsLaw, ReplayLaw};

/// The points of a list have an opening four exactly where they are solid, and the four are independent points of the
/// list, each at the first place of its point.
pub fn opening_four_shows_solid()
    ensures solid { OpeningLaw }
    ensures four { FourLaw }
{}

/// Whether a list of points is solid does not depend on their order, nor on how often each stands there.
pub fn solidity_is_of_the_set()
    ensures { SetLaw }
{}

/// A history leaves a set of points, as an ascending list.
pub fn history_leaves_set()
    ensures { LeavesSet }
{}

/// A history with one entry more leaves what that entry's edit makes of the points before, and is legal where the entry
/// has the next number and the reply of those points.
pub fn history_with_an_entry()
    ensures leaves { MoreLeaves }
    ensures legal { MoreIsLegal }
{}

/// The history of one thread is legal and keeps the file; of point lines alone it leaves the set of the points.
pub fn one_thread_is_legal()
    ensures legal { LegalLaw }
    ensures keeps { KeepsLaw }
    ensures replay { ReplayLaw }
{}
