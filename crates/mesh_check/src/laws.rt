//! What a verdict on lists says of them. Each function here does nothing, and its contract is a law.

ghost use Rattle.mesh_check.specs.Boxes.{FarBoxIsOutside, FarIsOutside};
ghost use Rattle.mesh_check.specs.Laws.{GoodIsComplex, FlawIsTrue, FlawShows};

/// Lists without a flaw are the complex, of a set that is solid; and the complex of a solid set has no flaw.
pub fn good_is_complex()
    ensures { GoodIsComplex }
{}

/// The first flaw is true of the lists.
pub fn first_flaw_is_true()
    ensures { FlawIsTrue }
{}

/// Each flaw alone, first or not, shows that the lists are not the complex of a solid set.
pub fn each_flaw_shows()
    ensures { FlawShows }
{}

/// A point farther from the centre of a sphere than the points on it is outside the perturbed sphere too, and
/// so is each point of a box that is.
pub fn far_is_outside()
    ensures point { FarIsOutside }
    ensures box_of_points { FarBoxIsOutside }
{}
