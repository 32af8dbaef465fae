//! Laws of alpha complexes. The functions here do nothing: each contract is a law.

ghost use Rattle.alpha_complex.specs.Laws.{PointIsAdmitted, FullCellIsAdmitted};

/// Every point of a solid set is admitted at every alpha. A Full cell is admitted exactly where it is within alpha
/// itself.
pub fn points_and_cells()
    ensures point { PointIsAdmitted }
    ensures cell { FullCellIsAdmitted }
{}
