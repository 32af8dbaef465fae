//! Laws of the lists of faces. The functions here do nothing: each contract is a law.

ghost use Rattle.face_list.specs.Laws.{PointsInOrder, PointIsListed, ListedIsPoint, PartsInOrder, PartIsListed};
ghost use Rattle.face_list.specs.Laws.{ListedIsPart, FullCellsInOrder, FullCellIsListed, ListedIsFullCell};
ghost use Rattle.face_list.specs.Laws.{FullCellsOfComplex, PointsOfComplex};

/// The points of a list of cells ascend, none twice, and a point is among them exactly where a Full
/// cell has it. The pairs and triples are in lexicographic order, none twice, and one is listed
/// exactly where it is a part of a Full cell.
pub fn faces_in_order()
    ensures points { PointsInOrder }
    ensures point { PointIsListed }
    ensures point_only { ListedIsPoint }
    ensures parts { PartsInOrder }
    ensures part { PartIsListed }
    ensures part_only { ListedIsPart }
{}

/// Of a list in the order of cells, as that of a complex is, the Full cells are in lexicographic order, none twice.
/// In any list just the Full cells are listed.
pub fn full_cells_in_order()
    ensures order { FullCellsInOrder }
    ensures of_complex { FullCellsOfComplex }
    ensures cell { FullCellIsListed }
    ensures cell_only { ListedIsFullCell }
{}

/// The points of the complex of a solid set are all points of the set.
pub fn points_of_complex()
    ensures { PointsOfComplex }
{}
