//! Laws of Gabriel faces. The functions here do nothing: each contract is a law.

ghost use Rattle.gabriel_faces.specs.Laws.{JudgedByLink, ListedIsFace, LinkIsLink, OppositePoints};

/// A point, edge, triangle or cell of a complex is Gabriel among the points of its link
/// exactly where it is among all points of the set.
pub fn judged_by_link()
    ensures { JudgedByLink }
{}

/// The pairs and triples that are listed of a complex are its faces, and the points of the cells that contain a face,
/// but for its own, are its link: of a triangle the opposite points of its Full cells.
pub fn faces_and_links()
    ensures face { ListedIsFace }
    ensures link { LinkIsLink }
    ensures of_triangle { OppositePoints }
{}
