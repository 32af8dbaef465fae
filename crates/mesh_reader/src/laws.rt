//! Laws of the text of a mesh. They take part in no run: each is the contract of a function with nothing in it.

ghost use Rattle.std.specs.Prelude.{◌≡◌, ◌⊎◌, ℕ, List};
ghost use Rattle.text_readings.specs.declared.fault.Fault.{Fault};
ghost use Rattle.mesh_reader.specs.Grammar.{IsMeshText, MeshParts};
ghost use Rattle.mesh_reader.specs.Faults.{IsMeshFault};
ghost use Rattle.mesh_reader.specs.Order.{IsInOrder};

/// A text is of at most one mesh.
pub fn one_mesh()
    ensures { (bytes : List ℕ) (f g : MeshParts) → IsMeshText bytes f → IsMeshText bytes g → f ≡ g }
{}

/// A text that is of a mesh has no fault.
pub fn mesh_has_no_fault()
    ensures { (bytes : List ℕ) (f : MeshParts) (fault : Fault) → IsMeshText bytes f → IsMeshFault bytes fault → ⊥ }
{}

/// A text is of a mesh, or it has a fault.
pub fn mesh_or_fault()
    ensures { (bytes : List ℕ) →
        ((f : MeshParts) × IsMeshText bytes f) ⊎ ((fault : Fault) × IsMeshFault bytes fault) }
{}

/// A text has at most one fault.
pub fn one_fault()
    ensures { (bytes : List ℕ) (a b : Fault) → IsMeshFault bytes a → IsMeshFault bytes b → a ≡ b }
{}

/// The points of a text's mesh are keys and ascend, and its cells and triples are in order, with points of these.
pub fn mesh_is_in_order()
    ensures { (bytes : List ℕ) (f : MeshParts) → IsMeshText bytes f → IsInOrder f }
{}
