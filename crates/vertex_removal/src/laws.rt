//! What a refilled hole comes to. Each function here does nothing, and its contract is a law.

ghost use Rattle.vertex_removal.specs.Refills.{MoveFollows, RemovalFollows};

pub use gift_wrap::laws::wrapped_holes;

/// The entry of a removal follows the history, with exactly the cells that go and
/// those that come: what a change of a mesh asks.
pub fn removal_follows()
    ensures { RemovalFollows }
{}

/// The entry of a move follows the history, with exactly the cells that go and those that come.
pub fn move_follows()
    ensures { MoveFollows }
{}
