//! Edits, replies and entries of a history.

ghost use Rattle.std.specs.Prelude.{◌≡◌};

use point_order::Point;

/// A change of a set of points.
#[derive(Clone, Copy, Debug, PartialEq, Eq, Hash)]
pub enum Edit {
    /// The point is to be in the set.
    Add(Point),
    /// The point is not to be in the set.
    Take(Point),
    /// The point at the first place is to be at the second.
    Move(Point, Point),
}

/// What an edit answered.
#[derive(Clone, Copy, Debug, PartialEq, Eq, Hash)]
pub enum Reply {
    /// The point was added.
    Inserted,
    /// The point to be added was there already.
    Duplicate,
    /// The point was taken out.
    Removed,
    /// The point to be taken was not there.
    Missing,
    /// The set without the point, or with it at its new place, would not be solid, so the point stays.
    Flat,
    /// The point was moved.
    Moved,
    /// There was a point already at the place to which the point was to be moved, so it stays.
    Occupied,
}

/// An edit as a history keeps it.
#[derive(Clone, Copy, Debug, PartialEq, Eq, Hash)]
pub struct Entry {
    /// Its place in the history, from 0.
    pub number: u64,
    /// Who made it: 0 where one thread makes all edits.
    pub by: u32,
    /// The caller's own word for the edit; for the edits of a file the place of its line, from 0.
    pub tag: u32,
    pub edit: Edit,
    pub reply: Reply,
}

/// What an edit was answered by whoever keeps the history.
#[derive(Clone, Copy, Debug, PartialEq, Eq)]
pub struct Receipt {
    /// The place of its entry in the history, from 0.
    pub number: u64,
    pub reply: Reply,
}

impl Receipt {
    /// The entry that it is the receipt of: who made the edit, the caller's own word for it, and the edit.
    pub fn entry(self, by: u32, tag: u32, edit: Edit) -> Entry
        ensures { result ≡ record { number = self.number; by = by; tag = tag; edit = edit; reply = self.reply } }
    {
        Entry {
            number: self.number,
            by,
            tag,
            edit,
            reply: self.reply,
        }
    }
}

impl Edit {
    ghost use Rattle.edit_history.specs.Edits.{point_of};

    /// The point that is added, taken or moved: of a move the place that it leaves.
    pub fn point(&self) -> Point
        ensures { result ≡ point_of self.now }
    {
        match *self {
            Edit::Add(p) | Edit::Take(p) | Edit::Move(p, _) => p,
        }
    }
}
