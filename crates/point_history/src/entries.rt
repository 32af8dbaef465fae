//! Entries that are made point by point.

ghost use Rattle.std.specs.Prelude.{◌≡◌, ◌≤◌, ◌^◌, ◌++◌, ◌∷◌, [], List, ℕ, Some, IfOk, OnOk, length, option_map};
ghost use Rattle.std.specs.Prelude.{if◌then◌else◌};
ghost use Rattle.std.specs.List.{filter};
ghost use Rattle.edit_history.specs.declared.history.Edit.{Edit as EditOf};
ghost use Rattle.edit_history.specs.declared.history.Edit.TheVariants.{Add};
ghost use Rattle.edit_history.specs.declared.history.Reply.TheVariants.{Inserted, Duplicate};
ghost use Rattle.edit_history.specs.OneThread.{one_thread, places, tagged_lines};
ghost use Rattle.edit_history.specs.Opening.{opening_four};
ghost use Rattle.point_history.specs.Logs.{IsLogOf, is_picked as is_picked_place};

use edit_history::{Edit, Entry, Reply};
use point_order::Point;
use std::alloc::{AllocError, Global};
use std::collections::BTreeSet;

// The entries so far, and the points that they leave.
#[derive(Drop)]
struct Log {
    entries: Vec<Entry>,
    seen: BTreeSet<Point>,
}

// What an added point is replied: by whether it is new.
fn reply_of(is_new: bool) -> Reply
    ensures { result ≡ if is_new then Inserted else Duplicate }
{
    if is_new {
        Reply::Inserted
    } else {
        Reply::Duplicate
    }
}

// Whether the place is one of the four, or whether it is none of them.
fn is_picked(four: [usize; 4], of_four: bool, place: usize) -> bool
    ensures { result ≡ is_picked_place of_four four place }
{
    four.contains(&place) == of_four
}

impl Log {
    // No entries yet, and room for so many.
    fn with_room(alloc: Global, count: usize) -> Result<Log, AllocError>
        ensures { IfOk result (IsLogOf []) }
    {
        Ok(Log {
            entries: Vec::with_capacity(alloc, count)?,
            seen: BTreeSet::new(alloc),
        })
    }

    // Adds a point, whose line has this tag.
    fn add(&mut self, tag: u32, p: Point) -> Result<(), AllocError>
        ensures { OnOk result ((lines : List (ℕ × EditOf)) → IsLogOf lines self.old →
            IsLogOf (lines ++ (tag, Add p) ∷ []) self.new) }
    {
        let is_new = self.seen.insert(p)?;
        let number = self.entries.len() as u64;
        self.entries.push(Entry {
            number,
            by: 0,
            tag,
            edit: Edit::Add(p),
            reply: reply_of(is_new),
        })?;
        Ok(())
    }

    // Adds the points whose places are of the four, or those whose places are not, in their order.
    fn add_picked(
        &mut self,
        points: &[Point],
        four: [usize; 4],
        of_four: bool,
    ) -> Result<(), AllocError>
        requires small { length points.now ≤ 2 ^ 32 }
        ensures { OnOk result ((lines : List (ℕ × EditOf)) → IsLogOf lines self.old →
            IsLogOf (lines ++ filter (λ line. is_picked_place of_four four line.0) (tagged_lines points.now []))
            self.new) }
    {
        for place in 0..points.len() {
            if is_picked(four, of_four, place) {
                self.add(place as u32, points[place])?;
            }
        }
        Ok(())
    }
}

/// The history of one thread of the points: the opening four in their order, then the others in theirs, each an add
/// with its place for a tag, by 0, and replied `Inserted` or, where its point was added before, `Duplicate`.
///
/// `four` is to be what `find_four` gives, and there are to be at most 2^32 points. For n points it takes about
/// n log n steps.
///
/// # Errors
/// Want of memory.
pub fn history_of_points(
    alloc: Global,
    points: &[Point],
    four: [usize; 4],
) -> Result<Vec<Entry>, AllocError>
    requires found { option_map places (opening_four points.now) ≡ Some four }
    requires small { length points.now ≤ 2 ^ 32 }
    ensures { IfOk result (λ entries. entries.items ≡ one_thread points.now []) }
{
    let mut log = Log::with_room(alloc, points.len())?;
    log.add_picked(points, four, true)?;
    log.add_picked(points, four, false)?;
    Ok(log.entries)
}
