//! The mesh of four independent points.

ghost use Rattle.std.specs.Prelude.{◌≡◌, IfOk};
ghost use Rattle.opening_entries.specs.Opening.{AreFourIndependent, inserted, opening_history};

use crate::mesh::{LinkedMesh, of_history};
use edit_history::laws::solidity_is_of_the_set;
use edit_history::{Edit, Entry, Receipt, Reply};
use point_history::set_of;
use point_order::Point;
use std::alloc::{AllocError, Global};

// The entry of a point that one thread inserts, with its tag.
fn entry_of(number: u64, line: (u32, Point)) -> Entry
    ensures { result ≡ inserted number line }
{
    let (tag, point) = line;
    let reply = Reply::Inserted;
    Receipt { number, reply }.entry(0, tag, Edit::Add(point))
}

/// The mesh of four independent points, each with a tag. Its history has them as entries
/// 0 to 3 by 0, in this order, all inserted.
///
/// # Errors
/// Want of memory.
pub fn begin(alloc: Global, four: [(u32, Point); 4]) -> Result<LinkedMesh, AllocError>
    requires { AreFourIndependent four }
    ensures { IfOk result (λ mesh. mesh ≡ opening_history four) }
{
    solidity_is_of_the_set();
    let [a, b, c, d] = four;
    let points = set_of(alloc, &[a.1, b.1, c.1, d.1])?;
    let opening = [
        entry_of(0, a),
        entry_of(1, b),
        entry_of(2, c),
        entry_of(3, d),
    ];
    of_history(alloc, Vec::from_slice(alloc, &opening)?, &points)
}
