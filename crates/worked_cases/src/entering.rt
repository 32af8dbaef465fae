//! Entries in buckets.

use crate::meshes::grid_of;
use crate::reading::list_at;
use crate::telling::Answer;
use cell_store::{Bucket, Hold};
use edit_history::{Edit, Entry, Reply};
use point_order::Cell;
use std::alloc::{AllocError, Global};

// Enters an edit as done, with a number that is its place; of a move nothing, since two buckets have a part in it.
fn enter(alloc: Global, hold: &mut Hold, number: u64, edit: Edit) -> Result<(), AllocError> {
    if let Edit::Move(_, _) = edit {
        return Ok(());
    }
    let none: &[Cell] = &[];
    let b = hold.grid().bucket_of(edit.point());
    if !hold.has(b) {
        hold.put(b, Bucket::new(alloc));
    }
    let there = hold.holds_point(edit.point());
    let reply = match edit {
        Edit::Add(_) if there => Reply::Duplicate,
        Edit::Add(_) => Reply::Inserted,
        Edit::Take(_) if there => Reply::Removed,
        Edit::Take(_) => Reply::Missing,
        Edit::Move(_, _) => Reply::Missing,
    };
    hold.reserve(alloc, none, none, &edit)?;
    hold.swap_cells(none, none);
    hold.push_entry(Entry {
        number,
        by: 0,
        tag: 0,
        edit,
        reply,
    });
    Ok(())
}

// How much the bucket of an edit has.
fn put_counts(alloc: Global, answer: &mut Answer, hold: &Hold, edit: Edit) {
    let b = hold.grid().bucket_of(edit.point());
    if hold.has(b)
        && let Some(copy) = answer.got(hold.copy_of(alloc, b))
    {
        let (points, entries) = (copy.points().len(), copy.entries().len());
        write!(answer, " {b} {points} {entries}");
    }
}

/// Answers a case of entries.
pub(crate) fn put(alloc: Global, answer: &mut Answer, lists: &str) -> Option<()> {
    let grid = grid_of(answer, lists)?;
    let mut hold = answer.got(Hold::empty(alloc, grid))?;
    answer.put("entered");
    let edits: Vec<Edit> = answer.all(list_at(lists, 1));
    for (number, edit) in edits.iter().enumerate() {
        if enter(alloc, &mut hold, number as u64, *edit).is_err() {
            answer.fail();
        }
        put_counts(alloc, answer, &hold, *edit);
    }
    Some(())
}
