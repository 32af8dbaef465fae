//! What passes of a table answer, as words.

use crate::telling::{Answer, put_cells};
use edit_history::{Entry, PointSet};
use grid_claims::{Pass, Receipt, Refused, Snapshot};
use std::alloc::{AllocError, Global};

// Where a pass stands: its number, how many parts it has, how many edits it may make, and how many entries it has seen.
pub(crate) fn put_pass(told: &mut Answer, pass: &Pass) {
    let (first, parts, left, seen) = (pass.first(), pass.parts(), pass.left(), pass.seen());
    write!(told, " pass {first} parts {parts} left {left} seen {seen};");
}

// Why a call did nothing.
pub(crate) fn put_refused(told: &mut Answer, why: &Refused) {
    match why {
        Refused::Spent => told.put(" spent;"),
        Refused::Busy { bucket, word } => write!(told, " busy {bucket} word {word};"),
        Refused::Memory => told.fail(),
    }
}

// The answer of an edit.
pub(crate) fn put_edited(told: &mut Answer, answer: &Result<Receipt, Refused>) {
    match answer {
        Ok(Receipt { number, reply }) => write!(told, " number {number} {reply:?};"),
        Err(why) => put_refused(told, why),
    }
}

// The points that the entries leave.
fn left_by(alloc: Global, history: &[Entry]) -> Result<PointSet, AllocError> {
    let mut set = PointSet::new(alloc);
    for entry in history {
        set.after(entry.edit)?;
    }
    Ok(set)
}

// How many entries a snapshot has, and its cells by the places of their points among those that the entries leave.
fn put_snapshot(told: &mut Answer, snapshot: &Snapshot, left: &PointSet) {
    write!(told, " {} entries", snapshot.history.len());
    put_cells(told, left.points(), &snapshot.complex);
    told.put(';');
}

// The answer of a snapshot.
pub(crate) fn put_shown(alloc: Global, told: &mut Answer, answer: &Result<Snapshot, Refused>) {
    match answer {
        Ok(snapshot) => match left_by(alloc, &snapshot.history) {
            Ok(left) => put_snapshot(told, snapshot, &left),
            Err(_) => told.fail(),
        },
        Err(why) => put_refused(told, why),
    }
}

// The replies of a history in the order of its tags, of which each stands once.
pub(crate) fn put_replies(told: &mut Answer, history: &[Entry]) {
    for tag in 0..history.len() {
        for entry in history {
            if entry.tag as usize == tag {
                write!(told, " {:?}", entry.reply);
            }
        }
    }
    told.put(';');
}

// The entries from a place on: the number, who made it, its tag and its reply.
pub(crate) fn put_entries(told: &mut Answer, history: &[Entry], from: usize) {
    told.put(" made");
    for entry in history.iter().skip(from) {
        let (number, by, tag, reply) = (entry.number, entry.by, entry.tag, entry.reply);
        write!(told, " {number}:{by}:{tag}:{reply:?}");
    }
}
