//! The texts of edit files. In a case a bar stands for a line feed, and a tilde for a carriage return.

use crate::reading::{at, list_at, number_at};
use crate::telling::{Answer, put_made};
use edit_files::{File, ReadRefused, file_text, generate, read_file};
use std::alloc::{AllocError, Global};

// Puts a part of a case behind others, but for the blank at its front, its bars and tildes turned.
pub(crate) fn put_part(file: &mut Answer, lists: &str, place: usize) {
    let part = lists.split(';').nth(place).unwrap_or("");
    for letter in part.strip_prefix(' ').unwrap_or(part).chars() {
        file.put(match letter {
            '|' => '\n',
            '~' => '\r',
            other => other,
        });
    }
}

// How many lines of each kind a file has, and a short file's own text.
fn put_file(alloc: Global, answer: &mut Answer, file: &File) {
    let mut lines: u64 = 0;
    for _ in file.lines() {
        lines = lines.saturating_add(1);
    }
    let (points, edits, radii) = (file.points.len(), file.edits.len(), file.radii.len());
    let queries = file.queries.len();
    write!(
        answer,
        " {lines} lines {points} points {edits} edits {radii} radii {queries} queries"
    );
    if lines < 100 && queries < 100 {
        answer.put(" in ");
        put_made(answer, file_text(alloc, file));
    }
}

// The text whose front is the part at a place, whose middle the next one, standing there as often as the first list
// says, and whose end the one behind that.
pub(crate) fn text_of(alloc: Global, lists: &str, front: usize) -> Result<String, AllocError> {
    let mut text = Answer::new(alloc);
    put_part(&mut text, lists, front);
    for _ in 0..number_at(list_at(lists, 0), 0) {
        put_part(&mut text, lists, front.saturating_add(1));
    }
    put_part(&mut text, lists, front.saturating_add(2));
    text.whole()
}

/// Answers a case of a text: its front, and what follows so many times, and its end.
pub(crate) fn read(alloc: Global, answer: &mut Answer, lists: &str) -> Option<()> {
    let text = answer.got(text_of(alloc, lists, 1))?;
    match read_file(alloc, text.as_bytes()) {
        Ok(file) => put_file(alloc, answer, &file),
        Err(ReadRefused::Bad(fault)) => write!(answer, "line {}: {:?}", fault.line, fault.why),
        Err(ReadRefused::Memory) => answer.fail(),
    }
    Some(())
}

/// Answers a case of a drawn file: its text, from a count and a start.
pub(crate) fn drawn(alloc: Global, answer: &mut Answer, lists: &str) -> Option<()> {
    let count = at(list_at(lists, 0), 0)?;
    let start = at(list_at(lists, 1), 0)?;
    if count > 262_140 || start >= 1 << 31 {
        answer.put("no such file");
        return Some(());
    }
    let file = answer.got(generate(alloc, count, start))?;
    put_made(answer, file_text(alloc, &file));
    Some(())
}
