//! Boards, and the events that are played on them.

use crate::meshes::mesh_of_points;
use crate::reading::{Word, list_at, number_at, numbers_at};
use crate::telling::Answer;
use bucket_grid::Grid;
use claim_rule::{Board, Event, Played};
use std::alloc::{AllocError, Global};

/// The board of the mesh of points on a grid of this size, with so many parts and this allowance, if there is one.
///
/// # Errors
/// Want of memory.
pub(crate) fn opened(
    alloc: Global,
    told: &mut Answer,
    size: u32,
    lists: &str,
) -> Result<Option<Board>, AllocError> {
    let (parts, allowance) = numbers_at(lists, 1);
    let Ok(grid) = Grid::new(size) else {
        return Ok(None);
    };
    if parts == 0 || parts > 64 || allowance > 1024 {
        return Ok(None);
    }
    let points = told.all(list_at(lists, 0));
    match mesh_of_points(alloc, told, grid, &points) {
        Some(mesh) => Ok(Some(Board::new(alloc, mesh, parts, u64::from(allowance))?)),
        None => Ok(None),
    }
}

// The event of a line.
fn event_of(line: &str) -> Option<Event> {
    let by = number_at(line, 1);
    let second = number_at(line, 2);
    match line.split_whitespace().next()? {
        "claim" => Some(Event::Claim(by, second)),
        "commit" => {
            let (tag, edit) = Word::of(line.split_whitespace().nth(2)?)?;
            Some(Event::Commit(by, tag, edit))
        }
        "release" => Some(Event::Release(by, second)),
        "look" => Some(Event::Look(by)),
        "split" => Some(Event::Split(by, second, u64::from(number_at(line, 3)))),
        "join" => Some(Event::Join(by, second)),
        _ => None,
    }
}

// The answer of an event, the ticket, and each word that is not 0 behind its bucket's number.
fn put_played(told: &mut Answer, answer: Played, board: &Board) {
    match answer {
        Played::Done => told.put("done"),
        Played::Taken { word } => write!(told, "taken {word}"),
        Played::Short => told.put("short"),
    }
    write!(told, " {}", board.ticket());
    for b in 0..board.grid().count() {
        let word = board.word(b);
        if word != 0 {
            write!(told, " {b}:{word}");
        }
    }
}

/// Plays the event of a line on the board, and puts down what it answers and what the board shows then.
///
/// # Errors
/// Want of memory.
pub(crate) fn play(
    alloc: Global,
    told: &mut Answer,
    board: &mut Board,
    line: &str,
) -> Result<(), AllocError> {
    match event_of(line) {
        Some(event) => {
            let answer = board.play(alloc, &event)?;
            put_played(told, answer, board);
        }
        None => told.put("no event"),
    }
    Ok(())
}
