//! Worked cases of all layers and of the top call: a case a line on standard input, and its answer a line on standard
//! output.
//!
//! A case is what is asked, and lists of words with semicolons between them. A point is written `x,y,z`, a cell is its
//! four points, or the three of an Open one, and an edit is a point behind `+` or `-`, or behind `=` the place that a
//! point leaves, `>` and its new place; in a scene its tag stands before it. An end is the number of bytes that a call
//! gives or takes at most, and the numbers of its calls that fail, counted from 1. A bar stands for a line feed. A line
//! whose first word is `#` is answered by itself. Where a call may not be made of the words the answer is `no case`.
//!
//! - `key X Y Z`: the key of the point and its coordinates, or which of the three is refused.
//! - `cell CELL; POINT`: the cell's points, its facets in order, and whether the point is one of its own.
//! - `order CELL; CELL; ..`: how each of the cells stands to each, and then the cells in their order, each once.
//! - `trial POINTS`: the cells of the complex of the points by trial.
//! - `cloud POINTS`: the same of points that are not of one plane, made at once.
//! - `orient` of four points, `collinear` of three, `sphere` and `outside` of five, `conflict CELL; MATE POINT`.
//! - `inside POINTS; POINT`: whether the last point is inside the smallest sphere of the edge or triangle.
//! - `boxed CELL; LOW HIGH`: whether the sphere of the cell is strictly inside the box with these corners.
//! - `within POINTS; ALPHA`: whether the smallest sphere of the edge, triangle or cell is within, and the least alpha.
//! - `gabriel POINTS; CELLS; FACES`: the faces that are not Gabriel, each judged by its link; cells and faces are the
//!   digits of their points.
//! - `handle PLACES; EDITS; LOOKS`: a handle is given the mesh of the places. The replies of the edits, the rows of the
//!   mesh that they leave, and of each look whether a point stands there and where the nearest one does; or why there
//!   is no mesh.
//! - `levels PLACES`: the edges, triangles and cells of the mesh of the places, each by the numbers of its points with
//!   the least alpha at which it is admitted.
//! - `read LIMIT STEP FAILS; TEXT`: where the reading ends, and what was read.
//! - `calls TIMES STEP FAILS; TEXT`: what so many reads into three bytes answer, and what the three bytes are then.
//! - `write ROOM STEP FAILS; TEXT`: how the writing ends, and what was written.
//! - `pipe TEXT`: the text through a pipe, and what becomes of it where nobody reads.
//! - `streams TEXT`: the text to standard error and standard output, and a read of no byte from standard input.
//! - `report REPLIES; TAGS; POINTS; ROOM STEP FAILS`: the report's summary and text, and how its writing ends.
//! - `check TEXT`: the lists of the mesh that the text is of, and the verdict on them; or the text's fault.
//! - `file TIMES; FRONT; MIDDLE; END`: the lines of the file that the text is, the middle standing there so many times,
//!   and the file's own text; or the text's fault.
//! - `draw COUNT; START`: the text of the file that is drawn from the two numbers.
//!
//! The next ones are asked on a grid of a size. Of a mesh that is asked about, the first four independent points come
//! first, and then the others, each with its place for a tag. Of the buckets those with the numbers HELD are in hand,
//! or `all`, or all `but` those that follow.
//!
//! - `grid SIZE; POINTS`: how many buckets the grid has, and those of the points.
//! - `enter SIZE; EDITS`: an empty bucket at each point of the edits; after each entry how many points and entries its
//!   bucket has. Every edit is entered as done, but for moves.
//! - `mesh SIZE; POINTS; EDITS`: the history by tags, what a set of points replies, the points left, and the cells.
//! - `begun SIZE; POINTS; EDITS`: the same, of a mesh whose points are put in at once.
//! - `faces SIZE; POINTS`: each face of the complex with the cells that contain it, by the places of the sorted points.
//! - `bucket SIZE; POINTS; B`: the bucket in a hold of its own; its counts, the cells at each of its points, the same
//!   cells by a search that is counted, and what lies across the facets of the first of them.
//! - `refill SIZE; POINTS; HELD; POINT`: the cells that go when the point is taken, and those that come.
//! - `walk SIZE; POINTS; HELD; TARGET`: where a walk to the target starts, and what each of its steps comes to.
//! - `near SIZE; POINTS; HELD; PLACE`: the same of a walk to the point that is nearest to the place.
//!
//! The last ones are scenes of boards, of the running table and its workers, and runs of the top call. Orders are
//! edits, and `look`, `shot`, and `work`, which has all edits behind it done as a list. Behind the answer of an edit
//! stand the moments of which its gate was told. Threads wait for each other by gates, so that what is printed is the
//! same whatever the schedule.
//!
//! - `board SIZE; POINTS; PARTS ALLOWANCE`: a new board, on which the lines that follow are played: `claim N B`,
//!   `commit N EDIT`, `release N B`, `look N`, `split N PARTS ALLOWANCE` and `join N M`, of the pass N. After each what
//!   it answered, the ticket, and the words that are not 0.
//! - `passes SIZE; POINTS; PARTS ALLOWANCE; PARTS ALLOWANCE; ORDERS; ORDERS`: a table's first pass, of which another
//!   one is split off, which does the first orders; then the two are joined, the one pass does the other orders, and
//!   the table is closed.
//! - `kept SIZE; POINTS; NUMBER MOMENT; EDIT; ORDERS; ORDERS`: of two passes the one of this number is kept at a moment
//!   of an edit; meanwhile the other one does orders on a thread of its own, and more of them afterwards.
//! - `meet SIZE; POINTS; EDIT EDIT`: two workers, an edit each, that are to see each other at Ready.
//! - `deal WORKERS; POINTS; EDITS`: the lists that are dealt, by their tags, segment by segment.
//! - `make SIZE; POINTS; WORKERS; EDITS`: so many workers make the lines, and what is told is the reply of each line,
//!   how many entries there are, and the cells.
//! - `beside SIZE; POINTS; COUNT; EDITS; EDITS; ..`: a worker a list, and beside them a reader that takes so many
//!   snapshots. Each is judged by the replies of sets of points and by trial of all quadruples and triples.
//! - `run TIMES; WORDS; FRONT; MIDDLE; END; SOURCE; OUTPUT; ERROR`: a run of the top call over ends in memory, some of
//!   which fail. The words are those behind the program's name. The input is the front, the middle so many times, and
//!   the end. What came of it is the status, what was told and written, and of each entry that is kept the tag and the
//!   worker.
//! - `watched ..`: the same, and then the moments of which the run told its gate, of worker 0 and of the other one.
#![tactic(auto)]

mod beside;
mod boards;
mod buckets;
mod cells;
mod checks;
mod dealing;
mod ends;
mod entering;
mod faces;
mod files;
mod gabriel;
mod gates;
mod handles;
mod judging;
mod keeping;
mod meeting;
mod meshes;
mod nears;
mod orders;
mod passes;
mod predicates;
mod reading;
mod refills;
mod reports;
mod runs;
mod spheres;
mod tables;
mod telling;
mod walks;

use bucket_grid::Grid;
use claim_rule::Board;
use reading::number_at;
use std::alloc::{AllocError, Global};
use std::io;
use std::thread::Threads;
use telling::Answer;

// Answers a case that needs no more than memory and threads. Where its words make none, nothing may be put.
fn put_case<R: Threads + Sync>(
    rt: &R,
    alloc: Global,
    answer: &mut Answer,
    asked: &str,
    lists: &str,
) -> Option<()> {
    match asked {
        "key" => cells::key(answer, lists),
        "cell" => cells::parts(answer, lists),
        "order" => cells::order(answer, lists),
        "trial" => cells::trial(alloc, answer, lists),
        "cloud" => cells::cloud(alloc, answer, lists),
        "orient" | "sphere" => predicates::number(answer, lists),
        "collinear" | "outside" => predicates::truth(answer, lists),
        "conflict" => predicates::in_conflict(answer, lists),
        "inside" => spheres::inside(answer, lists),
        "boxed" => spheres::boxed(answer, lists),
        "within" => spheres::within(answer, lists),
        "gabriel" => gabriel::faces(alloc, answer, lists),
        "handle" => handles::put(alloc, answer, lists),
        "levels" => handles::put_levels(alloc, answer, lists),
        "read" => ends::read(alloc, answer, lists),
        "calls" => ends::calls(answer, lists),
        "write" => ends::write(alloc, answer, lists),
        "report" => reports::put(alloc, answer, lists),
        "check" => checks::judge(alloc, answer, lists),
        "file" => files::read(alloc, answer, lists),
        "draw" => files::drawn(alloc, answer, lists),
        "grid" => buckets::numbers(answer, lists),
        "enter" => entering::put(alloc, answer, lists),
        "mesh" => meshes::put(alloc, answer, lists),
        "begun" => meshes::put_begun(alloc, answer, lists),
        "faces" => faces::put(rt, alloc, answer, lists),
        "bucket" => buckets::put(alloc, answer, lists),
        "refill" => refills::put(alloc, answer, lists),
        "walk" => walks::put(alloc, answer, lists),
        "near" => nears::put(alloc, answer, lists),
        _ => None,
    }
}

// Plays a scene on a grid, and puts down what it comes to.
fn play<R: Threads + Sync>(
    rt: &R,
    alloc: Global,
    answer: &mut Answer,
    played: &str,
    grid: Grid,
    lists: &str,
) -> Result<(), AllocError> {
    match played {
        "passes" => passes::play(alloc, answer, grid, lists),
        "kept" => keeping::play(rt, alloc, answer, grid, lists),
        "meet" => meeting::play(rt, alloc, answer, grid, lists),
        "make" => dealing::make(rt, alloc, answer, grid, lists),
        _ => beside::play(rt, alloc, answer, grid, lists),
    }
}

// Plays a scene of threads, and puts down what it comes to.
fn put_scene<R: Threads + Sync>(
    rt: &R,
    alloc: Global,
    answer: &mut Answer,
    played: &str,
    rest: &str,
) -> Result<(), AllocError> {
    let (size, lists) = rest.split_once(';').unwrap_or((rest, ""));
    let size = number_at(size, 0);
    match played {
        "run" => runs::play(rt, alloc, answer, rest),
        "watched" => runs::watch(rt, alloc, answer, rest),
        "deal" => dealing::play(alloc, answer, size, lists),
        _ => {
            if let Ok(grid) = Grid::new(size) {
                play(rt, alloc, answer, played, grid, lists)?;
            }
            Ok(())
        }
    }
}

// Opens a board, on which later lines are played, or plays the event of a line on the one that is there.
fn put_board(
    alloc: Global,
    answer: &mut Answer,
    board: &mut Option<Board>,
    line: &str,
) -> Result<(), AllocError> {
    if let Some(rest) = line.strip_prefix("board ") {
        let (size, lists) = rest.split_once(';').unwrap_or((rest, ""));
        *board = boards::opened(alloc, answer, number_at(size, 0), lists)?;
        if board.is_some() {
            answer.put("board");
        }
        return Ok(());
    }
    match board {
        Some(board) => boards::play(alloc, answer, board, line),
        None => Ok(()),
    }
}

// Puts down what the case in a line comes to. The host gives the standard streams and pipes.
fn put_line<R: Threads + Sync>(
    rt: &R,
    host: &HostRuntime,
    answer: &mut Answer,
    board: &mut Option<Board>,
    line: &str,
) -> Result<(), AllocError> {
    let (asked, lists) = line.split_once(' ').unwrap_or((line, ""));
    match asked {
        "#" => answer.put(line),
        "pipe" => {
            if ends::pipe(host, host.alloc(), answer, lists).is_err() {
                answer.put("no pipe");
            }
        }
        "streams" => ends::streams(host, answer, lists),
        "board" | "claim" | "commit" | "release" | "look" | "split" | "join" => {
            put_board(host.alloc(), answer, board, line)?;
        }
        "passes" | "kept" | "meet" | "make" | "beside" | "deal" | "run" | "watched" => {
            put_scene(rt, host.alloc(), answer, asked, lists)?;
        }
        _ => {
            let _ = put_case(rt, host.alloc(), answer, asked, lists);
        }
    }
    Ok(())
}

// The answer of the case in a line.
fn answered<R: Threads + Sync>(
    rt: &R,
    host: &HostRuntime,
    board: &mut Option<Board>,
    line: &str,
) -> Result<String, AllocError> {
    let mut answer = Answer::new(host.alloc());
    put_line(rt, host, &mut answer, board, line)?;
    if answer.is_empty() {
        answer.put("no case");
    }
    answer.whole()
}

fn main(rt: HostRuntime) -> io::Result<()> {
    let mut board = None;
    for line in rt.lines(rt.alloc()) {
        let answer = answered(&rt, &rt, &mut board, &line?)?;
        println!(rt; "{answer}")?;
    }
    Ok(())
}
