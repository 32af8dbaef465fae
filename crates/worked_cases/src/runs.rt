//! Runs of the top call over ends in memory.

ghost use Rattle.std.specs.Prelude.{◌<◌};

use crate::ends::steps_of;
use crate::files::text_of;
use crate::gates::Watcher;
use crate::reading::list_at;
use crate::telling::{Answer, put_bytes};
use byte_ends::{MemSink, MemSource};
use delaunay_cli::{Run, run};
use edit_gates::{Gate, OpenGate};
use std::alloc::{AllocError, Global};
use std::thread::Threads;

// The most bytes that an end takes.
const ROOM: usize = 100_000;

// The words of a command line, behind the program's name.
fn words_of(alloc: Global, words: &str) -> Result<Vec<String>, AllocError> {
    let line = format!(in alloc; "delaunay {words}")?;
    let mut all = Vec::new(alloc);
    for word in line.split_whitespace() {
        all.push(String::from_str(alloc, word)?)?;
    }
    Ok(all)
}

// The status, what was told and written, and what is kept.
fn put_run(told: &mut Answer, run: &Run, error: &[u8], output: &[u8]) {
    write!(told, "{}; ", run.status);
    put_bytes(told, error);
    told.put("; ");
    put_bytes(told, output);
    told.put(';');
    for entry in &run.kept {
        write!(told, " {}:{}", entry.tag, entry.by);
    }
}

// Runs the program over ends in memory, and puts down what came of it.
fn run_over<R: Threads + Sync, G: Gate + Sync>(
    rt: &R,
    alloc: Global,
    told: &mut Answer,
    words: &[String],
    input: &str,
    source: (usize, &[u64]),
    output: (usize, &[u64]),
    error: (usize, &[u64]),
    gate: &G,
) -> Result<(), AllocError>
    requires source { 0 < source.0 }
    requires output { 0 < output.0 }
    requires error { 0 < error.0 }
{
    let mut src = MemSource::new(input.as_bytes(), source.0, source.1);
    let mut out = MemSink::new(alloc, ROOM, output.0, output.1)?;
    let mut err = MemSink::new(alloc, ROOM, error.0, error.1)?;
    let run = run(rt, alloc, words, &mut src, &mut out, &mut err, gate);
    put_run(told, &run, err.bytes(), out.bytes());
    Ok(())
}

// Runs a case through a gate, and puts down what came of it.
fn play_through<R: Threads + Sync, G: Gate + Sync>(
    rt: &R,
    alloc: Global,
    told: &mut Answer,
    lists: &str,
    gate: &G,
) -> Result<(), AllocError> {
    let source = told.all(list_at(lists, 5));
    let output = told.all(list_at(lists, 6));
    let error = told.all(list_at(lists, 7));
    let (Some(source), Some(output), Some(error)) = (
        steps_of(&source),
        steps_of(&output),
        steps_of(&error),
    ) else {
        told.put("no ends");
        return Ok(());
    };
    let words = words_of(alloc, list_at(lists, 1))?;
    let input = text_of(alloc, lists, 2)?;
    run_over(rt, alloc, told, &words, &input, source, output, error, gate)
}

/// Runs a case, and puts down what came of it.
///
/// # Errors
/// Want of memory.
pub(crate) fn play<R: Threads + Sync>(
    rt: &R,
    alloc: Global,
    told: &mut Answer,
    lists: &str,
) -> Result<(), AllocError> {
    play_through(rt, alloc, told, lists, &OpenGate)
}

/// Runs a case with a gate that notes what it is told, and puts down what came of it, and the moments of worker 0 and
/// of the other one.
///
/// # Errors
/// Want of memory.
pub(crate) fn watch<R: Threads + Sync>(
    rt: &R,
    alloc: Global,
    told: &mut Answer,
    lists: &str,
) -> Result<(), AllocError> {
    let watcher = Watcher::new();
    play_through(rt, alloc, told, lists, &watcher)?;
    told.put("; zero");
    watcher.put_zero(told);
    told.put("; other");
    watcher.put_other(told);
    Ok(())
}
