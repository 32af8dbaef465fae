//! Ends in memory some of whose calls fail, a pipe, and the standard streams.

ghost use Rattle.std.specs.Prelude.{◌<◌, IfSome};

use crate::reading::list_at;
use crate::telling::{Answer, put_bytes};
use byte_ends::{
    MemSink, MemSource, Reached, ReadError, Reading, Source, StdSink, StdSource, Writing,
    read_to_limit, write_all,
};
use std::alloc::Global;
use std::fs::Files;
use std::io;

// How many bytes an end gives or takes at once, and which of its calls fail, where numbers say so.
pub(crate) fn steps_of(numbers: &[u64]) -> Option<(usize, &[u64])>
    ensures { IfSome result (λ end. 0 < end.0) }
{
    match numbers {
        [step, fails @ ..] if *step > 0 => Some((*step as usize, fails)),
        _ => None,
    }
}

// How many bytes an end has room for, and the same.
pub(crate) fn end_of(numbers: &[u64]) -> Option<(usize, usize, &[u64])>
    ensures { IfSome result (λ end. 0 < end.1) }
{
    let [room, others @ ..] = numbers else {
        return None;
    };
    let (step, fails) = steps_of(others)?;
    Some((*room as usize, step, fails))
}

// Where a reading ended.
fn put_reached(answer: &mut Answer, got: Result<Reached, ReadError>) {
    match got {
        Ok(Reached::End) => answer.put("end: "),
        Ok(Reached::Limit) => answer.put("limit: "),
        Err(error) => write!(answer, "{error}: "),
    }
}

/// Answers a case of a reading.
pub(crate) fn read(alloc: Global, answer: &mut Answer, lists: &str) -> Option<()> {
    let numbers = answer.all(list_at(lists, 0));
    let (limit, step, fails) = end_of(&numbers)?;
    let mut source = MemSource::new(list_at(lists, 1).as_bytes(), step, fails);
    let mut bytes = Vec::new(alloc);
    put_reached(answer, read_to_limit(&mut source, limit, &mut bytes));
    put_bytes(answer, &bytes);
    Some(())
}

/// Answers a case of single reads.
pub(crate) fn calls(answer: &mut Answer, lists: &str) -> Option<()> {
    let numbers = answer.all(list_at(lists, 0));
    let (times, step, fails) = end_of(&numbers)?;
    let mut source = MemSource::new(list_at(lists, 1).as_bytes(), step, fails);
    let mut buffer = [b'.'; 3];
    for _ in 0..times {
        match source.read(&mut buffer) {
            Ok(count) => write!(answer, "{count} "),
            Err(error) => write!(answer, "{error} "),
        }
        put_bytes(answer, &buffer);
        answer.put(", ");
    }
    answer.put("done");
    Some(())
}

/// Answers a case of a writing.
pub(crate) fn write(alloc: Global, answer: &mut Answer, lists: &str) -> Option<()> {
    let numbers = answer.all(list_at(lists, 0));
    let (room, step, fails) = end_of(&numbers)?;
    let mut sink = answer.got(MemSink::new(alloc, room, step, fails))?;
    match write_all(&mut sink, list_at(lists, 1).as_bytes()) {
        Ok(()) => answer.put("all: "),
        Err(error) => write!(answer, "{error}: "),
    }
    put_bytes(answer, sink.bytes());
    Some(())
}

/// Answers a case of a pipe.
///
/// # Errors
/// Where the system makes no pipe.
pub(crate) fn pipe(
    files: &impl Files,
    alloc: Global,
    answer: &mut Answer,
    text: &str,
) -> io::Result<()> {
    let (reader, writer) = io::pipe(files)?;
    let mut sink = Writing::new(writer);
    let is_written = write_all(&mut sink, text.as_bytes()).is_ok();
    write!(answer, "written: {is_written}, read to the ");
    let mut source = Reading::new(reader);
    let mut bytes = Vec::new(alloc);
    put_reached(answer, read_to_limit(&mut source, text.len(), &mut bytes));
    put_bytes(answer, &bytes);
    drop(source);
    let is_written = write_all(&mut sink, text.as_bytes()).is_ok();
    write!(answer, ", written where nobody reads: {is_written}");
    Ok(())
}

/// Answers a case of the standard streams.
pub(crate) fn streams(rt: &HostRuntime, answer: &mut Answer, text: &str) {
    let error = write_all(&mut StdSink::error(rt), text.as_bytes()).is_ok();
    let output = write_all(&mut StdSink::output(rt), text.as_bytes()).is_ok();
    let mut input = StdSource::input(rt);
    match input.read(&mut []) {
        Ok(count) => {
            write!(answer, ", told: {error}, written: {output}, read: {count}");
        }
        Err(error) => answer.put(error),
    }
}
