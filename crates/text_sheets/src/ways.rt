//! Lines of a text, put one after another, or made side by side by threads and then put.

ghost use Rattle.std.specs.Prelude.{◌≡◌, ◌++◌, ◌<◌, ◌≤◌, [], List, ℕ, length, slice_index_or, IfOk, OnOk};
ghost use Rattle.std.specs.List.{concat};
ghost use Rattle.std.specs.Io.KnownBytes.{Appends};
ghost use Rattle.std.specs.Thread.{IsSync};
ghost use Rattle.text_sheets.specs.Sheets.{Puts};
ghost use Rattle.text_sheets.specs.Ways.{lines_from};

use crate::sheet::Sheet;
use crate::whole::WholeText;
use byte_ends::{Failed, Sink};
use std::alloc::{AllocError, Global};
use std::thread::{Threads, available_parallelism, join};

// So many lines are made before they are put, so that their text takes little memory.
const ROUND: usize = 32768;

// Fewer lines are made by one thread: to start another takes longer.
const FEW: usize = 2048;

/// Lines of a text, each told by its number.
pub trait Lines {
    /// The lines, some of which may be empty.
    ghost lines_of: { Self → List (List ℕ) };

    /// How many there are.
    fn count(&self) -> usize
        ensures { result ≡ length (lines_of self.now) };

    /// Puts the line of a number.
    fn put_line<O: Sink>(&self, sheet: &mut Sheet<O>, number: usize)
        requires { number < length (lines_of self.now) }
        ensures { Puts O.holds O.faults sheet.old sheet.new (slice_index_or (lines_of self.now) number []) };
}

// Puts the lines from one number to another.
fn put_range<L: Lines, O: Sink>(sheet: &mut Sheet<O>, lines: &L, from: usize, to: usize)
    requires order { from ≤ to }
    requires within { to ≤ length (L.lines_of lines.now) }
    ensures { Puts O.holds O.faults sheet.old sheet.new (lines_from from to (L.lines_of lines.now)) }
{
    for number in from..to {
        lines.put_line(sheet, number);
    }
}

// Writes the lines from one number to another.
fn write_range<L: Lines, O: Sink>(
    out: &mut O,
    lines: &L,
    from: usize,
    to: usize,
) -> Result<(), Failed>
    requires order { from ≤ to }
    requires within { to ≤ length (L.lines_of lines.now) }
    ensures { OnOk result (Appends (O.holds out.old) (O.holds out.new)
        (lines_from from to (L.lines_of lines.now))) }
{
    let mut sheet = Sheet::new(out);
    put_range(&mut sheet, lines, from, to);
    sheet.close()
}

// The text of the lines from one number to another.
fn text_here<L: Lines>(
    alloc: Global,
    lines: &L,
    from: usize,
    to: usize,
) -> Result<Vec<u8>, AllocError>
    requires order { from ≤ to }
    requires within { to ≤ length (L.lines_of lines.now) }
    ensures { IfOk result (λ text. text.items ≡ lines_from from to (L.lines_of lines.now)) }
{
    let mut text = WholeText::new(alloc);
    match write_range(&mut text, lines, from, to) {
        Ok(()) => Ok(text.into_bytes()),
        Err(Failed) => Err(AllocError),
    }
}

// That text, made by so many threads.
fn text_beside<R: Threads + Sync, L: Lines + Sync>(
    rt: &R,
    alloc: Global,
    lines: &L,
    from: usize,
    to: usize,
    threads: usize,
) -> Result<Vec<u8>, AllocError>
    requires order { from ≤ to }
    requires within { to ≤ length (L.lines_of lines.now) }
    ensures { IfOk result (λ text. text.items ≡ lines_from from to (L.lines_of lines.now)) }
{
    if threads < 2 || to - from < FEW {
        return text_here(alloc, lines, from, to);
    }
    let middle = from + (to - from) / 2;
    let (front, back) = join(
        rt,
        || -> Result<Vec<u8>, AllocError>
            requires { IsSync R.row × IsSync L.row × (from ≤ middle) × (middle ≤ length (L.lines_of lines.now)) }
            ensures { IfOk result (λ text. text.items ≡ lines_from from middle (L.lines_of lines.entry.now)) }
        { text_beside(rt, alloc, lines, from, middle, threads / 2) },
        || -> Result<Vec<u8>, AllocError>
            requires { IsSync R.row × IsSync L.row × (middle ≤ to) × (to ≤ length (L.lines_of lines.now)) }
            ensures { IfOk result (λ text. text.items ≡ lines_from middle to (L.lines_of lines.entry.now)) }
        { text_beside(rt, alloc, lines, middle, to, threads - threads / 2) },
    );
    together(front?, back?)
}

// One text, and another behind it.
fn together(front: Vec<u8>, back: Vec<u8>) -> Result<Vec<u8>, AllocError>
    ensures { IfOk result (λ text. text.items ≡ front.items ++ back.items) }
{
    let mut text = front;
    text.extend_from_slice(&back)?;
    Ok(text)
}

// Puts the lines from one number to another, made by so many threads.
fn put_made<R: Threads + Sync, L: Lines + Sync, O: Sink>(
    rt: &R,
    alloc: Global,
    sheet: &mut Sheet<O>,
    lines: &L,
    from: usize,
    to: usize,
    threads: usize,
)
    requires order { from ≤ to }
    requires within { to ≤ length (L.lines_of lines.now) }
    ensures { Puts O.holds O.faults sheet.old sheet.new (lines_from from to (L.lines_of lines.now)) }
{
    match text_beside(rt, alloc, lines, from, to, threads) {
        Ok(text) => sheet.put(&text),
        Err(_) => put_range(sheet, lines, from, to),
    }
}

// Puts all lines, made by so many threads.
fn put_in_rounds<R: Threads + Sync, L: Lines + Sync, O: Sink>(
    rt: &R,
    alloc: Global,
    sheet: &mut Sheet<O>,
    lines: &L,
    threads: usize,
)
    ensures { Puts O.holds O.faults sheet.old sheet.new (concat (L.lines_of lines.now)) }
{
    let count = lines.count();
    let mut from = 0;
    while from < count {
        let to = from + ROUND.min(count - from);
        put_made(rt, alloc, sheet, lines, from, to, threads);
        from = to;
    }
}

/// Puts all lines, one after another. It takes no memory.
pub fn put_in_turn<L: Lines, O: Sink>(sheet: &mut Sheet<O>, lines: &L)
    ensures { Puts O.holds O.faults sheet.old sheet.new (concat (L.lines_of lines.now)) }
{
    put_range(sheet, lines, 0, lines.count());
}

/// Puts all lines. Some are made, side by side by as many threads as there are processors, and put in their order, and
/// then the next ones. Where memory for them is refused, they are put one after another.
pub fn put_beside<R: Threads + Sync, L: Lines + Sync, O: Sink>(
    rt: &R,
    alloc: Global,
    sheet: &mut Sheet<O>,
    lines: &L,
)
    ensures { Puts O.holds O.faults sheet.old sheet.new (concat (L.lines_of lines.now)) }
{
    let threads = match available_parallelism(rt) {
        Ok(count) => count.get(),
        Err(_) => 1,
    };
    put_in_rounds(rt, alloc, sheet, lines, threads);
}
