//! From the words of a run to its end.

ghost use Rattle.std.specs.Prelude.{◌≡◌, ◌≤◌, IfOk, IfErr, IsOk};
ghost use Rattle.std.specs.Io.KnownBytes.{IsAtEnd};
ghost use Rattle.byte_ends.specs.Ends.{Rose};
ghost use Rattle.command_ends.specs.Commands.{command_of_words};
ghost use Rattle.command_ends.specs.Ends.{Ends, IsToldLine, IsMadeOfWords, IsUnmade};
ghost use Rattle.command_pages.specs.Page.{IsFitToWrite, text_of_page};
ghost use Rattle.command_pages.specs.Run.{ReadsTo};
ghost use Rattle.command_words.specs.Stops.{line_of_end, status_of_end, status_of_made};
ghost use Rattle.command_words.specs.Words.{ReadsSource, kind_of_words, Asks, Draws};

use crate::drawn::draw;
use crate::near::query;
use crate::parted::part;
use crate::reported::report;
use crate::stepped::step;
use byte_ends::{Sink, Source};
use command_ends::{Ended, end};
use command_pages::{Made, check_source};
use command_words::{Stop, Task, read_words};
use edit_gates::Gate;
use std::alloc::Global;
use std::thread::Threads;

// The commands: makes what the words ask for.
fn make<R: Threads + Sync, S: Source, G: Gate + Sync>(
    rt: &R,
    alloc: Global,
    words: &[String],
    src: &mut S,
    gate: &G,
) -> Result<Made, Stop>
    ensures made { IfOk result (λ made. IsMadeOfWords words.now (S.left src.old) (status_of_end made.after)
        made.kept.items (text_of_page made.page)) }
    ensures sound { IfOk result IsFitToWrite }
    ensures stop { IfErr result (IsUnmade words.now (S.left src.old) (Rose (S.faults src.old) (S.faults src.new))) }
    ensures reads { ReadsSource words.now →
        ReadsTo (command_of_words words.now).limit (S.left src.old) (S.left src.new) (status_of_made result) }
    ensures to_its_end { ReadsSource words.now → IsOk result → IsAtEnd (S.left src.new) }
    ensures source { Asks Draws words.now → src.new ≡ src.old }
    ensures unread { status_of_made result ≡ 2 → src.new ≡ src.old }
    ensures later { S.faults src.old ≤ S.faults src.new }
{
    match read_words(alloc, words)? {
        Task::Report(making, asked) => report(rt, alloc, making, asked, src, gate),
        Task::Step(making) => step(rt, alloc, making, src, gate),
        Task::Part(making, wanted) => part(rt, alloc, making, wanted, src, gate),
        Task::Query(_making) => query(alloc, src, gate),
        Task::Check => check_source(alloc, src),
        Task::Draw(making, drawn) => draw(rt, alloc, making, drawn, gate),
    }
}

/// Does what the words ask for. All is made before the first write.
pub fn work<R: Threads + Sync, S: Source, O: Sink, G: Gate + Sync>(
    rt: &R,
    alloc: Global,
    words: &[String],
    src: &mut S,
    out: &mut O,
    gate: &G,
) -> Ended
    ensures ends { Ends words.now (S.left src.old) (S.left src.new) (Rose (S.faults src.old) (S.faults src.new))
        (O.holds out.old) (O.holds out.new) (Rose (O.faults out.old) (O.faults out.new)) result.run.status
        result.run.kept.items }
    ensures line { IsToldLine (kind_of_words words.now) (S.left src.old) result.run.status (line_of_end result.stop) }
    ensures source { Asks Draws words.now → src.new ≡ src.old }
    ensures unread { result.run.status ≡ 2 → src.new ≡ src.old }
    ensures later_source { S.faults src.old ≤ S.faults src.new }
    ensures later_output { O.faults out.old ≤ O.faults out.new }
{
    let made = make(rt, alloc, words, src, gate);
    end(rt, alloc, made, out)
}
