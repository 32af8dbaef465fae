//! The top call.

ghost use Rattle.std.specs.Prelude.{◌≡◌, ◌⊎◌, ◌≤◌, false, IfSome};
ghost use Rattle.std.specs.Io.KnownBytes.{Appends};
ghost use Rattle.byte_ends.specs.Ends.{AppendsFront, Rose};
ghost use Rattle.edit_history.specs.Histories.{IsLegal};
ghost use Rattle.edit_history.specs.OneThread.{Keeps as FileKeeps};
ghost use Rattle.edit_files.specs.Content.{Content};
ghost use Rattle.edit_files.specs.Grammar.{IsFile};
ghost use Rattle.command_pages.specs.Run.{file_limits, AreDealt, IsSolidFile, Writes, WritesFront, history_of};
ghost use Rattle.plain_laws.specs.Plain.{IsAnchored};
ghost use Rattle.command_ends.specs.Ends.{Ends, Tells};
ghost use Rattle.command_ends.specs.PlainText.{plain_text};
ghost use Rattle.command_pages.specs.Statuses.{HasText};
ghost use Rattle.command_words.specs.Words.{ReadsFile, asks_order, asks_shape, worker_count, AreWordsTaken};
ghost use Rattle.command_words.specs.Words.{kind_of_words, Asks, Draws, Queries, Reports, Steps};

use crate::work::work;
use byte_ends::{Sink, Source};
use command_ends::{Run, tell};
use edit_gates::Gate;
use std::alloc::Global;
use std::thread::Threads;

/// Does what the words ask for, and tells in one line on `err` what went wrong.
///
/// `rt` is the runtime, and `words` are those of the command line: the program's name, and what `clap` takes for the
/// seven commands. `mesh` and `shape`, each with `--order`, read an edit file from `src` and write the report of its
/// mesh to `out`; with `shape` the report has a block for each radius of the file, in its order. `steps` reads one too,
/// and writes the least alpha, in sixteenths of a squared distance, of each face of its mesh. `parts`, with `--alpha`,
/// `--most` and `--off`, reads one and writes its solid parts, or the boundary of one. `near` reads one, and writes of
/// each of its queries the nearest point of its mesh. `gen`, with `--count`, `--start`
/// and `--text`, reads nothing: it draws an edit file, and writes the summary of its mesh or the file's text. Each of
/// these takes `--workers`, 1 to 64, and `--grid`, 1, 2, 4, 8 or 16: so many workers make the edits side by side, over
/// buckets of this grid; one makes them in their order, without buckets. `gate` is told of the moments of their edits.
/// `check` makes no edit and takes no option: it reads the text of a mesh, which may be longer, and writes the verdict
/// on it.
///
/// The clauses by name are those of the files that are read and of their reports. `Ends` in specs/ says how each run
/// ends; what a command promises is what its `Command` makes, or why it makes nothing: the field `done`. Which words
/// are taken, and what else follows of a run, is in `laws`.
pub fn run<R: Threads + Sync, S: Source, O: Sink, E: Sink, G: Gate + Sync>(
    rt: &R,
    alloc: Global,
    words: &[String],
    src: &mut S,
    out: &mut O,
    err: &mut E,
    gate: &G,
) -> Run
    ensures ends { Ends words.now (S.left src.old) (S.left src.new) (Rose (S.faults src.old) (S.faults src.new))
        (O.holds out.old) (O.holds out.new) (Rose (O.faults out.old) (O.faults out.new)) result.status
        result.kept.items }
    ensures told { Tells (kind_of_words words.now) (S.left src.old) (E.holds err.old) (E.holds err.new)
        (E.faults err.old)
        (E.faults err.new) result.status }

    // What is kept where a file is read, and written where that is its report.
    ensures legal { IsLegal result.kept.items }
    ensures kept { ReadsFile words.now → HasText result.status
        → IfSome (S.left src.old) (λ bytes. (file : Content) → IsFile file_limits bytes file
        → FileKeeps file.points file.edits (worker_count words.now) result.kept.items) }
    ensures one_thread { ReadsFile words.now → worker_count words.now ≡ 1 → HasText result.status
        → IfSome (S.left src.old) (λ bytes. (file : Content) → IsFile file_limits bytes file
        → result.kept.items ≡ history_of file) }
    ensures dealt { ReadsFile words.now → HasText result.status
        → IfSome (S.left src.old) (λ bytes. (file : Content) → IsFile file_limits bytes file
        → AreDealt (worker_count words.now) result.kept.items) }
    ensures written { Asks Reports words.now → result.status ≡ 0
        → IfSome (S.left src.old) (λ bytes. Writes (asks_shape words.now) (asks_order words.now) bytes
        (O.holds out.old) (O.holds out.new) result.kept.items) }
    ensures front { Asks Reports words.now → result.status ≡ 4
        → IfSome (S.left src.old) (λ bytes. WritesFront (asks_shape words.now) (asks_order words.now) bytes
        (O.holds out.old) (O.holds out.new) result.kept.items) }

    // Where no edit takes one of the opening four and no order block is asked for, what is written goes by the file
    // and the command.
    ensures plain { Asks Reports words.now → asks_order words.now ≡ false → result.status ≡ 0
        → IfSome (S.left src.old) (λ bytes. (file : Content) → IsFile file_limits bytes file →
        IsAnchored file.points file.edits
        → Appends (O.holds out.old) (O.holds out.new) (plain_text (asks_shape words.now) file)) }
    ensures plain_front { Asks Reports words.now → asks_order words.now ≡ false → result.status ≡ 4
        → IfSome (S.left src.old) (λ bytes. (file : Content) → IsFile file_limits bytes file →
        IsAnchored file.points file.edits
        → AppendsFront (O.holds out.old) (O.holds out.new) (plain_text (asks_shape words.now) file)) }

    // The whole text of a solid file within the limit is written, unless memory is wanting or the source or the output
    // fails.
    ensures complete { AreWordsTaken words.now → Asks Reports words.now ⊎ Asks Steps words.now ⊎ Asks Queries words.now
        → IfSome (S.left src.old) (λ bytes. IsSolidFile bytes
        → (Rose (S.faults src.old) (S.faults src.new) → ⊥) → (Rose (O.faults out.old) (O.faults out.new) → ⊥)
        → (result.status ≡ 0) ⊎ (result.status ≡ 1)) }

    // The source is as before where a file is drawn or the words are refused.
    ensures source { Asks Draws words.now → src.new ≡ src.old }
    ensures unread { result.status ≡ 2 → src.new ≡ src.old }

    // Counts of faults never fall.
    ensures later_source { S.faults src.old ≤ S.faults src.new }
    ensures later_output { O.faults out.old ≤ O.faults out.new }
    ensures later_error { E.faults err.old ≤ E.faults err.new }
{
    let ended = work(rt, alloc, words, src, out, gate);
    tell(err, &ended.stop);
    let Run { status, kept } = ended.run;
    Run { status, kept }
}
