//! The program `delaunay`: the top call over the real ends.
#![tactic(auto)]

ghost use Rattle.std.specs.Prelude.{◌≡◌, []};
ghost use Rattle.std.specs.Process.{exit_status};
ghost use Rattle.std.specs.Io.KnownBytes.{Appends};
ghost use Rattle.byte_ends.specs.Ends.{AppendsFront, Rose};
ghost use Rattle.command_words.specs.Lines.{plain_line};

use byte_ends::{Sink, StdSink, StdSource, write_all};
use delaunay_cli::Run;
use edit_gates::OpenGate;
use std::alloc::{AllocError, Global};
use std::env;
use std::io::ErrorKind;
use std::process::ExitCode;

// The words of the command line; none where they are not all text, so that the top call refuses them.
fn words_of(rt: &HostRuntime, alloc: Global) -> Result<Vec<String>, AllocError> {
    match env::args(rt) {
        Ok(words) => words.collect(alloc),
        Err(error) if error.kind() == ErrorKind::OutOfMemory => Err(AllocError),
        Err(_) => Ok(Vec::new(alloc)),
    }
}

// The run that there is no memory to begin. Its line is told, as the top call tells it. A failed write changes nothing
// else.
fn run_without_memory<E: Sink>(alloc: Global, err: &mut E) -> Run
    ensures status { result.status ≡ 1 }
    ensures kept { result.kept.items ≡ [] }
    ensures front { AppendsFront (E.holds err.old) (E.holds err.new) (plain_line 1) }
    ensures whole { (Rose (E.faults err.old) (E.faults err.new) → ⊥)
        → Appends (E.holds err.old) (E.holds err.new) (plain_line 1) }
{
    let _ = write_all(err, b"delaunay: out of memory\n");
    Run {
        status: 1,
        kept: Vec::new(alloc),
    }
}

// What the process ends with: the status of the run.
fn exit_of(run: &Run) -> ExitCode
    ensures { exit_status result ≡ run.now.status }
{
    ExitCode::from(run.status)
}

fn main(rt: HostRuntime) -> ExitCode {
    let alloc = rt.alloc();
    let mut input = StdSource::input(&rt);
    let mut output = StdSink::output(&rt);
    let mut error = StdSink::error(&rt);
    let run = match words_of(&rt, alloc) {
        Ok(words) => delaunay_cli::run(
            &rt,
            alloc,
            &words,
            &mut input,
            &mut output,
            &mut error,
            &OpenGate,
        ),
        Err(AllocError) => run_without_memory(alloc, &mut error),
    };
    exit_of(&run)
}
