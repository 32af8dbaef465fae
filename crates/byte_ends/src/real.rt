// Standard input, output and error, and any reader or writer of std, as ends that count their faults.
ghost use Rattle.std.specs.Prelude.{◌≡◌, ◌<◌, ◌≤◌, length, None, IfOk};
ghost use Rattle.std.specs.Io.{ReadsAtMost, WritesAtMost};
ghost use Rattle.std.specs.Io.KnownBytes.{ReadConsumes, WriteAppends};
ghost use Rattle.byte_ends.specs.Ends.{HasCause, one_more};
ghost use Rattle.byte_ends.specs.Real.{Counted, count_after};

use crate::ends::{Failed, Sink, Source};
use std::io::{self, Read, Stderr, Stdin, Stdout, Write};
use std::marker::Model;

// Counts a fault. The count stands still at its last value.
fn note_fault(faults: &mut u64) -> Failed
    ensures counted { faults.new ≡ one_more faults.old }
    ensures later { faults.old ≤ faults.new }
{
    *faults = faults.saturating_add(1);
    Failed
}

/// A reader of std with a count of its faults: each error is one, that of an interrupted call too.
#[derive(Drop)]
pub struct Reading<R: Read + Drop> {
    inner: R,
    faults: u64,
}

impl<R: Read + Drop> Model for Reading<R> {
    ghost use Rattle.byte_ends.specs.Real.{Counted};

    ghost Value = { Counted };

    ghost view = { λ s. record { told = R.remaining s.inner; faults = s.faults } };
}

impl<R: Read + Drop> Reading<R> {
    /// The reader as a source that has not failed.
    pub fn new(inner: R) -> Self
        ensures { result ≡ record { told = R.remaining inner; faults = 0 } }
    {
        Reading { inner, faults: 0 }
    }
}

impl<R: Read + Drop> Source for Reading<R> {
    ghost left = { λ s. s.told };

    ghost faults = { λ s. s.faults };

    fn read(&mut self, buf: &mut [u8]) -> Result<usize, Failed>
        ensures bound { ReadsAtMost result buf.new }
        ensures bytes { ReadConsumes self.old.told self.new.told result buf.new }
        ensures cause { HasCause self.old.faults self.new.faults result }
        ensures counted { self.new.faults ≡ count_after self.old.faults result }
    {
        match self.inner.read(buf) {
            Ok(count) => Ok(count),
            Err(_) => Err(note_fault(&mut self.faults)),
        }
    }
}

/// A writer of std with a count of its faults: each error is one, that of an interrupted call too,
/// and so is a write that takes nothing of a nonempty piece.
#[derive(Drop)]
pub struct Writing<W: Write + Drop> {
    inner: W,
    faults: u64,
}

impl<W: Write + Drop> Model for Writing<W> {
    ghost use Rattle.byte_ends.specs.Real.{Counted};

    ghost Value = { Counted };

    ghost view = { λ s. record { told = W.contents s.inner; faults = s.faults } };
}

impl<W: Write + Drop> Writing<W> {
    /// The writer as a sink that has not failed.
    pub fn new(inner: W) -> Self
        ensures { result ≡ record { told = W.contents inner; faults = 0 } }
    {
        Writing { inner, faults: 0 }
    }
}

impl<W: Write + Drop> Sink for Writing<W> {
    ghost holds = { λ s. s.told };

    ghost faults = { λ s. s.faults };

    fn write(&mut self, piece: &[u8]) -> Result<usize, Failed>
        ensures bound { WritesAtMost result piece.now }
        ensures progress { IfOk result (λ count. 0 < length piece.now → 0 < count) }
        ensures bytes { WriteAppends self.old.told self.new.told result piece.now }
        ensures cause { HasCause self.old.faults self.new.faults result }
        ensures counted { self.new.faults ≡ count_after self.old.faults result }
    {
        match self.inner.write(piece) {
            Ok(count) if count > 0 || piece.is_empty() => Ok(count),
            _ => Err(note_fault(&mut self.faults)),
        }
    }
}

/// Standard input as a source. It tells nothing of bytes, and reads with no buffer of its own.
pub type StdSource = Reading<Stdin>;

impl Reading<Stdin> {
    /// Standard input, with no fault so far.
    pub fn input(rt: &HostRuntime) -> StdSource
        ensures { result ≡ record { told = None; faults = 0 } }
    {
        Reading::new(rt.stdin())
    }
}

/// Standard output or standard error, as a writer.
#[derive(Drop)]
pub enum StdStream {
    Output(Stdout),
    Error(Stderr),
}

impl Write for StdStream {
    fn write(&mut self, piece: &[u8]) -> io::Result<usize> {
        match self {
            StdStream::Output(stdout) => stdout.write(piece),
            StdStream::Error(stderr) => stderr.write(piece),
        }
    }

    fn flush(&mut self) -> io::Result<()> {
        match self {
            StdStream::Output(stdout) => stdout.flush(),
            StdStream::Error(stderr) => stderr.flush(),
        }
    }
}

/// Standard output or standard error as a sink. It tells nothing of bytes, and writes with no buffer.
pub type StdSink = Writing<StdStream>;

impl Writing<StdStream> {
    /// Standard output, with no fault so far.
    pub fn output(rt: &HostRuntime) -> StdSink
        ensures { result ≡ record { told = None; faults = 0 } }
    {
        Writing::new(StdStream::Output(rt.stdout()))
    }

    /// Standard error, with no fault so far.
    pub fn error(rt: &HostRuntime) -> StdSink
        ensures { result ≡ record { told = None; faults = 0 } }
    {
        Writing::new(StdStream::Error(rt.stderr()))
    }
}
