// A source and a sink in memory, which give or take a few bytes a call and fail at the calls that they are told.
ghost use Rattle.std.specs.Prelude.{◌≡◌, ◌⊎◌, ◌<◌, ◌↔◌, [], ◌++◌, length, take, drop, Some, IfOk, OnErr, IsErr, IsTrue};
ghost use Rattle.std.specs.Prelude.{◌≤◌};
ghost use Rattle.std.specs.Io.{ReadsAtMost, WritesAtMost};
ghost use Rattle.std.specs.Io.KnownBytes.{ReadConsumes, WriteAppends};
ghost use Rattle.byte_ends.specs.Ends.{HasCause};
ghost use Rattle.byte_ends.specs.InMemory.{NextFails, after_answer, after_fault, after_read, after_write, given_count};
ghost use Rattle.byte_ends.specs.InMemory.{taken_count};

use crate::ends::{Failed, Sink, Source};
use std::alloc::{AllocError, Global};
use std::marker::Model;

// The calls of an end: which are to fail, how many were made and how many failed.
#[derive(Drop)]
struct CallLog<'a> {
    fails: &'a [u64],
    made: u64,
    faults: u64,
}

impl<'a> Model for CallLog<'a> {
    ghost use Rattle.byte_ends.specs.InMemory.{Calls};

    ghost Value = { Calls };

    ghost view = { λ s. record { fails = s.fails.now; made = s.made; faults = s.faults } };
}

impl<'a> CallLog<'a> {
    fn new(fails: &'a [u64]) -> Self
        ensures { result ≡ record { fails = fails.now; made = 0; faults = 0 } }
    {
        CallLog {
            fails,
            made: 0,
            faults: 0,
        }
    }

    // Whether the next call is one of those that are to fail.
    fn next_fails(&self) -> bool
        ensures { IsTrue result ↔ NextFails self.now }
    {
        self.fails.contains(&self.made.saturating_add(1))
    }

    fn note_answer(&mut self)
        ensures { self.new ≡ after_answer self.old }
    {
        self.made = self.made.saturating_add(1);
    }

    fn note_fault(&mut self)
        ensures after { self.new ≡ after_fault self.old }
        ensures later { self.old.faults ≤ self.new.faults }
    {
        self.made = self.made.saturating_add(1);
        self.faults = self.faults.saturating_add(1);
    }
}

/// A source over bytes in memory. A call gives at most `step` bytes.
#[derive(Drop)]
pub struct MemSource<'a> {
    left: &'a [u8],
    step: usize,
    calls: CallLog<'a>,
}

impl<'a> Model for MemSource<'a> {
    ghost use Rattle.std.specs.Prelude.{◌<◌};
    ghost use Rattle.byte_ends.specs.InMemory.{SourceState};

    ghost Value = { SourceState };

    ghost view = { λ s. record { left = s.left.now; step = s.step; calls = s.calls } };

    ghost invariant = { λ s. 0 < s.step };
}

impl<'a> MemSource<'a> {
    /// A source that has these bytes left. It gives at most `step` of them a call, at least 1, and fails
    /// the calls whose numbers, counted from 1, are in `fails`.
    pub fn new(bytes: &'a [u8], step: usize, fails: &'a [u64]) -> Self
        requires { 0 < step }
        ensures bytes { result.left ≡ bytes.now }
        ensures step { result.step ≡ step }
        ensures calls { result.calls ≡ record { fails = fails.now; made = 0; faults = 0 } }
    {
        MemSource {
            left: bytes,
            step,
            calls: CallLog::new(fails),
        }
    }
}

impl Source for MemSource<'_> {
    ghost left = { λ s. Some s.left };

    ghost faults = { λ s. s.calls.faults };

    fn read(&mut self, buf: &mut [u8]) -> Result<usize, Failed>
        ensures bound { ReadsAtMost result buf.new }
        ensures bytes { ReadConsumes (Some self.old.left) (Some self.new.left) result buf.new }
        ensures cause { HasCause self.old.calls.faults self.new.calls.faults result }

        // What exactly it answers, and what it leaves.
        ensures fails { IsErr result ↔ NextFails self.old.calls }
        ensures count { IfOk result (λ count. count ≡ given_count self.old (length buf.old)) }
        ensures given { IfOk result (λ count. self.new ≡ after_read self.old count) }
        ensures copied { IfOk result
            (λ count. buf.new ≡ take count self.old.left ++ drop count buf.old) }
        ensures fault { OnErr result
            (self.new ≡ record self.old { calls = after_fault self.old.calls }) }
        ensures untouched { OnErr result (buf.new ≡ buf.old) }
    {
        if self.calls.next_fails() {
            self.calls.note_fault();
            return Err(Failed);
        }
        self.calls.note_answer();
        let count = self.step.min(buf.len().min(self.left.len()));
        buf[..count].copy_from_slice(&self.left[..count]);
        self.left = &self.left[count..];
        Ok(count)
    }
}

/// A sink in memory, with room for a fixed number of bytes. A call takes at most `step` bytes.
#[derive(Drop)]
pub struct MemSink<'a> {
    bytes: Vec<u8>,
    room: usize,
    step: usize,
    calls: CallLog<'a>,
}

impl<'a> Model for MemSink<'a> {
    ghost use Rattle.std.specs.Prelude.{◌<◌, ◌≤◌, vec_len, vec_capacity};
    ghost use Rattle.byte_ends.specs.InMemory.{SinkState};

    ghost Value = { SinkState };

    ghost view = { λ s.
        record { bytes = s.bytes.items; room = s.room; step = s.step; calls = s.calls } };

    ghost invariant = { λ s.
        (0 < s.step) × (vec_len s.bytes ≤ s.room) × (s.room ≤ vec_capacity s.bytes) };
}

impl<'a> MemSink<'a> {
    /// An empty sink that takes the memory for `room` bytes now, and none later. It takes at most `step`
    /// bytes a call, at least 1, and fails the calls whose numbers, counted from 1, are in `fails`.
    ///
    /// # Errors
    ///
    /// `AllocError` where there is no memory for `room` bytes.
    pub fn new(
        alloc: Global,
        room: usize,
        step: usize,
        fails: &'a [u64],
    ) -> Result<Self, AllocError>
        requires { 0 < step }
        ensures bytes { IfOk result (λ sink. sink.bytes ≡ []) }
        ensures room { IfOk result (λ sink. sink.room ≡ room) }
        ensures step { IfOk result (λ sink. sink.step ≡ step) }
        ensures calls { IfOk result
            (λ sink. sink.calls ≡ record { fails = fails.now; made = 0; faults = 0 }) }
    {
        Ok(MemSink {
            bytes: Vec::with_capacity(alloc, room)?,
            room,
            step,
            calls: CallLog::new(fails),
        })
    }

    /// The bytes that it holds.
    pub fn bytes(&self) -> &[u8]
        ensures { result.now ≡ self.now.bytes }
    {
        &self.bytes
    }
}

impl Sink for MemSink<'_> {
    ghost holds = { λ s. Some s.bytes };

    ghost faults = { λ s. s.calls.faults };

    /// A call where no room is left fails too.
    fn write(&mut self, piece: &[u8]) -> Result<usize, Failed>
        ensures bound { WritesAtMost result piece.now }
        ensures progress { IfOk result (λ count. 0 < length piece.now → 0 < count) }
        ensures bytes { WriteAppends (Some self.old.bytes) (Some self.new.bytes) result piece.now }
        ensures cause { HasCause self.old.calls.faults self.new.calls.faults result }

        // What exactly it answers, and what it leaves.
        ensures fails { IsErr result
            ↔ NextFails self.old.calls ⊎ (self.old.room ≤ length self.old.bytes) }
        ensures count { IfOk result (λ count. count ≡ taken_count self.old (length piece.now)) }
        ensures taken { IfOk result (λ count. self.new ≡ after_write self.old piece.now count) }
        ensures fault { OnErr result
            (self.new ≡ record self.old { calls = after_fault self.old.calls }) }
    {
        let left = self.room - self.bytes.len();
        if left == 0 || self.calls.next_fails() {
            self.calls.note_fault();
            return Err(Failed);
        }
        self.calls.note_answer();
        let count = self.step.min(piece.len().min(left));
        match self.bytes.extend_from_slice(&piece[..count]) {
            Ok(()) => Ok(count),
            Err(_) => unreachable!(),
        }
    }
}
