// Writing a whole text, and reading to the end or to a limit.
ghost use Rattle.std.specs.Prelude.{◌≡◌, ◌+◌, ◌<◌, ◌≤◌, ◌↔◌, ◌++◌, vec_len, IfSome, IfOk, OnOk, OnErr};
ghost use Rattle.std.specs.Io.KnownBytes.{Appends, IsAtEnd};
ghost use Rattle.byte_ends.specs.Ends.{AppendsFront, HasCause, Rose, TakesInto};
ghost use Rattle.byte_ends.specs.declared.loops.ReadError.TheVariants.{Fault, Memory};

use crate::ends::{Failed, Sink, Source};
use std::alloc::AllocError;
use thiserror::Error;

/// How many bytes a reading asks for at once, at most.
const CHUNK: usize = 4096;

/// Where a reading ended.
#[derive(Clone, Copy, Debug, PartialEq, Eq)]
pub enum Reached {
    /// At the source's end, with fewer bytes than the limit.
    End,
    /// With as many bytes as the limit.
    Limit,
}

/// Why a reading reached neither the end nor the limit.
#[derive(Clone, Copy, Debug, PartialEq, Eq, Error)]
pub enum ReadError {
    /// The source failed.
    #[error("the source failed")]
    Fault,
    /// There was no memory for more bytes.
    #[error("out of memory")]
    Memory,
}

impl From<Failed> for ReadError {
    ghost from_gives = { λ _ e. e ≡ Fault };

    fn from(_: Failed) -> Self {
        ReadError::Fault
    }
}

impl From<AllocError> for ReadError {
    ghost from_gives = { λ _ e. e ≡ Memory };

    fn from(_: AllocError) -> Self {
        ReadError::Memory
    }
}

/// Writes the whole text.
///
/// # Errors
///
/// `Failed` where the sink failed. Then it has taken a front of the text.
pub fn write_all<O: Sink>(out: &mut O, text: &[u8]) -> Result<(), Failed>
    ensures whole { OnOk result (Appends (O.holds out.old) (O.holds out.new) text.now) }
    ensures front { AppendsFront (O.holds out.old) (O.holds out.new) text.now }
    ensures cause { HasCause (O.faults out.old) (O.faults out.new) result }
{
    let mut rest = text;
    while !rest.is_empty() {
        let count = out.write(rest)?;
        rest = &rest[count..];
    }
    Ok(())
}

/// Reads to the source's end or until `limit` bytes were read, and appends them to `bytes`.
/// It asks the source for no byte beyond the limit.
///
/// # Errors
///
/// `Fault` where the source failed, and `Memory` where there was no room in memory for the next bytes.
/// Every byte that it has taken then stands in `bytes`.
pub fn read_to_limit<S: Source>(
    source: &mut S,
    limit: usize,
    bytes: &mut Vec<u8>,
) -> Result<Reached, ReadError>
    ensures taken { TakesInto (S.left source.old) (S.left source.new)
        bytes.old.items bytes.new.items limit }
    ensures limit { (result ≡ Ok Reached.Limit) ↔ (vec_len bytes.new ≡ vec_len bytes.old + limit) }
    ensures end { result ≡ Ok Reached.End → IsAtEnd (S.left source.new) }
    ensures whole { result ≡ Ok Reached.End
        → IfSome (S.left source.old) (λ told. bytes.new.items ≡ bytes.old.items ++ told) }
    ensures later { S.faults source.old ≤ S.faults source.new }
    ensures fault { result ≡ Err ReadError.Fault
        → Rose (S.faults source.old) (S.faults source.new) }
{
    let mut room = limit;
    while room > 0 {
        let count = read_once(source, room, bytes)?;
        if count == 0 {
            return Ok(Reached::End);
        }
        room -= count;
    }
    Ok(Reached::Limit)
}

// Reads once, at most `room` bytes, and appends what it reads. It takes the memory first.
fn read_once<S: Source>(
    source: &mut S,
    room: usize,
    bytes: &mut Vec<u8>,
) -> Result<usize, ReadError>
    requires { 0 < room }
    ensures taken { TakesInto (S.left source.old) (S.left source.new)
        bytes.old.items bytes.new.items room }
    ensures count { IfOk result (λ count. vec_len bytes.new ≡ vec_len bytes.old + count) }
    ensures bound { IfOk result (λ count. count ≤ room) }
    ensures err { OnErr result (vec_len bytes.new ≡ vec_len bytes.old) }
    ensures end { result ≡ Ok 0 → IsAtEnd (S.left source.new) }
    ensures later { S.faults source.old ≤ S.faults source.new }
    ensures fault { result ≡ Err ReadError.Fault
        → Rose (S.faults source.old) (S.faults source.new) }
{
    let mut buffer = [0u8; CHUNK];
    let part = room.min(CHUNK);
    bytes.reserve(part)?;
    let count = source.read(&mut buffer[..part])?;
    match bytes.extend_from_slice(&buffer[..count]) {
        Ok(()) => Ok(count),
        Err(_) => unreachable!(),
    }
}
