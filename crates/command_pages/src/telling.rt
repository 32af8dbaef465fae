//! The line that tells why a file is refused.

ghost use Rattle.std.specs.Prelude.{◌≡◌, ◌++◌, IfOk, codes};
ghost use Rattle.command_pages.specs.Statuses.{fault_line as fault_line_of, why_word};

use itoa::Buffer;
use std::alloc::{AllocError, Global};
use text_readings::{Fault, Why};

fn word(why: Why) -> &'static str
    ensures { result.now ≡ why_word why }
{
    match why {
        Why::Section => "Section",
        Why::Field => "Field",
        Why::Range => "Range",
        Why::TooMany => "TooMany",
        Why::Truncated => "Truncated",
    }
}

/// The line of status 5: the number of the bad line, and why it is bad.
pub fn fault_line(alloc: Global, fault: Fault) -> Result<Vec<u8>, AllocError>
    ensures { IfOk result (λ line. line.items ≡ fault_line_of fault) }
{
    let mut line = Vec::from_slice(alloc, b"delaunay: line ")?;
    let mut buffer = Buffer::new();
    line.extend_from_slice(buffer.format(fault.line).as_bytes())?;
    line.extend_from_slice(b": ")?;
    line.extend_from_slice(word(fault.why).as_bytes())?;
    line.push(b'\n')?;
    Ok(line)
}
