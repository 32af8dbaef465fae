//! The replies of a history, by the lines that they answer.

ghost use Rattle.std.specs.Prelude.{◌≡◌, IfOk};
ghost use Rattle.plain_laws.specs.Plain.{replies_by_tag as replies_by_tag_of};

use edit_history::{Entry, Reply};
use std::alloc::{AllocError, Global};

/// The replies in the order of the lines, of which there are `count`. A line is known by the tag of its entry.
pub fn replies_by_tag(alloc: Global, count: usize, kept: &[Entry]) -> Result<Vec<Reply>, AllocError>
    ensures { IfOk result (λ replies. replies.items ≡ replies_by_tag_of count kept.now) }
{
    let mut replies = vec![in alloc; Reply::Missing; count]?;
    for i in (0..kept.len()).rev() {
        let entry = kept[i];
        let line = entry.tag as usize;
        if line < replies.len() {
            replies[line] = entry.reply;
        }
    }
    Ok(replies)
}
