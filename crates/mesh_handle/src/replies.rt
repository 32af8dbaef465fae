//! The numbers that tell replies.

ghost use Rattle.std.specs.Prelude.{◌≡◌};
ghost use Rattle.mesh_handle.specs.Replies.{reply_number};

use edit_history::Reply;

/// The number of a reply.
pub fn number_of(reply: Reply) -> u8
    ensures { result ≡ reply_number reply }
{
    match reply {
        Reply::Inserted => 0,
        Reply::Duplicate => 1,
        Reply::Removed => 2,
        Reply::Missing => 3,
        Reply::Flat => 4,
        Reply::Moved => 5,
        Reply::Occupied => 6,
    }
}
