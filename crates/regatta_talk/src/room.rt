//! Room for a reply.
ghost use Rattle.std.specs.Prelude.{◌≡◌, ◌+◌, ◌≤◌, ◌++◌, IsOk, OnOk, OnErr, vec_len};
ghost use Rattle.std.specs.Prelude.{vec_capacity};
ghost use Rattle.regatta_tables.specs.ReplyTexts.{reply_text};
ghost use Rattle.regatta_tables.specs.declared.replies.TheConstants.{REPLY_ROOM};

use regatta_tables::{REPLY_ROOM, write_reply};
use regatta_terms::Reply;
use std::alloc::AllocError;

/// Makes room for a reply after the bytes of `out`. If there is room already, it allocates nothing
/// and never fails.
///
/// # Errors
///
/// If the allocation fails. The bytes and the room then stay as they were.
pub fn make_room(out: &mut Vec<u8>) -> Result<(), AllocError>
    ensures room { OnOk result (vec_len out.new + REPLY_ROOM ≤ vec_capacity out.new) }
    ensures same { out.new.items ≡ out.old.items }
    ensures fits { vec_len out.old + REPLY_ROOM ≤ vec_capacity out.old → IsOk result }
    ensures stays { vec_len out.old + REPLY_ROOM ≤ vec_capacity out.old
        → vec_capacity out.new ≡ vec_capacity out.old }
    ensures err { OnErr result (vec_capacity out.new ≡ vec_capacity out.old) }
{
    if REPLY_ROOM <= out.capacity() - out.len() {
        return Ok(());
    }
    out.reserve(REPLY_ROOM)
}

/// Appends a reply to bytes that have room for it. It allocates nothing.
pub fn write_fitting(reply: &Reply, out: &mut Vec<u8>)
    requires { vec_len out.old + REPLY_ROOM ≤ vec_capacity out.old }
    ensures text { out.new.items ≡ out.old.items ++ reply_text reply.now }
    ensures stays { vec_capacity out.new ≡ vec_capacity out.old }
{
    write_reply(reply, out).unwrap();
}
