//! Pieces of a document.

ghost use Rattle.std.specs.Prelude.{◌≡◌, flat_map, take, vec_capacity, OnOk, OnErr};
ghost use Rattle.regatta_json.specs.Pushed.{Pushed};
ghost use Rattle.regatta_json.specs.Rows.{flag_text};

use std::alloc::AllocError;

/// The word for a truth value.
pub fn flag(holds: bool) -> &'static [u8]
    ensures { result.now ≡ flag_text holds }
{
    if holds { b"true" } else { b"false" }
}

/// Appends the pieces, one after another.
///
/// # Errors
///
/// `AllocError` if an allocation fails, and never if `out` has room for the pieces. Some first part
/// of them may then be appended.
pub fn push_pieces(out: &mut Vec<u8>, pieces: &[&[u8]]) -> Result<(), AllocError>
    ensures { Pushed (flat_map (λ piece. piece.now) pieces.now) out.old out.new result }
{
    for piece in pieces {
        out.extend_from_slice(piece)?;
    }
    Ok(())
}

/// The result of appending a text at `start`; an `Err` removes the part that was appended.
pub fn settle(
    out: &mut Vec<u8>,
    start: usize,
    pushed: Result<(), AllocError>,
) -> Result<(), AllocError>
    ensures value { result ≡ pushed }
    ensures ok { OnOk result (out.new.items ≡ out.old.items) }
    ensures err { OnErr result (out.new.items ≡ take start out.old.items) }
    ensures room { vec_capacity out.new ≡ vec_capacity out.old }
{
    if pushed.is_err() {
        out.truncate(start);
    }
    pushed
}
