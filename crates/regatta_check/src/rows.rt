//! The rows of a check.

ghost use Rattle.regatta_json.specs.Pushed.{Pushed};
ghost use Rattle.regatta_check.specs.Rows.{fault_row, kind_text, named_text, place_text, torn_text};
ghost use Rattle.regatta_check.specs.Rows.{row_fault_row, row_kind_text, torn_value};

use crate::parts::{Fault, Kind, Place, RowFault, RowKind, Torn};
use itoa::Buffer;
use regatta_json::{flag, push_pieces};
use regatta_words::{name_of_fault, name_of_refusal};
use std::alloc::AllocError;

/// Appends where a line is.
#[tactic(auto, unfolding(crate::specs::Rows::place_text))]
fn push_place(place: &Place, out: &mut Vec<u8>) -> Result<(), AllocError>
    ensures { Pushed (place_text place.now) out.old out.new result }
{
    let mut line = Buffer::new();
    let mut at = Buffer::new();
    let mut bytes = Buffer::new();
    push_pieces(
        out,
        &[
            b"\"line\":",
            line.format(place.line).as_bytes(),
            b",\"at\":",
            at.format(place.at).as_bytes(),
            b",\"bytes\":",
            bytes.format(place.bytes).as_bytes(),
        ],
    )
}

/// Appends a kind, with the number and the name of why.
#[tactic(auto, unfolding(crate::specs::Rows::named_text))]
fn push_named(kind: &[u8], number: u8, name: &[u8], out: &mut Vec<u8>) -> Result<(), AllocError>
    ensures { Pushed (named_text kind.now number name.now) out.old out.new result }
{
    let mut digits = Buffer::new();
    push_pieces(
        out,
        &[
            b"\"fault\":\"",
            kind,
            b"\",\"number\":",
            digits.format(number).as_bytes(),
            b",\"name\":\"",
            name,
            b"\"",
        ],
    )
}

/// Appends what is wrong with a line.
#[tactic(auto, unfolding(crate::specs::Rows::kind_text))]
fn push_kind(kind: &Kind, out: &mut Vec<u8>) -> Result<(), AllocError>
    ensures { Pushed (kind_text kind.now) out.old out.new result }
{
    match kind {
        Kind::BadVersion => push_pieces(out, &[b"\"fault\":\"BadVersion\""]),
        Kind::BadLine(why) => push_named(b"BadLine", why.number(), name_of_fault(*why), out),
        Kind::TooMany => push_pieces(out, &[b"\"fault\":\"TooMany\""]),
        Kind::Refused(why) => push_named(b"Refused", why.number(), name_of_refusal(*why), out),
    }
}

/// Appends a line that something is wrong with.
#[tactic(auto, unfolding(crate::specs::Rows::fault_row))]
pub(crate) fn push_fault_row(fault: &Fault, out: &mut Vec<u8>) -> Result<(), AllocError>
    ensures { Pushed (fault_row fault.now) out.old out.new result }
{
    push_pieces(out, &[b"{"])?;
    push_place(&fault.place, out)?;
    push_pieces(out, &[b","])?;
    push_kind(&fault.kind, out)?;
    push_pieces(out, &[b"}"])?;
    Ok(())
}

/// Appends the end of a kept file.
#[tactic(auto, unfolding(crate::specs::Rows::torn_text))]
fn push_torn(torn: &Torn, out: &mut Vec<u8>) -> Result<(), AllocError>
    ensures { Pushed (torn_text torn.now) out.old out.new result }
{
    let mut lines = Buffer::new();
    let mut at = Buffer::new();
    let mut bytes = Buffer::new();
    push_pieces(
        out,
        &[
            b"{\"lines\":",
            lines.format(torn.lines).as_bytes(),
            b",\"at\":",
            at.format(torn.at).as_bytes(),
            b",\"bytes\":",
            bytes.format(torn.bytes).as_bytes(),
            b",\"damaged\":",
            flag(torn.is_damage),
            b"}",
        ],
    )
}

/// Appends the end of a kept file, or null.
#[tactic(auto, unfolding(crate::specs::Rows::torn_value))]
pub(crate) fn push_torn_value(torn: &Option<Torn>, out: &mut Vec<u8>) -> Result<(), AllocError>
    ensures { Pushed (torn_value torn.now) out.old out.new result }
{
    match torn {
        Some(torn) => push_torn(torn, out),
        None => push_pieces(out, &[b"null"]),
    }
}

/// Appends what is wrong with a row of an entry list.
#[tactic(auto, unfolding(crate::specs::Rows::row_kind_text))]
fn push_row_kind(kind: &RowKind, out: &mut Vec<u8>) -> Result<(), AllocError>
    ensures { Pushed (row_kind_text kind.now) out.old out.new result }
{
    match kind {
        RowKind::NoColumn => push_pieces(out, &[b"\"fault\":\"NoColumn\""]),
        RowKind::BadRow => push_pieces(out, &[b"\"fault\":\"BadRow\""]),
        RowKind::BadSail => push_pieces(out, &[b"\"fault\":\"BadSail\""]),
        RowKind::Twice => push_pieces(out, &[b"\"fault\":\"Twice\""]),
        RowKind::TooMany => push_pieces(out, &[b"\"fault\":\"TooMany\""]),
        RowKind::Refused(why) => push_named(b"Refused", why.number(), name_of_refusal(*why), out),
    }
}

/// Appends a row of an entry list that something is wrong with.
#[tactic(auto, unfolding(crate::specs::Rows::row_fault_row))]
pub(crate) fn push_row_fault_row(fault: &RowFault, out: &mut Vec<u8>) -> Result<(), AllocError>
    ensures { Pushed (row_fault_row fault.now) out.old out.new result }
{
    let mut row = Buffer::new();
    push_pieces(out, &[b"{\"row\":", row.format(fault.row).as_bytes(), b","])?;
    push_row_kind(&fault.kind, out)?;
    push_pieces(out, &[b"}"])?;
    Ok(())
}
