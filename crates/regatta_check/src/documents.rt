//! The whole document.

ghost use Rattle.std.specs.Prelude.{◌≡◌, ◌≤◌, ◌<◌, ◌++◌, ◌+◌, take, length, vec_len};
ghost use Rattle.std.specs.Prelude.{vec_capacity, IsOk, OnOk, OnErr};
ghost use Rattle.regatta_json.specs.Pushed.{Pushed};
ghost use Rattle.regatta_json.specs.Rows.{rows};
ghost use Rattle.regatta_check.specs.Documents.{document_text, lines_text};
ghost use Rattle.regatta_check.specs.Rows.{fault_row, row_fault_row};

use crate::parts::{Check, Fault, RowFault};
use crate::rows::{push_fault_row, push_row_fault_row, push_torn_value};
use regatta_json::{ItemWriter, push_pieces, push_rows, settle};
use regatta_scores::Items;
use std::alloc::AllocError;

/// Appends the document.
///
/// # Errors
///
/// `AllocError` if an allocation fails, and never if `out` has room for the text. After an error
/// `out` has its old contents; its capacity is never less.
pub fn write_document(check: &Check, out: &mut Vec<u8>) -> Result<(), AllocError>
    ensures ok { OnOk result (out.new.items ≡ out.old.items ++ document_text check.now) }
    ensures err { OnErr result (out.new.items ≡ out.old.items) }
    ensures room { vec_capacity out.old ≤ vec_capacity out.new }
    ensures fits { vec_len out.old + length (document_text check.now) ≤ vec_capacity out.old
        → IsOk result }
{
    let start = out.len();
    let pushed = push_document(check, out);
    settle(out, start, pushed)
}

/// Appends the same text, but an `Err` leaves some first part of it.
#[tactic(auto, unfolding(crate::specs::Documents::document_text))]
fn push_document(check: &Check, out: &mut Vec<u8>) -> Result<(), AllocError>
    ensures ok { OnOk result (out.new.items ≡ out.old.items ++ document_text check.now) }
    ensures err { OnErr result (take (vec_len out.old) out.new.items ≡ out.old.items) }
    ensures room { vec_capacity out.old ≤ vec_capacity out.new }
    ensures full { OnErr result (vec_capacity out.old < vec_len out.old + length (document_text check.now)) }
{
    push_lines(check, out)?;
    push_pieces(out, &[b",\n\"rows\":[\n"])?;
    push_row_faults(&check.rows, out)?;
    push_pieces(out, &[b"\n]}\n"])?;
    Ok(())
}

/// Appends the lines of a text, and its end.
#[tactic(auto, unfolding(crate::specs::Documents::lines_text))]
fn push_lines(check: &Check, out: &mut Vec<u8>) -> Result<(), AllocError>
    ensures ok { OnOk result (out.new.items ≡ out.old.items ++ lines_text check.now) }
    ensures err { OnErr result (take (vec_len out.old) out.new.items ≡ out.old.items) }
    ensures room { vec_capacity out.old ≤ vec_capacity out.new }
    ensures full { OnErr result (vec_capacity out.old < vec_len out.old + length (lines_text check.now)) }
{
    push_pieces(out, &[b"{\"faults\":[\n"])?;
    push_faults(&check.faults, out)?;
    push_pieces(out, &[b"\n],\n\"torn\":"])?;
    push_torn_value(&check.torn, out)?;
    Ok(())
}

/// Faults as rows.
struct Faults;

impl ItemWriter<Fault> for Faults {
    ghost use Rattle.regatta_check.specs.Rows.{fault_row as text_of};

    ghost text = { λ _ item. text_of item };

    fn push_item(&self, item: &Fault, out: &mut Vec<u8>) -> Result<(), AllocError> {
        push_fault_row(item, out)
    }
}

/// Appends faults as rows.
fn push_faults(items: &Items<Fault>, out: &mut Vec<u8>) -> Result<(), AllocError>
    ensures { Pushed (rows fault_row items.now) out.old out.new result }
{
    push_rows(&Faults, items.as_slice(), out)
}

/// Faults of rows of an entry list, as rows.
struct RowFaults;

impl ItemWriter<RowFault> for RowFaults {
    ghost use Rattle.regatta_check.specs.Rows.{row_fault_row as text_of};

    ghost text = { λ _ item. text_of item };

    fn push_item(&self, item: &RowFault, out: &mut Vec<u8>) -> Result<(), AllocError> {
        push_row_fault_row(item, out)
    }
}

/// Appends faults of rows of an entry list, as rows.
fn push_row_faults(items: &Items<RowFault>, out: &mut Vec<u8>) -> Result<(), AllocError>
    ensures { Pushed (rows row_fault_row items.now) out.old out.new result }
{
    push_rows(&RowFaults, items.as_slice(), out)
}
