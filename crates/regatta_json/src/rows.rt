//! The rows of a list, and the values of one.

ghost use Rattle.std.specs.Prelude.{ℕ, List, flat_map};
ghost use Rattle.regatta_json.specs.Pushed.{Pushed};
ghost use Rattle.regatta_json.specs.Rows.{listed, next_text, rows, values};

use crate::pieces::push_pieces;
use std::alloc::AllocError;

/// How the items of a list are written.
pub trait ItemWriter<T> {
    /// The text of an item.
    ghost text: { Self → T → List ℕ };

    /// Appends the item's text.
    ///
    /// # Errors
    ///
    /// `AllocError` if an allocation fails, and never if `out` has room for the text. Some first
    /// part of it may then be appended.
    fn push_item(&self, item: &T, out: &mut Vec<u8>) -> Result<(), AllocError>
        ensures { Pushed (text self.now item.now) out.old out.new result };
}

/// Appends an item that isn't the first of its list.
fn push_next<T, W: ItemWriter<T>>(
    separator: &[u8],
    writer: &W,
    item: &T,
    out: &mut Vec<u8>,
) -> Result<(), AllocError>
    ensures { Pushed (next_text separator.now (W.text writer.now) item.now) out.old out.new result }
{
    push_pieces(out, &[separator])?;
    writer.push_item(item, out)?;
    Ok(())
}

/// Appends items that aren't the first of their list.
fn push_rest<T, W: ItemWriter<T>>(
    separator: &[u8],
    writer: &W,
    items: &[T],
    out: &mut Vec<u8>,
) -> Result<(), AllocError>
    ensures { Pushed (flat_map (next_text separator.now (W.text writer.now)) items.now)
        out.old out.new result }
{
    for item in items {
        push_next(separator, writer, item, out)?;
    }
    Ok(())
}

/// Appends the items of a list, separated.
fn push_listed<T, W: ItemWriter<T>>(
    separator: &[u8],
    writer: &W,
    items: &[T],
    out: &mut Vec<u8>,
) -> Result<(), AllocError>
    ensures { Pushed (listed separator.now (W.text writer.now) items.now) out.old out.new result }
{
    match items.split_first() {
        Some((first, rest)) => {
            writer.push_item(first, out)?;
            push_rest(separator, writer, rest, out)?;
            Ok(())
        }
        None => Ok(()),
    }
}

/// Appends the rows of a list, with a comma and a line feed between them.
///
/// # Errors
///
/// `AllocError` if an allocation fails, and never if `out` has room for the text. Some first part
/// of it may then be appended.
pub fn push_rows<T, W: ItemWriter<T>>(
    writer: &W,
    items: &[T],
    out: &mut Vec<u8>,
) -> Result<(), AllocError>
    ensures { Pushed (rows (W.text writer.now) items.now) out.old out.new result }
{
    push_listed(b",\n", writer, items, out)
}

/// Appends the values of a list, with commas between them.
///
/// # Errors
///
/// `AllocError` if an allocation fails, and never if `out` has room for the text. Some first part
/// of it may then be appended.
pub fn push_values<T, W: ItemWriter<T>>(
    writer: &W,
    items: &[T],
    out: &mut Vec<u8>,
) -> Result<(), AllocError>
    ensures { Pushed (values (W.text writer.now) items.now) out.old out.new result }
{
    push_listed(b",", writer, items, out)
}
