//! The rows of an entry list, each read alone.

ghost use Rattle.std.specs.Prelude.{◌≡◌, Some, map, IfOk};
ghost use Rattle.csv.specs.Records.{fields_of};
ghost use Rattle.regatta_tables.specs.ListedRows.{listed_field, listed_in, listed_of_text};

use crate::entries::{is_blank, sail_column};
use crate::records::{fields_in, records_of, without_spaces};
use csv::ByteRecord;
use regatta_scores::Items;
use regatta_terms::Sail;
use std::alloc::{AllocError, Global};

/// What a row of an entry list names, whatever the other rows do.
#[derive(Clone, Copy, Debug, PartialEq, Eq)]
pub enum Listed {
    /// Nothing: each of its fields is empty or spaces.
    Blank,
    /// Nothing: it has no field in the column of sails.
    NoField,
    /// Something else than a sail number.
    NoSail,
    /// A boat.
    Boat(Sail),
}

/// What the field in the column of sails names.
fn listed_field(alloc: Global, field: &[u8]) -> Result<Listed, AllocError>
    ensures { IfOk result (λ listed. listed ≡ listed_field (Some field.now)) }
{
    let name = without_spaces(alloc, field)?;
    match Sail::read(&name) {
        Some(sail) => Ok(Listed::Boat(sail)),
        None => Ok(Listed::NoSail),
    }
}

/// What a record with these fields names.
fn listed_fields(alloc: Global, column: usize, fields: &[&[u8]]) -> Result<Listed, AllocError>
    ensures { IfOk result (λ listed.
        listed ≡ listed_in column (map (λ field. field.now) fields.now)) }
{
    if is_blank(fields) {
        return Ok(Listed::Blank);
    }
    match fields.get(column) {
        Some(field) => {
            let listed = listed_field(alloc, field)?;
            Ok(listed)
        }
        None => Ok(Listed::NoField),
    }
}

/// What a record names.
fn listed_row(alloc: Global, column: usize, row: &ByteRecord) -> Result<Listed, AllocError>
    ensures { IfOk result (λ listed. listed ≡ listed_in column (fields_of row.now)) }
{
    let fields = fields_in(alloc, row)?;
    let listed = listed_fields(alloc, column, &fields)?;
    Ok(listed)
}

/// What records name.
fn listed_under(
    alloc: Global,
    column: usize,
    records: &[ByteRecord],
) -> Result<Vec<Listed>, AllocError>
    ensures { IfOk result (λ rows.
        rows.items ≡ map (listed_in column) (map fields_of records.now)) }
{
    let mut rows = Vec::new(alloc);
    for record in records {
        rows.push(listed_row(alloc, column, record)?)?;
    }
    Ok(rows)
}

/// Returns what each row of an entry list after its header names; `None` if the header has no column
/// of sails, or there is no header. The column, spaces and records are those of
/// [`read_entries`](crate::read_entries).
///
/// # Errors
///
/// If memory runs out.
pub fn listed_rows(alloc: Global, text: &[u8]) -> Result<Option<Items<Listed>>, AllocError>
    ensures { IfOk result (λ rows. rows ≡ listed_of_text text.now) }
{
    let Ok(records) = records_of(alloc, text) else {
        return Err(AllocError);
    };
    let Some((header, records)) = records.as_slice().split_first() else {
        return Ok(None);
    };
    match sail_column(alloc, header)? {
        Some(column) => {
            let rows = listed_under(alloc, column, records)?;
            Ok(Some(Items::new(rows)))
        }
        None => Ok(None),
    }
}
