//! The fields of the records of a sheet, without spaces.

ghost use Rattle.std.specs.Prelude.{◌≡◌, IfOk, map, slice_get};
ghost use Rattle.csv.specs.Records.{fields_of};
ghost use Rattle.regatta_tables.specs.EntryLists.{without_spaces};
ghost use Rattle.regatta_times.specs.Columns.{cell, plain, title_of, titles};

use csv::ByteRecord;
use regatta_scores::Items;
use regatta_tables::{fields_in, without_spaces};
use std::alloc::{AllocError, Global};

/// A field of a record, as its bytes.
pub(crate) type Field = Items<u8>;

/// The fields of a record without their spaces, in order.
#[tactic(auto, using(crate::proofs::SheetFacts::texts_of))]
pub(crate) fn plain_fields(alloc: Global, row: &ByteRecord) -> Result<Vec<Field>, AllocError>
    ensures { IfOk result (λ fields. fields.items ≡ plain (fields_of row.now)) }
{
    let fields = fields_in(alloc, row)?;
    let texts = all_plain(alloc, &fields)?;
    Ok(texts)
}

fn all_plain(alloc: Global, fields: &[&[u8]]) -> Result<Vec<Field>, AllocError>
    ensures { IfOk result (λ texts.
        texts.items ≡ map (λ field. without_spaces field.now) fields.now) }
{
    let mut texts = Vec::new(alloc);
    for field in fields {
        texts.push(Items::new(without_spaces(alloc, field)?))?;
    }
    Ok(texts)
}

/// The titles of a header's columns: its fields without their spaces, in capital letters.
#[tactic(auto, using(crate::proofs::SheetFacts::texts_of))]
pub(crate) fn titles_of(alloc: Global, header: &ByteRecord) -> Result<Vec<Field>, AllocError>
    ensures { IfOk result (λ found. found.items ≡ titles (fields_of header.now)) }
{
    let fields = fields_in(alloc, header)?;
    let texts = all_titles(alloc, &fields)?;
    Ok(texts)
}

fn all_titles(alloc: Global, fields: &[&[u8]]) -> Result<Vec<Field>, AllocError>
    ensures { IfOk result (λ texts.
        texts.items ≡ map (λ field. title_of field.now) fields.now) }
{
    let mut texts = Vec::new(alloc);
    for field in fields {
        texts.push(Items::new(title_of(alloc, field)?))?;
    }
    Ok(texts)
}

/// The title that a heading names: without its spaces, in capital letters.
pub(crate) fn title_of(alloc: Global, heading: &[u8]) -> Result<Vec<u8>, AllocError>
    ensures { IfOk result (λ title. title.items ≡ title_of heading.now) }
{
    let mut title = without_spaces(alloc, heading)?;
    title.make_ascii_uppercase();
    Ok(title)
}

/// The field in a column; nothing without a column, or if the record is too short.
pub(crate) fn cell(fields: &[Field], column: Option<usize>) -> &[u8]
    ensures { result.now ≡ cell fields.now column }
{
    let Some(column) = column else {
        return b"";
    };
    match fields.get(column) {
        Some(field) => field.as_slice(),
        None => b"",
    }
}
