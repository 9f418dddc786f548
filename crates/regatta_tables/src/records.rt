//! The records of a text of comma-separated values.

ghost use Rattle.std.specs.Prelude.{◌≡◌, false, true, IfOk, IfErr, map};
ghost use Rattle.csv.specs.Reading.{builder_config, builder_is_flexible, builder_names_headers};
ghost use Rattle.csv.specs.Reading.{builder_trim, default_config, records, stops_reader, strip_bom};
ghost use Rattle.csv.specs.Records.{fields_of};
ghost use Rattle.regatta_tables.specs.EntryLists.{without_spaces};

use csv::{ByteRecord, ErrorKind, ReaderBuilder};
use std::alloc::{AllocError, Global};

/// Sets the reader up for records of any lengths, of which none is set apart as a header.
fn set_up(settings: &mut ReaderBuilder) -> &mut ReaderBuilder
    ensures config { builder_config result.now ≡ builder_config settings.old }
    ensures lengths { builder_is_flexible result.now ≡ true }
    ensures header { builder_names_headers result.now ≡ false }
    ensures spaces { builder_trim result.now ≡ builder_trim settings.old }
{
    settings.has_headers(false).flexible(true)
}

/// Every record of a text, of any length and with no header set apart. A byte order mark at the
/// very start is dropped. An error is the device's or a failed allocation. Records of different
/// lengths and bytes that aren't text are no error.
pub fn records_of(alloc: Global, text: &[u8]) -> Result<Vec<ByteRecord>, ErrorKind>
    ensures ok { IfOk result (λ rows.
        map fields_of rows.items ≡ records default_config (strip_bom text.now)) }
    ensures error { IfErr result (λ kind. stops_reader kind ≡ true) }
{
    let reader = set_up(&mut ReaderBuilder::new()).from_reader(alloc, text);
    let mut records = Vec::new(alloc);
    for read in reader.into_byte_records() {
        let row = match read {
            Ok(row) => row,
            Err(error) => return Err(error.into_kind()),
        };
        if records.push(row).is_err() {
            return Err(ErrorKind::OutOfMemory);
        }
    }
    Ok(records)
}

/// The fields of a record, in order.
#[tactic(auto, using(crate::proofs::ListFacts::field_more, crate::proofs::ListFacts::field_none))]
pub fn fields_in(alloc: Global, row: &ByteRecord) -> Result<Vec<&[u8]>, AllocError>
    ensures { IfOk result (λ fields.
        map (λ field. field.now) fields.items ≡ fields_of row.now) }
{
    let mut fields = Vec::new(alloc);
    for field in row {
        fields.push(field)?;
    }
    Ok(fields)
}

/// A field without its spaces, wherever they are.
pub fn without_spaces(alloc: Global, field: &[u8]) -> Result<Vec<u8>, AllocError>
    ensures { IfOk result (λ rest. rest.items ≡ without_spaces field.now) }
{
    let mut rest = Vec::from_slice(alloc, field)?;
    rest.retain(|byte| *byte != b' ');
    Ok(rest)
}
