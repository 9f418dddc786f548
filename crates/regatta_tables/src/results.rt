//! The standing as CSV.

ghost use Rattle.std.specs.Prelude.{◌≡◌, ◌++◌, Some, false, IfOk, OnOk, map};
ghost use Rattle.std.specs.Prelude.{flat_map, codes, decimal};
ghost use Rattle.std.specs.Io.KnownBytes.{Appends};
ghost use Rattle.csv.specs.Writing as written;
ghost use Rattle.csv.specs.Writing.{row_text};
ghost use Rattle.regatta_tables.specs.CsvTexts.{any_lengths, csv_text, header_fields};
ghost use Rattle.regatta_tables.specs.TableTexts.{row_words, cell_text};
ghost use Rattle.regatta_tables.specs.Written.{Appended};

use crate::cells::{CELL_ROOM, put_cell};
use crate::pieces::rank_word;
use csv::{Error, Writer, WriterBuilder};
use itoa::Buffer;
use regatta_scores::{Cell, Row, Standing};
use regatta_terms::{RaceNo, points_word};
use std::alloc::{AllocError, Global};

/// Appends the standing as CSV: a header, and a record for each boat.
///
/// # Errors
///
/// `AllocError` if an allocation fails, also one of the `csv` writer's own. `out` then has its old
/// contents, and its capacity is never less.
pub fn write_csv(alloc: Global, standing: &Standing, out: &mut Vec<u8>) -> Result<(), AllocError>
    ensures { Appended (csv_text standing.now) out.old out.new result }
{
    let Ok(text) = results(alloc, standing) else {
        return Err(AllocError);
    };
    out.extend_from_slice(text.as_slice())
}

/// The text of the standing, as `csv` writes it.
fn results(alloc: Global, standing: &Standing) -> Result<Vec<u8>, Error>
    ensures { IfOk result (λ text. text.items ≡ csv_text standing.now) }
{
    // A flexible writer takes records of any length, so that the only error is a failed allocation.
    let mut writer = WriterBuilder::new()
        .flexible(true)
        .from_writer(Vec::new(alloc));
    write_results(alloc, &mut writer, standing)?;
    match writer.into_inner() {
        Ok(text) => Ok(text),
        Err(error) => Err(error.into_error()),
    }
}

/// Writes the header, and a record for each boat.
fn write_results(
    alloc: Global,
    writer: &mut Writer<Vec<u8>>,
    standing: &Standing,
) -> Result<(), Error>
    requires fields { written.fields_written writer.old ≡ 0 }
    requires wrote { written.has_written writer.old ≡ false }
    requires setup { written.writer_setup writer.old ≡ any_lengths }
    ensures text { OnOk result (Appends
        (written.text_written (λ v. Some v.items) writer.old)
        (written.text_written (λ v. Some v.items) writer.new)
        (csv_text standing.now)) }
{
    let Ok(header) = header_record(alloc, standing.races.as_slice()) else {
        return Err(Error::out_of_memory());
    };
    write_record(alloc, writer, header.as_slice())?;
    write_rows(alloc, writer, standing.rows.as_slice())?;
    Ok(())
}

/// Writes a record for each boat.
fn write_rows(alloc: Global, writer: &mut Writer<Vec<u8>>, rows: &[Row]) -> Result<(), Error>
    requires fields { written.fields_written writer.old ≡ 0 }
    requires wrote { written.has_written writer.old ≡ false }
    requires setup { written.writer_setup writer.old ≡ any_lengths }
    ensures text { OnOk result (Appends
        (written.text_written (λ v. Some v.items) writer.old)
        (written.text_written (λ v. Some v.items) writer.new)
        (flat_map (λ row. row_text any_lengths (row_words row)) rows.now)) }
{
    for row in rows {
        let Ok(record) = row_record(alloc, row) else {
            return Err(Error::out_of_memory());
        };
        write_record(alloc, writer, record.as_slice())?;
    }
    Ok(())
}

fn write_record(alloc: Global, writer: &mut Writer<Vec<u8>>, texts: &[Vec<u8>]) -> Result<(), Error>
    requires fields { written.fields_written writer.old ≡ 0 }
    requires wrote { written.has_written writer.old ≡ false }
    requires setup { written.writer_setup writer.old ≡ any_lengths }
    ensures text { OnOk result (Appends
        (written.text_written (λ v. Some v.items) writer.old)
        (written.text_written (λ v. Some v.items) writer.new)
        (row_text any_lengths (map (λ field. field.items) texts.now))) }
    ensures fields { OnOk result (written.fields_written writer.new ≡ 0) }
    ensures wrote { OnOk result (written.has_written writer.new ≡ false) }
    ensures setup { OnOk result (written.writer_setup writer.new ≡ any_lengths) }
{
    let Ok(fields) = slices_of(alloc, texts) else {
        return Err(Error::out_of_memory());
    };
    writer.write_fields(fields.as_slice())?;
    Ok(())
}

fn slices_of(alloc: Global, texts: &[Vec<u8>]) -> Result<Vec<&[u8]>, AllocError>
    ensures { IfOk result (λ slices.
        map (λ slice. slice.now) slices.items ≡ map (λ field. field.items) texts.now) }
{
    let mut slices = Vec::new(alloc);
    for field in texts {
        slices.push(field.as_slice())?;
    }
    Ok(slices)
}

/// The header: a column for the rank, the sail, the net, and each race.
fn header_record(alloc: Global, races: &[RaceNo]) -> Result<Vec<Vec<u8>>, AllocError>
    ensures { IfOk result (λ fields.
        map (λ field. field.items) fields.items ≡ header_fields races.now) }
{
    let mut record = Vec::new(alloc);
    push_fields(alloc, &[b"rank", b"sail", b"net"], &mut record)?;
    push_race_fields(alloc, races, &mut record)?;
    Ok(record)
}

/// Appends a field for each text.
fn push_fields(alloc: Global, texts: &[&[u8]], fields: &mut Vec<Vec<u8>>) -> Result<(), AllocError>
    ensures { OnOk result (map (λ field. field.items) fields.new.items
        ≡ map (λ field. field.items) fields.old.items ++ map (λ text. text.now) texts.now) }
{
    for text in texts {
        fields.push(Vec::from_slice(alloc, text)?)?;
    }
    Ok(())
}

/// Appends the names of the races' columns.
fn push_race_fields(
    alloc: Global,
    races: &[RaceNo],
    fields: &mut Vec<Vec<u8>>,
) -> Result<(), AllocError>
    ensures { OnOk result (map (λ field. field.items) fields.new.items
        ≡ map (λ field. field.items) fields.old.items
        ++ map (λ race. codes "R" ++ decimal race) races.now) }
{
    for race in races {
        fields.push(race_field(alloc, *race)?)?;
    }
    Ok(())
}

/// The name of a race's column.
fn race_field(alloc: Global, race: RaceNo) -> Result<Vec<u8>, AllocError>
    ensures { IfOk result (λ field. field.items ≡ codes "R" ++ decimal race) }
{
    let mut number = Buffer::new();
    let mut field = Vec::from_slice(alloc, b"R")?;
    field.extend_from_slice(number.format(race.get()).as_bytes())?;
    Ok(field)
}

/// The record of a boat: the words of her row in the table.
fn row_record(alloc: Global, row: &Row) -> Result<Vec<Vec<u8>>, AllocError>
    ensures { IfOk result (λ fields.
        map (λ field. field.items) fields.items ≡ row_words row.now) }
{
    let (mut rank, mut net) = ([0; 6], [0; 11]);
    let rank = rank_word(&mut rank, row.rank, row.tied);
    let sail = row.sail.as_bytes();
    let net = points_word(&mut net, row.net);
    let mut record = Vec::new(alloc);
    push_fields(alloc, &[rank, sail, net], &mut record)?;
    push_cell_fields(alloc, row.cells.as_slice(), &mut record)?;
    Ok(record)
}

/// Appends the scores of a boat, each as a field.
fn push_cell_fields(
    alloc: Global,
    cells: &[Cell],
    fields: &mut Vec<Vec<u8>>,
) -> Result<(), AllocError>
    ensures { OnOk result (map (λ field. field.items) fields.new.items
        ≡ map (λ field. field.items) fields.old.items ++ map cell_text cells.now) }
{
    for cell in cells {
        fields.push(cell_field(alloc, cell)?)?;
    }
    Ok(())
}

/// A boat's score in one race.
fn cell_field(alloc: Global, cell: &Cell) -> Result<Vec<u8>, AllocError>
    ensures { IfOk result (λ field. field.items ≡ cell_text cell.now) }
{
    let mut text = [0; CELL_ROOM];
    let end = put_cell(&mut text, 0, cell);
    Vec::from_slice(alloc, &text[..end])
}
