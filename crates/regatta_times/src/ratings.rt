//! The ratings of a class, from its entry list.

ghost use Rattle.std.specs.Prelude.{◌≡◌, ◌⊎◌, [], Ok, Err, IfOk, IfErr, OnOk, map};
ghost use Rattle.csv.specs.Reading.{default_config, records, strip_bom};
ghost use Rattle.csv.specs.Records.{fields_of};
ghost use Rattle.regatta_tables.specs.EntryLists.{entries_of_text};
ghost use Rattle.regatta_times.specs.Ratings.{checked, handicap_for, handicap_of, in_turn};
ghost use Rattle.regatta_times.specs.Ratings.{rated_of, rating_added, ratings_of};
ghost use Rattle.regatta_times.specs.Ratings.{ratings_of_text, ratings_under, signed_of};

use crate::columns::{column_of, sail_column};
use crate::fault::{SheetFault, fault_of_sails};
use crate::reading::{read_allowance, read_factor, read_portsmouth};
use crate::records::{Field, cell, plain_fields, title_of, titles_of};
use crate::system::{Handicap, System};
use csv::ByteRecord;
use regatta_tables::{Sails, read_entries, records_of};
use regatta_terms::Sail;
use std::alloc::Global;

/// A boat with her rating.
#[derive(Clone, Copy, Debug)]
pub struct Rated {
    /// Her sail.
    pub sail: Sail,
    /// Her rating.
    pub handicap: Handicap,
}

/// The allowance for each mile that a word writes, as `120.5` or `-12`.
fn read_signed(word: &[u8]) -> Option<Handicap>
    ensures { result ≡ signed_of word.now }
{
    let [first, rest @ ..] = word else {
        return None;
    };
    if *first == b'-' {
        let allowance = read_allowance(rest)?;
        Some(Handicap::ByAddition(allowance))
    } else {
        let allowance = read_allowance(word)?;
        Some(Handicap::ByAllowance(allowance))
    }
}

/// The rating that a word writes in this system; `None` for every other word. A factor has up to
/// four decimals, a Portsmouth number up to four digits, and an allowance in seconds a mile up to
/// two decimals and perhaps a minus.
pub fn read_handicap(system: System, word: &[u8]) -> Option<Handicap>
    ensures { result ≡ handicap_of system word.now }
{
    match system {
        System::Tcf => {
            let factor = read_factor(word)?;
            Some(Handicap::ByFactor(factor))
        }
        System::Py => {
            let number = read_portsmouth(word)?;
            Some(Handicap::ByNumber(number))
        }
        System::Tod => read_signed(word),
    }
}

/// Checks that a text is an entry list, whose sails are read as everywhere in the office.
pub(crate) fn check_sails(alloc: Global, text: &[u8]) -> Result<Sails, SheetFault>
    ensures ok { IfOk result (λ sails. checked (entries_of_text text.now) ≡ Ok sails) }
    ensures fault { IfErr result (λ fault. (fault ≡ SheetFault.NoMemory)
        ⊎ (checked (entries_of_text text.now) ≡ Err fault)) }
{
    match read_entries(alloc, text) {
        Ok(sails) => Ok(sails),
        Err(fault) => Err(fault_of_sails(fault)),
    }
}

/// Reads the ratings of a class from its entry list: the column with this heading, in letters of
/// either case, where spaces don't matter. A boat whose field is empty has none.
///
/// # Errors
///
/// The first fault of the sails, as of an entry list. Then `NoRatings`, or `BadRating` of the first
/// row whose rating isn't one of the system. `NoMemory` if an allocation fails.
pub fn read_ratings(
    alloc: Global,
    system: System,
    heading: &[u8],
    text: &[u8],
) -> Result<Vec<Rated>, SheetFault>
    ensures ok { IfOk result (λ found.
        ratings_of_text system heading.now text.now ≡ Ok found.items) }
    ensures fault { IfErr result (λ fault. (fault ≡ SheetFault.NoMemory)
        ⊎ (ratings_of_text system heading.now text.now ≡ Err fault)) }
{
    match check_sails(alloc, text) {
        Ok(_) => {}
        Err(fault) => return Err(fault),
    }
    match ratings_in(alloc, system, heading, text) {
        Ok(found) => Ok(found),
        Err(fault) => Err(fault),
    }
}

/// The ratings of a text, whose sails are checked already.
fn ratings_in(
    alloc: Global,
    system: System,
    heading: &[u8],
    text: &[u8],
) -> Result<Vec<Rated>, SheetFault>
    ensures ok { IfOk result (λ found. ratings_of system heading.now
        (records default_config (strip_bom text.now)) ≡ Ok found.items) }
    ensures fault { IfErr result (λ fault. (fault ≡ SheetFault.NoMemory)
        ⊎ (ratings_of system heading.now (records default_config (strip_bom text.now))
        ≡ Err fault)) }
{
    let Ok(records) = records_of(alloc, text) else {
        return Err(SheetFault::NoMemory);
    };
    let Some((header, records)) = records.as_slice().split_first() else {
        return Err(SheetFault::NoRatings);
    };
    let Ok(name) = title_of(alloc, heading) else {
        return Err(SheetFault::NoMemory);
    };
    let Ok(titles) = titles_of(alloc, header) else {
        return Err(SheetFault::NoMemory);
    };
    let sails = sail_column(&titles);
    let Some(ratings) = column_of(&name, &titles) else {
        return Err(SheetFault::NoRatings);
    };
    read_rows(alloc, system, sails, ratings, records)
}

/// The ratings of the records after the header.
fn read_rows(
    alloc: Global,
    system: System,
    sails: Option<usize>,
    ratings: usize,
    records: &[ByteRecord],
) -> Result<Vec<Rated>, SheetFault>
    ensures ok { IfOk result (λ found. ratings_under system sails (Some ratings)
        (map fields_of records.now) ≡ Ok found.items) }
    ensures fault { IfErr result (λ fault. (fault ≡ SheetFault.NoMemory)
        ⊎ (ratings_under system sails (Some ratings) (map fields_of records.now) ≡ Err fault)) }
{
    let mut found = Vec::new(alloc);
    for (number, boat) in records.iter().enumerate() {
        match add_rating(alloc, system, sails, ratings, number + 2, boat, &mut found) {
            Ok(()) => {}
            Err(fault) => return Err(fault),
        }
    }
    Ok(found)
}

/// Adds the rating in that row, or none. An `Err` may leave more of them.
fn add_rating(
    alloc: Global,
    system: System,
    sails: Option<usize>,
    ratings: usize,
    row: usize,
    boat: &ByteRecord,
    found: &mut Vec<Rated>,
) -> Result<(), SheetFault>
    ensures added { OnOk result (rating_added system sails (Some ratings) row found.old.items
        (fields_of boat.now) ≡ Ok found.new.items) }
    ensures fault { IfErr result (λ fault. (fault ≡ SheetFault.NoMemory)
        ⊎ (rating_added system sails (Some ratings) row found.old.items (fields_of boat.now)
        ≡ Err fault)) }
{
    let Ok(fields) = plain_fields(alloc, boat) else {
        return Err(SheetFault::NoMemory);
    };
    match rated_of(system, sails, ratings, row, &fields) {
        Ok(Some(rated)) => match found.push(rated) {
            Ok(()) => Ok(()),
            Err(_) => Err(SheetFault::NoMemory),
        },
        Ok(None) => Ok(()),
        Err(fault) => Err(fault),
    }
}

/// What the fields of a row say of a boat's rating.
fn rated_of(
    system: System,
    sails: Option<usize>,
    ratings: usize,
    row: usize,
    fields: &[Field],
) -> Result<Option<Rated>, SheetFault>
    ensures { result ≡ rated_of system sails (Some ratings) row fields.now }
{
    let Some(sail) = Sail::read(cell(fields, sails)) else {
        return Ok(None);
    };
    let text = cell(fields, Some(ratings));
    if text.is_empty() {
        return Ok(None);
    }
    match read_handicap(system, text) {
        Some(handicap) => Ok(Some(Rated { sail, handicap })),
        None => Err(SheetFault::BadRating { row }),
    }
}

/// The rating of a boat, if she has one.
#[tactic(auto, using(crate::proofs::SheetFacts::handicap_from, crate::proofs::SheetFacts::handicap_end))]
pub(crate) fn handicap_for(sail: &Sail, ratings: &[Rated]) -> Option<Handicap>
    ensures { result ≡ handicap_for sail.now ratings.now }
{
    for boat in ratings {
        if boat.sail == *sail {
            return Some(boat.handicap);
        }
    }
    None
}
