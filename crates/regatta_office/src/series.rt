//! What a series starts with.
ghost use Rattle.std.specs.Prelude.{IfOk};
ghost use mathlib.Core.List.{IsPrefix};
ghost use Rattle.regatta_office.specs.Asked.{ArePartsOf, Begins, BeginsKept};
ghost use Rattle.regatta_office.specs.Asked.{IsJournalOfSome};

use crate::complaint::Complaint;
use crate::kept_start::kept_start_of;
use crate::options::SeriesOptions;
use crate::start_files::{journal_at, sails_at};
use crate::start_list::start_of;
use regatta_tables::{Journal, Sails};
use regatta_terms::{Entry, Rules};
use std::fs::Files;

/// The rules of a series, and the entries that it starts with.
#[derive(Drop)]
pub(crate) struct Beginning {
    pub(crate) rules: Rules,
    pub(crate) start: Journal,
}

/// The rules of a series, the entries of its journal file, and the sails of its entry list.
#[derive(Drop)]
pub(crate) struct Parts {
    rules: Rules,
    journal: Journal,
    sails: Sails,
}

/// Reads the texts of the rules, then the journal file, and then the entry list.
///
/// # Errors
///
/// The fault of the first of these that has one.
pub(crate) fn parts_of<H: Files + AllocGlobal>(
    rt: &H,
    series: &SeriesOptions<'_>,
) -> Result<Parts, Complaint>
    ensures { IfOk result (λ parts. ArePartsOf series.now parts.rules parts.journal parts.sails) }
{
    let rules = Rules::read(series.absent, series.scp, series.exclude, series.handicap)?;
    let journal = journal_at(rt, series.journal)?;
    let sails = sails_at(rt, series.entries)?;
    Ok(Parts {
        rules,
        journal,
        sails,
    })
}

/// The rules of a series, and the entries of its journal file followed by those of its entry list.
///
/// # Errors
///
/// The fault of the first of its texts and files that has one.
pub(crate) fn beginning_of<H: Files + AllocGlobal>(
    rt: &H,
    series: &SeriesOptions<'_>,
) -> Result<Beginning, Complaint>
    ensures { IfOk result (λ begin. Begins series.now begin.rules begin.start) }
{
    let parts = parts_of(rt, series)?;
    let Parts {
        rules,
        journal,
        sails,
    } = parts;
    let start = start_of(rt.alloc(), journal.as_slice(), sails.as_slice())?;
    Ok(Beginning { rules, start })
}

/// The rules of a series that is kept, and the entries that go on from those that are kept.
///
/// # Errors
///
/// If the journals of both files differ, or an allocation fails.
pub(crate) fn kept_beginning_of<H: Files + AllocGlobal>(
    rt: &H,
    series: &SeriesOptions<'_>,
    parts: Parts,
    kept: &[Entry],
) -> Result<Beginning, Complaint>
    requires parts { ArePartsOf series.now parts.rules parts.journal parts.sails }
    requires some { IsJournalOfSome kept.now }
    ensures begins { IfOk result (λ begin. BeginsKept series.now begin.rules begin.start) }

    // Nothing that is kept is lost.
    ensures kept { IfOk result (λ begin. IsPrefix kept.now begin.start) }
{
    let Parts {
        rules,
        journal,
        sails,
    } = parts;
    let start = kept_start_of(rt.alloc(), kept, journal.as_slice(), sails.as_slice())?;
    Ok(Beginning { rules, start })
}
