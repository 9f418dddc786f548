//! The files that a series starts with.
ghost use Rattle.std.specs.Prelude.{IfOk};
ghost use Rattle.std.specs.Option.{option_copied};
ghost use Rattle.regatta_office.specs.Asked.{AreSailsAt, IsJournalAt};

use crate::complaint::Complaint;
use regatta_arguments::text_at;
use regatta_scores::Items;
use regatta_tables::{Journal, Sails, read_entries, read_journal};
use std::fs::Files;

/// The entries of the journal file, or none if no file is named.
pub(crate) fn journal_at<H: Files + AllocGlobal>(
    rt: &H,
    path: Option<&str>,
) -> Result<Journal, Complaint>
    ensures { IfOk result (IsJournalAt (option_copied path.entry)) }
{
    match path {
        Some(path) => Ok(read_journal(rt.alloc(), &text_at(rt, path)?)?),
        None => Ok(Items::new(Vec::new(rt.alloc()))),
    }
}

/// The sails of the entry list, or none if no file is named.
pub(crate) fn sails_at<H: Files + AllocGlobal>(
    rt: &H,
    path: Option<&str>,
) -> Result<Sails, Complaint>
    ensures { IfOk result (AreSailsAt (option_copied path.entry)) }
{
    match path {
        Some(path) => Ok(read_entries(rt.alloc(), &text_at(rt, path)?)?),
        None => Ok(Items::new(Vec::new(rt.alloc()))),
    }
}
