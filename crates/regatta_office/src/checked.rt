//! What is wrong with the files that a series starts with, as the program prints it.
ghost use Rattle.std.specs.Prelude.{◌≡◌, ◌↔◌, ◌⊎◌, ◌+◌, ℕ, List, Option, Some, None, true, false};
ghost use Rattle.std.specs.Prelude.{IfErr, IfOk, OnOk, IsErrOf};
ghost use Rattle.std.specs.Io.KnownBytes.{Appends, Keeps};
ghost use Rattle.std.specs.Option.{option_copied};
ghost use Rattle.regatta_check.specs.Checks.{is_sound};
ghost use Rattle.regatta_check.specs.Documents.{document_text};
ghost use Rattle.regatta_streams.specs.Texts.{AppendsPrefix};
ghost use Rattle.regatta_office.specs.Asked.{WritesAtMost};
ghost use Rattle.regatta_office.specs.CheckedStarts.{Accepts, AtMostCheckOf, ChecksText, IsCheckOf};
ghost use Rattle.regatta_office.specs.CheckedStarts.{IsTextAt, PrintsCheck, check_by};
ghost use Rattle.regatta_office.specs.Complaints.{status_of};
ghost use Rattle.regatta_office.specs.Faults.{failed_writes_in};

use crate::complaint::Complaint;
use crate::options::{CheckOptions, SeriesOptions};
use crate::scribe::ScribeFault;
use regatta_arguments::{Stop, text_at};
use regatta_check::{Check, check_of_journal, check_of_kept, write_document};
use regatta_streams::{Sink, write_all};
use regatta_terms::Rules;
use std::alloc::{AllocError, Global};
use std::fs::Files;

/// The text of a kept file, or why there is none.
fn kept_text_at<H: Files + AllocGlobal>(rt: &H, path: &str) -> Result<Vec<u8>, Complaint>
    ensures { IfOk result (λ text. IsTextAt (Some path.now) None text.items) }
{
    match text_at(rt, path) {
        Ok(text) => Ok(text),
        Err(Stop::TooLong) => Err(Complaint::KeepTooLong),
        Err(stop) => Err(Complaint::from(stop)),
    }
}

/// The text to check: of the kept file or of the journal file, or an empty one if neither is named.
///
/// # Errors
///
/// `TwoFiles` if both are named; else if the file can't be read.
fn text_to_check<H: Files + AllocGlobal>(
    rt: &H,
    keep: Option<&str>,
    journal: Option<&str>,
) -> Result<Vec<u8>, Complaint>
    ensures { IfOk result (λ text.
        IsTextAt (option_copied keep.entry) (option_copied journal.entry) text.items) }
{
    match (keep, journal) {
        (Some(_), Some(_)) => Err(Complaint::TwoFiles),
        (Some(path), None) => kept_text_at(rt, path),
        (None, Some(path)) => Ok(text_at(rt, path)?),
        (None, None) => Ok(Vec::new(rt.alloc())),
    }
}

/// The check of the text of a kept file or of a journal, and of that of an entry list.
fn check_of(
    alloc: Global,
    is_kept: bool,
    rules: &Rules,
    text: &[u8],
    list: Option<&[u8]>,
) -> Result<Check, AllocError>
    ensures check { IfOk result (λ check.
        check ≡ check_by is_kept rules.now text.now (option_copied list.entry)) }

    // Nothing is wrong exactly if a series starts with these texts.
    ensures accepts { IfOk result (λ check. (is_sound check ≡ true)
        ↔ Accepts is_kept rules.now text.now (option_copied list.entry)) }
{
    if is_kept {
        let check = check_of_kept(alloc, rules, text, list)?;
        return Ok(check);
    }
    let check = check_of_journal(alloc, rules, text, list)?;
    Ok(check)
}

/// The check of a text, and of the entry list at this path, if one is named.
fn check_with_list<H: Files + AllocGlobal>(
    rt: &H,
    is_kept: bool,
    rules: &Rules,
    text: &[u8],
    entries: Option<&str>,
) -> Result<Check, Complaint>
    ensures { IfOk result (ChecksText (option_copied entries.entry) is_kept rules.now text.now) }
{
    match entries {
        Some(path) => {
            let list = text_at(rt, path)?;
            let check = check_of(rt.alloc(), is_kept, rules, text, Some(&list))?;
            Ok(check)
        }
        None => {
            let check = check_of(rt.alloc(), is_kept, rules, text, None)?;
            Ok(check)
        }
    }
}

/// The check of the files of a series, of which the kept file may be named in place of the journal.
///
/// # Errors
///
/// The fault of the rules, or of the first file that can't be read, the journal or the kept file before
/// the entry list.
fn check_of_series<H: Files + AllocGlobal>(
    rt: &H,
    series: &SeriesOptions<'_>,
    keep: Option<&str>,
) -> Result<Check, Complaint>
    ensures { IfOk result (IsCheckOf (record {
      series = series.now;
      keep = option_copied keep.entry;
    })) }
{
    let rules = Rules::read(series.absent, series.scp, series.exclude, series.handicap)?;
    let text = text_to_check(rt, keep, series.journal)?;
    let is_kept = keep.is_some();
    let check = check_with_list(rt, is_kept, &rules, &text, series.entries)?;
    Ok(check)
}

/// The check that the options ask for.
fn check_asked_for<H: Files + AllocGlobal>(
    rt: &H,
    options: &CheckOptions<'_>,
) -> Result<Check, Complaint>
    ensures { IfOk result (IsCheckOf options.now) }
{
    let check = check_of_series(rt, &options.series, options.keep)?;
    Ok(check)
}

/// Prints the document of a check: the text is made whole and then written.
fn print_check<W: Sink>(alloc: Global, check: &Check, output: &mut W) -> Result<(), ScribeFault>
    ensures wrote { OnOk result (Appends (W.contents output.old) (W.contents output.new)
        (document_text check.now)) }
    ensures writes { W.failures output.new ≡ W.failures output.old + failed_writes_in result }
    ensures cut { IsErrOf result ScribeFault.Write → AppendsPrefix (W.contents output.old)
        (W.contents output.new) (document_text check.now) }
    ensures silent { IsErrOf result ScribeFault.NoMemory → output.new ≡ output.old }
    ensures at_most { WritesAtMost (document_text check.now) (W.contents output.old)
        (W.contents output.new) }
{
    let mut text = Vec::new(alloc);
    if write_document(check, &mut text).is_err() {
        return Err(ScribeFault::NoMemory);
    }
    if write_all(output, &text).is_err() {
        return Err(ScribeFault::Write);
    }
    Ok(())
}

/// Prints the document of a check. Nothing is wrong if it succeeds.
///
/// # Errors
///
/// `Unsound` if something is wrong: the whole document is written then. `Device` if the write fails,
/// and `NoMemory` if there is no memory for the document.
fn print_and_judge<W: Sink>(alloc: Global, check: &Check, output: &mut W) -> Result<(), Complaint>
    ensures sound { OnOk result (is_sound check.now ≡ true
        × Appends (W.contents output.old) (W.contents output.new) (document_text check.now)) }
    ensures faulty { IfErr result (λ why. status_of why ≡ 1 → is_sound check.now ≡ false
        × Appends (W.contents output.old) (W.contents output.new) (document_text check.now)) }
    ensures at_most { WritesAtMost (document_text check.now) (W.contents output.old)
        (W.contents output.new) }
{
    match print_check(alloc, check, output) {
        Ok(()) => {
            if check.is_sound() {
                Ok(())
            } else {
                Err(Complaint::Unsound)
            }
        }
        Err(ScribeFault::Write) => Err(Complaint::Device),
        Err(ScribeFault::NoMemory) => Err(Complaint::NoMemory),
    }
}

/// Prints what is wrong with the files that a series starts with. No file is changed.
pub(crate) fn check_series<H: Files + AllocGlobal, W: Sink>(
    rt: &H,
    options: &CheckOptions<'_>,
    output: &mut W,
) -> Result<(), Complaint>
    ensures done { OnOk result (PrintsCheck true options.now (W.contents output.old)
        (W.contents output.new)) }

    // With status 1 nothing is written, or the whole document, which says that something is wrong.
    ensures faulty { IfErr result (λ why. status_of why ≡ 1 →
        Keeps (W.contents output.old) (W.contents output.new)
        ⊎ PrintsCheck false options.now (W.contents output.old) (W.contents output.new)) }
    ensures at_most { AtMostCheckOf options.now (W.contents output.old) (W.contents output.new) }
{
    let check = check_asked_for(rt, options)?;
    print_and_judge(rt.alloc(), &check, output)
}
