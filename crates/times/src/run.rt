//! A run: a sheet is read and corrected, and the lines or the sums are written.
ghost use Rattle.std.specs.Prelude.{◌≡◌, ◌⊎◌, Ok, IfOk, OnOk};
ghost use Rattle.std.specs.Option.{option_copied};
ghost use Rattle.times.specs.Asked.{AtMostRunOf, IsListAt, IsRunOf, text_in, times_from};

use crate::complaint::Complaint;
use crate::options::RaceOptions;
use crate::settings::{Form, Settings, settings_of};
use regatta_arguments::{Stop, text_at, text_of};
use regatta_streams::{Sink, Source, write_all};
use regatta_times::{Timed, read_ratings, read_sheet, times_of_boats, write_lines, write_sums};
use std::alloc::{AllocError, Global};
use std::fs::Files;

/// The text that has the ratings: the entry list, or the sheet if no file is named.
fn list_at<H: Files + AllocGlobal>(
    rt: &H,
    path: Option<&str>,
    sheet: &[u8],
) -> Result<Vec<u8>, Stop>
    ensures { IfOk result (λ list. IsListAt (option_copied path.entry) sheet.now list.items) }
{
    match path {
        Some(path) => text_at(rt, path),
        None => match Vec::from_slice(rt.alloc(), sheet) {
            Ok(list) => Ok(list),
            Err(_) => Err(Stop::NoMemory),
        },
    }
}

/// The corrected times of a race.
fn times_from(
    alloc: Global,
    settings: &Settings,
    rating: &[u8],
    overnight: bool,
    list: &[u8],
    sheet: &[u8],
) -> Result<Vec<Timed>, Complaint>
    ensures { IfOk result (λ times.
        times_from settings.now rating.now overnight list.now sheet.now ≡ Ok times.items) }
{
    let ratings = match read_ratings(alloc, settings.system, rating, list) {
        Ok(ratings) => ratings,
        Err(fault) => return Err(Complaint::of_ratings(fault)),
    };
    let boats = match read_sheet(alloc, &ratings, overnight, sheet) {
        Ok(boats) => boats,
        Err(fault) => return Err(Complaint::of_sheet(fault)),
    };
    match times_of_boats(alloc, settings.rounding, &boats) {
        Ok(times) => Ok(times),
        Err(fault) => Err(Complaint::of_sheet(fault)),
    }
}

/// The text of corrected times in this form.
fn text_in(
    alloc: Global,
    form: Form,
    settings: &Settings,
    times: &[Timed],
) -> Result<Vec<u8>, AllocError>
    ensures { IfOk result (λ text. text.items ≡ text_in form settings.now times.now) }
{
    let mut text = Vec::new(alloc);
    match form {
        Form::TimeLines => write_lines(settings.race, times, &mut text)?,
        Form::TimeSums => write_sums(settings.race, settings.rounding, times, &mut text)?,
    }
    Ok(text)
}

/// Reads the whole input as the sheet of a race, corrects its times, and writes the lines or the
/// sums. Nothing is written before all times are computed.
///
/// # Errors
///
/// What the settings, the entry list, the sheet or a device lacks.
pub(crate) fn run<H: Files + AllocGlobal, R: Source, W: Sink>(
    rt: &H,
    form: Form,
    asked: &RaceOptions<'_>,
    input: &mut R,
    output: &mut W,
) -> Result<(), Complaint>
    ensures done { OnOk result (IsRunOf form asked.now (R.remaining input.old)
        (W.contents output.old) (W.contents output.new)) }

    // Whether or not it succeeds, nothing else is written.
    ensures at_most { (output.new ≡ output.old) ⊎ AtMostRunOf form asked.now
        (R.remaining input.old) (W.contents output.old) (W.contents output.new) }
{
    let alloc = rt.alloc();
    let settings = settings_of(asked.race, asked.system, asked.rounding)?;
    let sheet = text_of(alloc, input)?;
    let list = list_at(rt, asked.entries, &sheet)?;
    let rating = asked.rating.as_bytes();
    let times = times_from(alloc, &settings, rating, asked.overnight, &list, &sheet)?;
    let text = text_in(alloc, form, &settings, &times)?;
    match write_all(output, &text) {
        Ok(()) => Ok(()),
        Err(_) => Err(Complaint::Stop(Stop::Device)),
    }
}
