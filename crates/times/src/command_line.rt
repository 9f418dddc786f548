//! The program, from its command line to its status.
ghost use Rattle.std.specs.Prelude.{◌≡◌, ◌⊎◌, ℕ, List, OnOk, map};
ghost use Rattle.std.specs.Io.KnownBytes.{Appends};
ghost use Rattle.regatta_arguments.specs.Asking.{AskRun, AskText};
ghost use Rattle.times.specs.Runs.{AtMostRunOfAsked, IsRunOfAsked};
ghost use Rattle.times.specs.Words.{asked_by, times};

use crate::complaint::Complaint;
use crate::options::{Asked, options_of};
use crate::run::run;
use crate::settings::Form;
use regatta_arguments::{answer_arguments, complain, no_command};
use regatta_streams::{Sink, Source};
use std::fs::Files;

fn run_asked<H: Files + AllocGlobal, R: Source, W: Sink>(
    rt: &H,
    asked: &Asked<'_>,
    input: &mut R,
    output: &mut W,
) -> Result<(), Complaint>
    ensures done { OnOk result (IsRunOfAsked asked.now (R.remaining input.old)
        (W.contents output.old) (W.contents output.new)) }
    ensures at_most { (output.new ≡ output.old) ⊎ AtMostRunOfAsked asked.now
        (R.remaining input.old) (W.contents output.old) (W.contents output.new) }
{
    match asked {
        Asked::Lines(options) => run(rt, Form::TimeLines, options, input, output),
        Asked::Sums(options) => run(rt, Form::TimeSums, options, input, output),
    }
}

/// The whole program, from the arguments after its name to its status.
///
/// `lines` and `sums` read the sheet of a race on standard input, and print the office's `TIME`
/// lines or the sum for each boat. `--race` and `--system` name the race and the system of rating,
/// `--rounding` the rule for rounding, `--entries` the entry list with the ratings, `--rating` the
/// heading of their column, and `--overnight` a race that may go past midnight.
///
/// The status is 0 if everything was written, 1 if a list or the sheet is at fault, 2 if the
/// arguments or the settings are, and 3 if a device fails or memory runs out. If it isn't 0, the
/// program says why on `errors`.
pub(crate) fn program<H, R, W, E>(
    rt: &H,
    words: &[&str],
    input: &mut R,
    output: &mut W,
    errors: &mut E,
) -> u8
where
    H: Files + AllocGlobal,
    R: Source,
    W: Sink,
    E: Sink,
    // At status 0 the arguments ask for help or the version, and it is written. Or `clap` finds no fault in them,
    // and what the race that they ask for comes to is written, and nothing else.
    ensures done { result ≡ 0 →
        (AskText times (map (λ word. word.now) words.now)
        × ((text : List ℕ) × Appends (W.contents output.old) (W.contents output.new) text))
        ⊎ ((asked : _) × AskRun times asked_by (map (λ word. word.now) words.now) asked
        × IsRunOfAsked asked (R.remaining input.old) (W.contents output.old)
        (W.contents output.new)) }

    // Whatever the status, nothing is written; or help or the version, which the arguments ask for; or what the
    // race that they ask for comes to, or a first part of it.
    ensures at_most { (output.new ≡ output.old)
        ⊎ ((AskText times (map (λ word. word.now) words.now)
        × ((text : List ℕ) × Appends (W.contents output.old) (W.contents output.new) text))
        ⊎ ((asked : _) × AskRun times asked_by (map (λ word. word.now) words.now) asked
        × AtMostRunOfAsked asked (R.remaining input.old) (W.contents output.old)
        (W.contents output.new))) }
{
    let alloc = rt.alloc();
    let asked = match options_of(alloc, &*words) {
        Ok(asked) => asked,
        Err(error) => return answer_arguments(alloc, "times", &error, output, errors),
    };
    let Some(asked) = asked else {
        return no_command(errors);
    };
    match run_asked(rt, &asked, input, output) {
        Ok(()) => 0,
        Err(complaint) => {
            let status = complaint.status();
            complain(alloc, "times", &complaint, status, errors)
        }
    }
}
