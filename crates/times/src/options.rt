//! The options of the program.
ghost use Rattle.std.specs.Prelude.{◌≡◌, false, map, IfOk, IfErr, IfSome, Some};
ghost use Rattle.std.specs.Option.{option_copied};
ghost use Rattle.clap.specs.Words.{app_of, first_value, found_of, kind_of};
ghost use Rattle.clap.specs.Words.{subcommand_rows_of};
ghost use Rattle.clap.specs.declared.builder.command.Command.TheViews.{out-Command};
ghost use Rattle.regatta_arguments.specs.Asking.{AskRun, AskText, IsText};
ghost use Rattle.times.specs.Words.{asked_by, race_by, race_with, times as times_of};
ghost use Rattle.times.specs.Words.{subcommand as subcommand_of};
ghost use Rattle.times.specs.Words.{with_race as with_race_of, with_rules as with_rules_of};

use clap::{ArgMatches, Command, Error};
use regatta_arguments::{bare_program, flag, is_given, option, option_or};
use std::alloc::{AllocError, Global};
use std::marker::Model;

/// The race that the arguments ask for, as texts: its number, the system, the rule for rounding, and
/// the heading of the ratings; whether it may go past midnight; and the path of the entry list.
#[derive(Drop)]
pub(crate) struct RaceOptions<'a> {
    pub(crate) race: &'a str,
    pub(crate) system: &'a str,
    pub(crate) rounding: &'a str,
    pub(crate) rating: &'a str,
    pub(crate) overnight: bool,
    pub(crate) entries: Option<&'a str>,
}

impl<'a> Model for RaceOptions<'a> {
    ghost use Rattle.std.specs.Option.{option_copied};
    ghost use Rattle.times.specs.Asked.{Race};

    ghost Value = { Race };

    ghost view = { λ options. record {
      race = options.race.now;
      system = options.system.now;
      rounding = options.rounding.now;
      rating = options.rating.now;
      overnight = options.overnight;
      entries = option_copied options.entries;
    } };
}

/// What the arguments ask for.
#[derive(Drop)]
pub(crate) enum Asked<'a> {
    /// To print the office's lines.
    Lines(RaceOptions<'a>),
    /// To print the sums.
    Sums(RaceOptions<'a>),
}

/// What the help says of the program.
static ABOUT: &str = "Corrected times of one race (RRS A3), from a sheet of times on standard \
    input: exact, and rounded once";

/// What the help says of `lines`.
static LINES: &str =
    "Prints a line for each boat, as TIME 1 GBR7 3401, which the race office reads";

/// What the help says of `sums`.
static SUMS: &str = "Prints the sum for each boat, as GBR7 3751 * 1000 / 1103 -> 3401";

static RACE: &str = "The number of the race, from 1 to 40. Example: --race 3";

static SYSTEM: &str = "tcf: time on time, elapsed by the factor; py: Portsmouth Yardstick, elapsed \
    by 1000 over the number, with laps by the most over her own; tod: time on distance, elapsed \
    less the allowance for each mile. Example: --system py";

static ROUNDING: &str = "half-up: to the nearest second, a half up; half-down: a half down; down: \
    what is over is dropped; up: to the second above. Example: --rounding down";

static RATING: &str = "The heading of the column of ratings. Example: --rating 'Rating from 5'";

static ENTRIES: &str = "The entry list that has the ratings: CSV with a column Sail, SailNo or \
    SailNumber; without it they are in the sheet. Example: --entries boats.csv";

static OVERNIGHT: &str = "A finish that the clock shows before the start is one of the next day";

/// Adds the options of the race: its number, and the system, which are required.
fn with_race<'a>(alloc: Global, command: Command<'a>) -> Result<Command<'a>, AllocError>
    ensures app { IfOk result (λ c. app_of c ≡ with_race_of (app_of command.entry)) }
    ensures local { IfOk result (λ c. (out-Command c).has_globals
        ≡ (out-Command command.entry).has_globals) }
{
    let race = option(alloc, "race", "NUMBER", RACE).required(true);
    let system = option(alloc, "system", "SYSTEM", SYSTEM).required(true);
    let command = command.arg(race)?.arg(system)?;
    Ok(command)
}

/// Adds the other options.
fn with_rules<'a>(alloc: Global, command: Command<'a>) -> Result<Command<'a>, AllocError>
    ensures app { IfOk result (λ c. app_of c ≡ with_rules_of (app_of command.entry)) }
    ensures local { IfOk result (λ c. (out-Command c).has_globals
        ≡ (out-Command command.entry).has_globals) }
{
    let rounding = option_or(alloc, "rounding", "RULE", "half-up", ROUNDING);
    let rating = option_or(alloc, "rating", "HEADING", "Rating", RATING);
    let entries = option(alloc, "entries", "FILE", ENTRIES);
    let overnight = flag(alloc, "overnight", OVERNIGHT);
    let command = command
        .arg(rounding)?
        .arg(rating)?
        .arg(entries)?
        .arg(overnight)?;
    Ok(command)
}

/// A subcommand of this name, with its options.
fn subcommand<'a>(alloc: Global, name: &'a str, about: &'a str) -> Result<Command<'a>, AllocError>
    ensures app { IfOk result (λ c. app_of c ≡ subcommand_of name.now) }
    ensures local { IfOk result (λ c. (out-Command c).has_globals ≡ false) }
{
    let command = Command::new(alloc, name).about(about);
    let command = with_race(alloc, command)?;
    let command = with_rules(alloc, command)?;
    Ok(command)
}

/// All that the program understands.
fn times<'a>(alloc: Global) -> Result<Command<'a>, AllocError>
    ensures { IfOk result (λ c. app_of c ≡ times_of) }
{
    let command = bare_program(alloc, "times", ABOUT)?;
    let command = command.subcommand(subcommand(alloc, "lines", LINES)?)?;
    let command = command.subcommand(subcommand(alloc, "sums", SUMS)?)?;
    Ok(command)
}

/// The race, from the values of `--race`, `--system`, `--rounding` and `--rating`, of `--overnight`,
/// and of `--entries`. `None` if one of the first four has no value.
fn race_given<'a>(
    values: (
        Option<&'a str>,
        Option<&'a str>,
        Option<&'a str>,
        Option<&'a str>,
    ),
    overnight: bool,
    entries: Option<&'a str>,
) -> Option<RaceOptions<'a>>
    ensures { result ≡ race_by (option_copied values.entry.0) (option_copied values.entry.1)
        (option_copied values.entry.2) (option_copied values.entry.3) overnight
        (option_copied entries.entry) }
{
    let (Some(race), Some(system), Some(rounding), Some(rating)) = values else {
        return None;
    };
    Some(RaceOptions {
        race,
        system,
        rounding,
        rating,
        overnight,
        entries,
    })
}

/// The race that the options of a subcommand ask for.
fn race_of<'a>(options: &ArgMatches<'a>) -> Option<RaceOptions<'a>>
    ensures { result ≡ race_with (first_value (found_of options.now)) }
{
    let overnight = is_given(options.get_str("overnight"));
    let (race, system) = (options.get_str("race"), options.get_str("system"));
    let (rounding, rating) = (options.get_str("rounding"), options.get_str("rating"));
    let values = (race, system, rounding, rating);
    race_given(values, overnight, options.get_str("entries"))
}

/// What the subcommand asks for, from its name and its options.
fn run_asked<'a>(matches: &ArgMatches<'a>) -> Option<Asked<'a>>
    ensures { IfSome result (λ asked. asked_by (subcommand_rows_of matches.now) ≡ Some asked) }
{
    if let Some(options) = matches.subcommand_matches("lines") {
        let lines = race_of(options)?;
        return Some(Asked::Lines(lines));
    }
    let options = matches.subcommand_matches("sums")?;
    let sums = race_of(options)?;
    Some(Asked::Sums(sums))
}

/// What the arguments ask for. `clap` accepts none without a subcommand.
///
/// # Errors
///
/// What `clap` says of arguments that it doesn't take, the help or the version that they ask for, or
/// out of memory.
pub(crate) fn options_of<'a>(
    alloc: Global,
    words: &'a [&'a str],
) -> Result<Option<Asked<'a>>, Error>
    ensures asked { IfOk result (λ asked.
        IfSome asked (AskRun times_of asked_by (map (λ word. word.now) words.entry.now))) }
    ensures text { IfErr result (λ e. IsText (kind_of e) →
        AskText times_of (map (λ word. word.now) words.entry.now)) }
{
    let Ok(command) = times(alloc) else {
        return Err(Error::from(AllocError));
    };
    match command.try_get_matches_from(words) {
        Ok(matches) => Ok(run_asked(&matches)),
        Err(error) => Err(error),
    }
}
