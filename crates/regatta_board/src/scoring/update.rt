//! What a command changes of what is kept and of the scores.
ghost use Rattle.std.specs.Prelude.{◌≡◌, ◌+◌, ◌<◌, ◌≤◌, ◌^◌, length, IfOk, OnOk, Some};
ghost use Rattle.std.specs.Prelude.{if◌then◌else◌};
ghost use Rattle.regatta_terms.specs.declared.limits.TheConstants.{MAX_RACES};
ghost use Rattle.regatta_scores.specs.Current.{with_changed, AreWithin};
ghost use Rattle.regatta_board.specs.declared.act.Step.TheVariants as step;
ghost use Rattle.regatta_board.specs.Scoring.{with_column};
ghost use Rattle.regatta_board.specs.Step.{stepped};
ghost use Rattle.regatta_board.specs.Table.{races as races_of, IsKept};
ghost use Rattle.regatta_board.specs.Update.{kept_with, scores_with, most_remade};
ghost use Rattle.regatta_board.specs.Update.{HasRoom, MayStep, IsUpdate};

use crate::act::Step;
use crate::boats::Boats;
use crate::column::{Column, NewColumn, all_columns, column_if, made_column};
use crate::kept::{Kept, index_of};
use crate::scoring::{Scoring, lines_of_races, remade_lines};
use crate::sheets::Sheets;
use crate::table::races;
use regatta_scores::{BoatLine, Change, Items, NewLine, RaceSheet, Races, Ranking, Work};
use regatta_terms::{RaceNo, Rules, Sail};
use std::alloc::{AllocError, Global};

/// What a command changes, in memory that is already allocated. Lists of all lines have room for all
/// boats that a series may have.
// The sheets of an entry are boxed: they would make every update twice as large, and updates are
// copied.
#[derive(Drop)]
pub(crate) enum Update {
    /// A boat is entered while no race counts. Her line is empty.
    Added {
        boats: Boats,
        sheets: Box<Sheets>,
        ranking: Ranking,
    },
    /// A boat is entered while races count: their columns and all lines change.
    Entered {
        boats: Boats,
        sheets: Box<Sheets>,
        columns: Vec<Column>,
        lines: Vec<BoatLine>,
        ranking: Ranking,
    },
    /// The sheet of a race that doesn't count.
    Sheet {
        race: RaceNo,
        sheet: RaceSheet,
    },
    /// The sheet of a race that counts, in which no score changes in more than its abbreviation.
    Column {
        sheet: RaceSheet,
        column: NewColumn,
    },
    /// The sheet of a race that counts, with the lines of the boats whose score in it changes in more
    /// than its abbreviation, in the order of their numbers.
    Lines {
        sheet: RaceSheet,
        column: NewColumn,
        lines: Vec<NewLine>,
        ranking: Ranking,
    },
    /// A race begins or ceases to count.
    Counts {
        counts: Vec<bool>,
        races: Races,
        column: NewColumn,
        lines: Vec<BoatLine>,
        ranking: Ranking,
    },
}

/// What changes if a boat is entered.
fn update_of_boat(
    alloc: Global,
    kept: &Kept,
    scoring: &Scoring,
    rules: &Rules,
    sail: Sail,
    work: &mut Work,
) -> Result<Update, AllocError>
    requires may { MayStep rules.now kept.now scoring.now (step.Enter sail) }
    requires work { work.old + MAX_RACES < 2 ^ 32 }
    ensures value { IfOk result
        (IsUpdate rules.now kept.now (stepped kept.now (step.Enter sail))) }
    ensures counted { OnOk result (work.new ≤ work.old + length (races_of kept.now.counts)) }
{
    let (boats, sheets) = kept.with_boat(alloc, sail)?;
    let races = scoring.races.as_slice();
    // Until a race counts, a boat's line is empty.
    if races.is_empty() {
        let ranking = scoring
            .ranking
            .with_boat(alloc, &scoring.lines, &BoatLine::empty())?;
        let sheets = Box::new(alloc, sheets)?;
        return Ok(Update::Added {
            boats,
            sheets,
            ranking,
        });
    }
    let columns = all_columns(alloc, &sheets, kept.counts(), rules, work)?;
    let lines = lines_of_races(alloc, &columns, None, races, boats.len(), rules)?;
    let ranking = Ranking::of(alloc, &lines)?;
    let sheets = Box::new(alloc, sheets)?;
    Ok(Update::Entered {
        boats,
        sheets,
        columns,
        lines,
        ranking,
    })
}

/// What changes with the sheet of a race.
fn update_of_sheet(
    alloc: Global,
    kept: &Kept,
    scoring: &Scoring,
    rules: &Rules,
    race: RaceNo,
    change: Change,
    work: &mut Work,
) -> Result<Update, AllocError>
    requires may { MayStep rules.now kept.now scoring.now (step.Sheet race change) }
    requires work { work.old + MAX_RACES < 2 ^ 32 }
    ensures value { IfOk result
        (IsUpdate rules.now kept.now (stepped kept.now (step.Sheet race change))) }
    ensures counted { OnOk result
        (work.new ≡ work.old + most_remade kept.now (step.Sheet race change)) }
{
    let sheet = kept.sheet(race).after(change)?;
    if !kept.is_scored(race) {
        return Ok(Update::Sheet { race, sheet });
    }
    let column = made_column(alloc, &sheet, rules, work)?;
    let column = NewColumn { race, column };
    let lines = remade_lines(alloc, scoring, &column, rules)?;
    if lines.is_empty() {
        return Ok(Update::Column { sheet, column });
    }
    let ranking = scoring.ranking.after(alloc, &scoring.lines, &lines)?;
    Ok(Update::Lines {
        sheet,
        column,
        lines,
        ranking,
    })
}

/// What changes if a race begins or ceases to count.
fn update_of_race(
    alloc: Global,
    kept: &Kept,
    scoring: &Scoring,
    rules: &Rules,
    race: RaceNo,
    counts: bool,
    work: &mut Work,
) -> Result<Update, AllocError>
    requires may { MayStep rules.now kept.now scoring.now (step.Counts race counts) }
    requires work { work.old + MAX_RACES < 2 ^ 32 }
    ensures value { IfOk result
        (IsUpdate rules.now kept.now (stepped kept.now (step.Counts race counts))) }
    ensures counted { OnOk result (work.new ≡ work.old + (if counts then 1 else 0)) }
{
    let column = column_if(alloc, counts, kept.sheet(race), rules, work)?;
    let column = NewColumn { race, column };
    let counts = kept.with_counts(alloc, race, counts)?;
    let races = races(alloc, &counts)?;
    let lines = lines_of_races(
        alloc,
        &scoring.columns,
        Some(&column),
        &races,
        kept.boats(),
        rules,
    )?;
    let ranking = Ranking::of(alloc, &lines)?;
    Ok(Update::Counts {
        counts,
        races: Items::new(races),
        column,
        lines,
        ranking,
    })
}

/// Moves the new column of a race in.
fn put_column(columns: &mut Vec<Column>, new: NewColumn)
    requires long { length columns.old.items ≡ MAX_RACES }
    ensures { columns.new.items ≡ with_column columns.old.items (Some new) }
{
    columns[index_of(new.race)] = new.column;
}

/// Moves a boat's new line in.
fn put_line(line: &mut BoatLine, new: BoatLine)
    ensures { line.new ≡ new }
{
    *line = new;
}

fn put_changed(lines: &mut [BoatLine], new: Vec<NewLine>)
    requires { AreWithin (length lines.old) new.items }
    ensures { lines.new ≡ with_changed lines.old new.items }
{
    for changed in new {
        put_line(&mut lines[usize::from(changed.boat)], changed.line);
    }
}

impl Update {
    /// What changes with a step. It counts the races that are scored.
    pub(crate) fn of(
        alloc: Global,
        kept: &Kept,
        scoring: &Scoring,
        rules: &Rules,
        step: Step,
        work: &mut Work,
    ) -> Result<Update, AllocError>
        requires may { MayStep rules.now kept.now scoring.now step }
        requires work { work.old + MAX_RACES < 2 ^ 32 }
        ensures value { IfOk result (IsUpdate rules.now kept.now (stepped kept.now step)) }
        ensures counted { OnOk result (work.new ≤ work.old + most_remade kept.now step) }
    {
        match step {
            Step::Enter { sail } => update_of_boat(alloc, kept, scoring, rules, sail, work),
            Step::Sheet { race, change } => {
                update_of_sheet(alloc, kept, scoring, rules, race, change, work)
            }
            Step::Counts { race, counts } => {
                update_of_race(alloc, kept, scoring, rules, race, counts, work)
            }
        }
    }

    /// Moves the update in. It doesn't allocate.
    pub(crate) fn move_in(self, kept: &mut Kept, scoring: &mut Scoring)
        requires kept { IsKept kept.old }
        requires whole { IsKept (kept_with kept.old self) }
        requires long { length scoring.old.columns ≡ MAX_RACES }
        requires room { HasRoom scoring.old.lines self }
        ensures kept { kept.new ≡ kept_with kept.old self }
        ensures scores { scoring.new ≡ scores_with scoring.old self }
    {
        match self {
            Update::Added {
                boats,
                sheets,
                ranking,
            } => {
                kept.put_boats(boats, Box::into_inner(sheets));
                scoring.lines.push_reserved(BoatLine::empty());
                scoring.ranking = ranking;
            }
            Update::Entered {
                boats,
                sheets,
                columns,
                lines,
                ranking,
            } => {
                kept.put_boats(boats, Box::into_inner(sheets));
                scoring.columns = columns;
                scoring.lines = lines;
                scoring.ranking = ranking;
            }
            Update::Sheet { race, sheet } => kept.put_sheet(race, sheet),
            Update::Column { sheet, column } => {
                kept.put_sheet(column.race, sheet);
                put_column(&mut scoring.columns, column);
            }
            Update::Lines {
                sheet,
                column,
                lines,
                ranking,
            } => {
                kept.put_sheet(column.race, sheet);
                put_column(&mut scoring.columns, column);
                put_changed(&mut scoring.lines, lines);
                scoring.ranking = ranking;
            }
            Update::Counts {
                counts,
                races,
                column,
                lines,
                ranking,
            } => {
                kept.put_counts(counts);
                scoring.races = races;
                put_column(&mut scoring.columns, column);
                scoring.lines = lines;
                scoring.ranking = ranking;
            }
        }
    }
}
