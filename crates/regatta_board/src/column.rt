//! Columns: the scores of all boats in a race that counts, before averages.
ghost use Rattle.std.specs.Prelude.{◌≡◌, ◌+◌, ◌-◌, ◌<◌, ◌≤◌, ◌^◌, [], length};
ghost use Rattle.std.specs.Prelude.{slice_index_or, IfOk, OnOk, if◌then◌else◌};
ghost use Rattle.std.specs.Option.{option_copied};
ghost use Rattle.regatta_terms.specs.declared.limits.TheConstants.{MAX_RACES};
ghost use Rattle.regatta_scores.specs.RaceScores.{no_score};
ghost use Rattle.regatta_board.specs.Scoring.{AreColumns, columns_in, with_column};
ghost use Rattle.regatta_board.specs.Table.{column as column_of, races as races_of};

use crate::kept::index_of;
use crate::sheets::Sheets;
use regatta_scores::{
    Items, PerRace, RACES, RaceColumn, RaceScore, RaceScores, RaceSheet, Work, race_scores,
};
use regatta_terms::{RaceNo, Rules};
use std::alloc::{AllocError, Global};
use std::marker::Model;

/// The score of each boat in one race, before averages, in the order of the boats' numbers.
#[derive(Drop)]
pub(crate) struct Column {
    scores: RaceScores,
}

impl Model for Column {
    ghost use Rattle.std.specs.Prelude.{List};
    ghost use Rattle.regatta_scores.specs.declared.boats.RaceScore.{RaceScore};

    ghost Value = { List RaceScore };

    ghost view = { λ c. c.scores };
}

impl Column {
    /// The column of a race that doesn't count. It is empty, and doesn't allocate.
    pub(crate) fn empty(alloc: Global) -> Column
        ensures { result ≡ [] }
    {
        Column {
            scores: Items::new(Vec::new(alloc)),
        }
    }

    /// The score of the boat with this number.
    pub(crate) fn score(&self, boat: usize) -> &RaceScore
        requires { boat < length self.now }
        ensures { result.now ≡ slice_index_or self.now boat no_score }
    {
        &self.scores.as_slice()[boat]
    }

    /// The scores, as lines are computed from them.
    pub(crate) fn as_race_column(&self) -> RaceColumn<'_>
        ensures { result ≡ self.now }
    {
        RaceColumn::new(&self.scores)
    }
}

pub(crate) fn made_column(
    alloc: Global,
    sheet: &RaceSheet,
    rules: &Rules,
    work: &mut Work,
) -> Result<Column, AllocError>
    requires work { work.old + 1 < 2 ^ 32 }
    ensures value { IfOk result (λ column. column ≡ column_of rules.now sheet.now) }
    ensures counted { OnOk result (work.new ≡ work.old + 1) }
{
    let scores = race_scores(alloc, sheet, rules, work)?;
    Ok(Column { scores })
}

/// The column of a race with this sheet, or an empty one if the race doesn't count.
pub(crate) fn column_if(
    alloc: Global,
    counts: bool,
    sheet: &RaceSheet,
    rules: &Rules,
    work: &mut Work,
) -> Result<Column, AllocError>
    requires work { work.old + 1 < 2 ^ 32 }
    ensures value { IfOk result (λ column.
        column ≡ (if counts then column_of rules.now sheet.now else [])) }
    ensures counted { OnOk result (work.new ≡ work.old + (if counts then 1 else 0)) }
{
    if !counts {
        return Ok(Column::empty(alloc));
    }
    let column = made_column(alloc, sheet, rules, work)?;
    Ok(column)
}

/// Computes the columns of all races that count.
pub(crate) fn all_columns(
    alloc: Global,
    sheets: &Sheets,
    counts: &[bool],
    rules: &Rules,
    work: &mut Work,
) -> Result<Vec<Column>, AllocError>
    requires sheets { length sheets.now ≡ MAX_RACES }
    requires counts { length counts.now ≡ MAX_RACES }
    requires work { work.old + MAX_RACES < 2 ^ 32 }
    ensures value { IfOk result (λ columns.
        AreColumns rules.now sheets.now counts.now columns.items) }
    ensures long { IfOk result (λ columns. length columns.items ≡ MAX_RACES) }
    ensures counted { OnOk result (work.new ≡ work.old + length (races_of counts.now)) }
{
    let mut columns = Vec::with_capacity(alloc, RACES)?;
    for k in 0..RACES {
        columns.push(column_if(alloc, counts[k], sheets.at(k), rules, work)?)?;
    }
    Ok(columns)
}

/// The new column of one race. It is empty if the race doesn't count.
#[derive(Drop)]
pub(crate) struct NewColumn {
    pub race: RaceNo,
    pub column: Column,
}

/// The column of a race, after a new one replaces that of its race.
fn current<'a>(old: &'a [Column], new: Option<&'a NewColumn>, race: RaceNo) -> RaceColumn<'a>
    requires old { length old.now ≡ MAX_RACES }
    ensures { result
        ≡ slice_index_or (with_column old.now (option_copied new.entry)) (race - 1) [] }
{
    let column = match new {
        Some(
            NewColumn {
                race: changed,
                column,
            },
        ) if changed.get() == race.get() => column,
        Some(_) | None => &old[index_of(race)],
    };
    column.as_race_column()
}

/// Appends the columns of these races, for a table.
// They are stored inline, since a table reads one for each cell. The caller's list is filled, since
// a list that is returned is copied.
pub(crate) fn push_columns<'a>(
    found: &mut PerRace<RaceColumn<'a>>,
    columns: &'a [Column],
    races: &[RaceNo],
)
    requires columns { length columns.now ≡ MAX_RACES }
    requires few { length races.now ≤ MAX_RACES }
    requires none { found.old.items ≡ [] }
    ensures { found.new.items ≡ columns_in columns.now races.now }
{
    for &race in races {
        found.push(current(columns, None, race));
    }
}

/// The columns of these races for a command, after a new one replaces that of its race.
// A command reads few of them. An inline list would be filled and copied for each.
pub(crate) fn current_columns<'a>(
    alloc: Global,
    old: &'a [Column],
    new: Option<&'a NewColumn>,
    races: &[RaceNo],
) -> Result<Vec<RaceColumn<'a>>, AllocError>
    requires { length old.now ≡ MAX_RACES }
    ensures { IfOk result (λ found. found.items
        ≡ columns_in (with_column old.now (option_copied new.entry)) races.now) }
{
    let mut found = Vec::with_capacity(alloc, races.len())?;
    for &race in races {
        found.push_reserved(current(old, new, race));
    }
    Ok(found)
}
