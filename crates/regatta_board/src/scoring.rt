//! The scores that are kept: a column for each race, a line for each boat, and their ranking.
ghost use Rattle.std.specs.Prelude.{◌≡◌, ◌-◌, ◌<◌, ◌≤◌, length, ◌++◌, ◌∷◌, [], slice_index_or};
ghost use Rattle.std.specs.Prelude.{All, IfOk, OnOk, Some, vec_capacity};
ghost use Rattle.std.specs.Option.{option_copied};
ghost use Rattle.regatta_terms.specs.declared.limits.TheConstants.{MAX_RACES};
ghost use Rattle.regatta_terms.specs.Rules.{RulesParts};
ghost use Rattle.regatta_scores.specs.KeptRanking.{IsRanking};
ghost use Rattle.regatta_scores.specs.Lines.{line_by as line_of};
ghost use Rattle.regatta_scores.specs.RaceScores.{scores_in as scores_of};
ghost use Rattle.regatta_board.specs.Refusals.{limits};
ghost use Rattle.regatta_board.specs.Scoring.{columns_in, with_column, touched_at, IsScoring};
ghost use Rattle.regatta_board.specs.Scoring.{IsPushed, IsTurned, AreNewLines};
ghost use Rattle.regatta_board.specs.Table.{lines as lines_of, table as table_of, IsKept};

mod ranks;
pub(crate) mod update;

use crate::boats::number_at;
use crate::column::{Column, NewColumn, all_columns, current_columns, push_columns};
use crate::kept::{Kept, index_of};
use crate::table::{races, sorted_rows};
use regatta_scores::{
    BoatLine, Items, NewLine, PerRace, RaceColumn, RaceScore, Races, Ranking, Standing, Work,
    boat_line,
};
use regatta_terms::{MAX_BOATS, RaceNo, Rules, Touched};
use std::alloc::{AllocError, Global};
use std::marker::Model;

/// The races that count, a column for each race, which is empty if the race doesn't count, a line
/// for each boat, and the boats in order of rank.
#[derive(Drop)]
pub(crate) struct Scoring {
    races: Races,
    columns: Vec<Column>,
    /// With room for all boats that a series may have.
    lines: Vec<BoatLine>,
    ranking: Ranking,
}

impl Model for Scoring {
    ghost use Rattle.std.specs.Prelude.{◌≤◌, vec_capacity};
    ghost use Rattle.regatta_board.specs.Refusals.{limits};
    ghost use Rattle.regatta_board.specs.Scoring as kept;

    ghost Value = { kept.Scoring };

    ghost view = { λ s. record {
      races = s.races;
      columns = s.columns.items;
      lines = s.lines.items;
      ranking = s.ranking;
    } };

    ghost invariant = { λ s. limits.boats ≤ vec_capacity s.lines };
}

/// Appends a boat's new line after one column is recomputed, unless a line takes the same of her
/// scores in it.
fn push_if_changed(
    made: &mut Vec<NewLine>,
    old: &RaceScore,
    new: &RaceScore,
    columns: &[RaceColumn<'_>],
    boat: usize,
    rules: &Rules,
) -> Result<(), AllocError>
    requires within { All (λ column. boat < length column) columns.now }
    requires few { length columns.now ≤ MAX_RACES }
    requires boat { boat < limits.boats }
    ensures { OnOk result (IsPushed rules.now columns.now boat old.now new.now made.old.items
        made.new.items) }
{
    if new.scores_as(old) {
        return Ok(());
    }
    push_line(made, columns, boat, rules)?;
    Ok(())
}

/// Appends a boat's new line.
// Inlined into the loop over all boats, it would set its list to zeros for each of them.
#[inline(never)]
fn push_line(
    made: &mut Vec<NewLine>,
    columns: &[RaceColumn<'_>],
    boat: usize,
    rules: &Rules,
) -> Result<(), AllocError>
    requires within { All (λ column. boat < length column) columns.now }
    requires few { length columns.now ≤ MAX_RACES }
    requires boat { boat < limits.boats }
    ensures { OnOk result (made.new.items ≡ made.old.items ++ record {
      boat = boat;
      line = line_of rules.now (scores_of columns.now boat);
    } ∷ []) }
{
    let line = boat_line(columns, boat, rules);
    made.push(NewLine {
        boat: number_at(boat),
        line,
    })?;
    Ok(())
}

/// The lines that change when one column is recomputed, in the order of the boats' numbers.
fn changed_lines(
    alloc: Global,
    lines: &[BoatLine],
    old: &Column,
    new: &RaceColumn<'_>,
    columns: &[RaceColumn<'_>],
    rules: &Rules,
) -> Result<Vec<NewLine>, AllocError>
    requires { IsTurned rules.now lines.now old.now new.now columns.now }
    ensures { IfOk result (λ made. AreNewLines lines.now
        (lines_of rules.now columns.now (length lines.now)) made.items) }
{
    // Mostly few lines change, so the list grows as they come.
    let mut made = Vec::new(alloc);
    for boat in 0..lines.len() {
        push_if_changed(
            &mut made,
            old.score(boat),
            new.score(boat),
            columns,
            boat,
            rules,
        )?;
    }
    Ok(made)
}

/// The lines of all boats, with room for all boats that a series may have.
fn whole_lines(
    alloc: Global,
    columns: &[RaceColumn<'_>],
    boats: usize,
    rules: &Rules,
) -> Result<Vec<BoatLine>, AllocError>
    requires most { boats ≤ limits.boats }
    requires even { All (λ column. length column ≡ boats) columns.now }
    requires few { length columns.now ≤ MAX_RACES }
    ensures value { IfOk result (λ lines. lines.items ≡ lines_of rules.now columns.now boats) }
    ensures room { IfOk result (λ lines. limits.boats ≤ vec_capacity lines) }
{
    let mut lines = Vec::with_capacity(alloc, MAX_BOATS)?;
    for boat in 0..boats {
        lines.push_reserved(boat_line(columns, boat, rules));
    }
    Ok(lines)
}

/// The lines of all boats in these races, after a new column replaces that of its race.
fn lines_of_races(
    alloc: Global,
    columns: &[Column],
    new: Option<&NewColumn>,
    races: &[RaceNo],
    boats: usize,
    rules: &Rules,
) -> Result<Vec<BoatLine>, AllocError>
    requires long { length columns.now ≡ MAX_RACES }
    requires few { length races.now ≤ MAX_RACES }
    requires most { boats ≤ limits.boats }
    requires even { All (λ column. length column ≡ boats)
        (columns_in (with_column columns.now (option_copied new)) races.now) }
    ensures value { IfOk result (λ lines. lines.items ≡ lines_of rules.now
        (columns_in (with_column columns.now (option_copied new.entry)) races.now) boats) }
    ensures room { IfOk result (λ lines. limits.boats ≤ vec_capacity lines) }
{
    let found = current_columns(alloc, columns, new, races)?;
    let lines = whole_lines(alloc, &found, boats, rules)?;
    Ok(lines)
}

/// The lines that change with the column of a race that counts.
fn remade_lines(
    alloc: Global,
    scoring: &Scoring,
    column: &NewColumn,
    rules: &Rules,
) -> Result<Vec<NewLine>, AllocError>
    requires long { length scoring.now.columns ≡ MAX_RACES }
    requires turned { IsTurned rules.now scoring.now.lines
        (slice_index_or scoring.now.columns (column.now.race - 1) []) column.now.column
        (columns_in (with_column scoring.now.columns (Some column.now)) scoring.now.races) }
    ensures { IfOk result (λ made. AreNewLines scoring.now.lines (lines_of rules.now
        (columns_in (with_column scoring.now.columns (Some column.now)) scoring.now.races)
        (length scoring.now.lines)) made.items) }
{
    let found = current_columns(
        alloc,
        &scoring.columns,
        Some(column),
        scoring.races.as_slice(),
    )?;
    let old = &scoring.columns[index_of(column.race)];
    let new = column.column.as_race_column();
    let lines = changed_lines(alloc, &scoring.lines, old, &new, &found, rules)?;
    Ok(lines)
}

impl Scoring {
    /// Computes all scores from scratch.
    pub(crate) fn of(alloc: Global, kept: &Kept, rules: &Rules) -> Result<Scoring, AllocError>
        requires { IsKept kept.now }
        ensures { IfOk result (IsScoring rules.now kept.now) }
    {
        let races = races(alloc, kept.counts())?;
        let mut work = Work::new();
        let columns = all_columns(alloc, kept.sheets(), kept.counts(), rules, &mut work)?;
        let lines = lines_of_races(alloc, &columns, None, &races, kept.boats(), rules)?;
        let ranking = Ranking::of(alloc, &lines)?;
        Ok(Scoring {
            races: Items::new(races),
            columns,
            lines,
            ranking,
        })
    }

    /// The rank, tie and net points of the boat with this number, for an answer.
    pub(crate) fn touched(&self, boat: usize) -> Touched
        requires few { length self.now.lines ≤ limits.boats }
        requires lines { boat < length self.now.lines }
        requires ranking { IsRanking self.now.lines self.now.ranking }
        ensures { result ≡ touched_at self.now boat }
    {
        let place = self.ranking.place(&self.lines, boat);
        Touched {
            rank: place.rank,
            tied: place.tied,
            net: self.lines[boat].net(),
        }
    }

    /// Builds the standing from the scores and what is kept.
    pub(crate) fn standing(&self, alloc: Global, kept: &Kept) -> Result<Standing, AllocError>
        requires kept { IsKept kept.now }
        requires scoring { (rules : RulesParts) × IsScoring rules kept.now self.now }
        ensures { IfOk result (λ made. (rules : RulesParts)
            → IsScoring rules kept.now self.now → made ≡ table_of rules kept.now) }
    {
        let races = Vec::from_slice(alloc, self.races.as_slice())?;
        let mut found = PerRace::new();
        push_columns(&mut found, &self.columns, &races);
        let places = self.ranking.places(alloc, &self.lines)?;
        let rows = sorted_rows(
            alloc,
            self.ranking.order(),
            &found,
            kept.entry_list(),
            &self.lines,
            places.as_slice(),
        )?;
        Ok(Standing {
            races: Items::new(races),
            rows: Items::new(rows),
        })
    }
}
