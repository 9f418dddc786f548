//! A boat's line, computed from the scores of all boats in the races that count.
ghost use Rattle.std.specs.Prelude.{◌≡◌, ◌<◌, ◌≤◌, [], length, map, All, slice_index_or, slice_set};
ghost use Rattle.std.specs.Prelude.{replicate, false, true, if◌then◌else◌};
ghost use Rattle.regatta_terms.specs.declared.limits.TheConstants.{MAX_RACES};
ghost use Rattle.regatta_scores.specs.Lines.{line_by};
ghost use Rattle.regatta_scores.specs.RaceScores.{no_score, scores_in};
ghost use Rattle.regatta_scores.specs.Redressing.{IsRead};

use crate::boats::{RaceScore, RaceScores};
use crate::exclusions::{exclude_worst, net, push_none};
use crate::items::PerRace;
use crate::ranking::BoatLine;
use crate::redressed::{Counted, NO_RACES, push_points, put_averages};
use regatta_terms::{Rules, Tenths};
use std::marker::Model;

/// The scores of all boats in one race that counts, in the order of their numbers.
#[derive(Drop)]
pub struct RaceColumn<'a> {
    scores: &'a [RaceScore],
}

impl<'a> Model for RaceColumn<'a> {
    ghost use Rattle.std.specs.Prelude.{List};
    ghost use Rattle.regatta_scores.specs.declared.boats.RaceScore.{RaceScore};

    ghost Value = { List RaceScore };

    ghost view = { λ c. c.scores.now };
}

impl<'a> RaceColumn<'a> {
    /// Refers to these scores.
    pub fn new(scores: &'a RaceScores) -> RaceColumn<'a>
        ensures { result ≡ scores.now }
    {
        RaceColumn {
            scores: scores.as_slice(),
        }
    }

    /// The score of the boat with this number.
    pub fn score(&self, boat: usize) -> &RaceScore
        requires { boat < length self.now }
        ensures { result.now ≡ slice_index_or self.now boat no_score }
    {
        score_of(self.scores, boat)
    }
}

impl<'a> Default for RaceColumn<'a> {
    ghost is_default = { λ c. c ≡ [] };

    fn default() -> Self {
        RaceColumn { scores: &[] }
    }
}

fn score_of(scores: &[RaceScore], boat: usize) -> &RaceScore
    requires { boat < length scores.now }
    ensures { result.now ≡ slice_index_or scores.now boat no_score }
{
    &scores[boat]
}

/// Sets the flag of a race if the score there is a DNE.
fn set_if_dne(dnes: &mut PerRace<bool>, race: usize, score: &RaceScore)
    requires { race < length dnes.old.items }
    ensures { dnes.new.items
        ≡ (if score.now.dne then slice_set dnes.old.items race true else dnes.old.items) }
{
    if score.dne {
        dnes.as_mut_slice()[race] = true;
    }
}

/// Appends one boat's points in each of these races, and sets the flags of those in which the score
/// is a DNE. Returns what an average over all of them counts.
// The caller's lists are filled, since a list that is returned is copied.
fn push_scores(
    points: &mut PerRace<Tenths>,
    over_all: &mut PerRace<u8>,
    dnes: &mut PerRace<bool>,
    columns: &[RaceColumn<'_>],
    boat: usize,
) -> Counted
    requires within { All (λ column. boat < length column) columns.now }
    requires few { length columns.now ≤ MAX_RACES }
    requires points { points.old.items ≡ [] }
    requires over_all { over_all.old.items ≡ [] }
    requires dnes { dnes.old.items ≡ replicate (length columns.now) false }
    ensures read { IsRead (scores_in columns.now boat) (length (scores_in columns.now boat))
        points.new.items over_all.new.items result }
    ensures dnes { dnes.new.items ≡ map (λ score. score.dne) (scores_in columns.now boat) }
{
    let mut so_far = NO_RACES;
    for column in columns {
        let score = column.score(boat);
        set_if_dne(dnes, points.len(), score);
        so_far = push_points(points, over_all, so_far, score);
    }
    so_far
}

/// Returns the line of the boat with this number: her points in these races, and which of them are
/// excluded (RRS A2.1, A9).
///
/// At most [`MAX_RACES`](regatta_terms::MAX_RACES) races. It doesn't allocate.
pub fn boat_line(columns: &[RaceColumn<'_>], boat: usize, rules: &Rules) -> BoatLine
    requires within { All (λ column. boat < length column) columns.now }
    requires few { length columns.now ≤ MAX_RACES }
    ensures value { result ≡ line_by rules.now (scores_in columns.now boat) }
    ensures long { length result.points ≡ length columns.now }
{
    // The line is filled in place, since its lists would be copied into it.
    let mut line = BoatLine::empty();
    push_none(&mut line.excluded, columns.len());
    let mut over_all = PerRace::new();
    let mut dnes = PerRace::new();
    push_none(&mut dnes, columns.len());
    let all = push_scores(&mut line.points, &mut over_all, &mut dnes, columns, boat);
    put_averages(line.points.as_mut_slice(), &over_all, all);
    exclude_worst(&mut line.excluded, &line.points, &dnes, rules);
    line.total = net(&line.points, &line.excluded);
    line
}
