//! One boat's race scores, and her place in the series.
ghost use Rattle.std.specs.Prelude.{◌≡◌, ◌↔◌, true};
ghost use Rattle.regatta_scores.specs.RaceScores.{ScoresAs};

use crate::items::Items;
use crate::table::Abbrev;
use regatta_terms::{Redress, Tenths};

/// Over which other races a boat's points in a race are an average (RRS A9).
#[derive(Clone, Copy, Debug, Default, PartialEq, Eq)]
pub enum Averaged {
    /// Over none: they aren't an average.
    #[default]
    OverNone,
    /// Over all other races.
    OverAll,
    /// Over the races before.
    OverBefore,
}

/// A boat's score in one race, before averages: what her line and her cell take of the race.
///
/// It is small, since a line reads one for each race.
#[derive(Clone, Copy, Debug, Default, PartialEq, Eq)]
pub struct RaceScore {
    /// The points given as redress (RRS A9(c)), else those before redress, in tenths.
    pub points: Tenths,
    /// Over which other races an average replaces these points, if one does.
    pub averaged: Averaged,
    /// Whether the score is a disqualification that is not excludable (RRS 90.3(b)).
    pub dne: bool,
    /// The abbreviation in her cell (RRS A10).
    pub mark: Option<Abbrev>,
}

impl RaceScore {
    /// Whether a line takes the same of both scores: they differ in the abbreviation at most.
    pub fn scores_as(&self, other: &RaceScore) -> bool
        ensures { (result ≡ true) ↔ ScoresAs self.now other.now }
    {
        self.points == other.points && self.averaged == other.averaged && self.dne == other.dne
    }
}

/// The scores of the boats in one race, in the order of their numbers.
pub type RaceScores = Items<RaceScore>;

/// A boat's score in one race before redress, and her redress there (RRS A9).
#[derive(Clone, Copy, Debug, Default, PartialEq, Eq)]
pub struct RowItem {
    /// The points without redress, in tenths.
    pub plain: Tenths,
    /// Her redress in the race, if any.
    pub redress: Option<Redress>,
}

/// A boat's score in one race, and whether it may be excluded.
#[derive(Clone, Copy, Debug, Default, PartialEq, Eq)]
pub struct Scored {
    /// The points, in tenths.
    pub points: Tenths,
    /// Whether the score is a disqualification that is not excludable (RRS 90.3(b)).
    pub dne: bool,
}

/// Which of a boat's scores are excluded, one flag for each race.
pub type Flags = Items<bool>;

/// A rank, and whether another boat has it too.
#[derive(Clone, Copy, Debug, PartialEq, Eq)]
pub struct Place {
    /// One more than the number of boats that beat her.
    pub rank: u16,
    /// Whether another boat has this rank.
    pub tied: bool,
}
