//! What the document says, row by row.

use regatta_scores::{Abbrev, Items};
use regatta_terms::{Absent, Code, RaceNo, Redress, Sail, Seconds, Tenths};

/// The rules of a series.
#[derive(Drop)]
pub struct RulesPart {
    /// How boats are scored that don't finish (RRS A5.2, A5.3).
    pub absent: Absent,
    /// The stated amount of a Scoring Penalty, in whole points; `None` for 20%.
    pub scp: Option<u8>,
    /// From how many races on one more score is excluded (RRS A2.1).
    pub thresholds: Items<u8>,
    /// Whether corrected times determine the places (RRS A3).
    pub handicap: bool,
}

/// A group of a race's finishing order.
#[derive(Drop)]
pub struct GroupPart {
    /// One more than the number of boats that finished in the groups ahead (RRS A4, A6.1).
    pub place: u16,
    /// How many of its boats finished, and share the place (RRS A7).
    pub sharing: u16,
    /// Its boats, those with a code among them.
    pub boats: Items<Sail>,
}

/// What a boat has in a race: how she is scored there, and what she holds.
#[derive(Clone, Copy)]
pub struct HeldPart {
    /// The boat.
    pub sail: Sail,
    /// The code by which she is scored; `None` if she finished.
    pub status: Option<Code>,
    /// Whether she came to the starting area (RRS A5.3).
    pub came: bool,
    /// Her code, if she has one.
    pub code: Option<Code>,
    /// The number of her 20% penalties (RRS 30.2).
    pub zfp: u8,
    /// The number of her Scoring Penalties (RRS 44.3).
    pub scp: u8,
    /// Her redress, if she has one (RRS A9).
    pub redress: Option<Redress>,
    /// Her corrected time, if she has one (RRS A3).
    pub seconds: Option<Seconds>,
}

/// What a race is scored by. Scores are in whole points.
#[derive(Clone, Copy)]
pub struct RacePart {
    /// The race.
    pub race: RaceNo,
    /// Whether it counts.
    pub counts: bool,
    /// How many boats are entered in the series.
    pub entered: u16,
    /// How many boats came to the starting area (RRS A5.3).
    pub came: u16,
    /// Its DNF score (RRS A5.2, A5.3).
    pub dnf: u16,
    /// 20% of its DNF score (RRS 44.3(c)).
    pub twenty_percent: u16,
}

/// A boat's score in a race that counts.
#[derive(Drop)]
pub struct ScorePart {
    /// The race.
    pub race: RaceNo,
    /// The code by which she is scored; `None` if she finished.
    pub status: Option<Code>,
    /// Her score for her place or her code (RRS A4 to A7).
    pub base: Tenths,
    /// What her penalties add, in whole points (RRS 30.2, 44.3(c)).
    pub penalty: u32,
    /// Her score with penalties, without redress.
    pub plain: Tenths,
    /// Her redress, if she has one (RRS A9).
    pub redress: Option<Redress>,
    /// The races that count in her average, if redress gives her one.
    pub averaged: Items<RaceNo>,
    /// The sum of her points in these races, in tenths.
    pub sum: u32,
    /// Her points.
    pub points: Tenths,
    /// The abbreviation in her cell (RRS A10).
    pub mark: Option<Abbrev>,
    /// Whether the score is excluded (RRS A2.1).
    pub excluded: bool,
}

/// A boat's place in the series.
#[derive(Clone, Copy)]
pub struct BoatPart {
    /// The boat.
    pub sail: Sail,
    /// Her rank.
    pub rank: u16,
    /// Whether another boat has this rank.
    pub tied: bool,
    /// Her series score, in tenths (RRS A2.1).
    pub net: u32,
    /// The sum of all her scores, the excluded ones too, in tenths.
    pub total: u32,
}

/// Two scores that are compared.
#[derive(Clone, Copy)]
pub struct Compared {
    /// The position in the lists from best to worst, from 1, or the race.
    pub at: u8,
    /// The score of the boat that comes first in the table.
    pub first: Tenths,
    /// The score of the other.
    pub second: Tenths,
}

/// What separates two boats with the same series score.
#[derive(Clone, Copy)]
pub enum Separation {
    /// The first difference of the scores that count, from best to worst (RRS A8.1).
    ByBest(Compared),
    /// The first difference of all scores, from the last race back (RRS A8.2).
    ByLast(Compared),
    /// Nothing: they share a rank.
    ByNothing,
}

/// Two neighbours in the table with the same series score.
#[derive(Clone, Copy)]
pub struct NeighbourPart {
    /// The boat that comes first.
    pub first: Sail,
    /// The other.
    pub second: Sail,
    /// The rule that separates them.
    pub rule: Separation,
}

/// A boat's rank after a race.
#[derive(Clone, Copy)]
pub struct RankPart {
    /// The boat.
    pub sail: Sail,
    /// Her rank.
    pub rank: u16,
    /// Whether another boat has this rank.
    pub tied: bool,
}

/// A race of which something is recorded.
#[derive(Drop)]
pub struct RaceRows {
    /// What it is scored by.
    pub race: RacePart,
    /// The groups of its finishing order.
    pub groups: Items<GroupPart>,
    /// What each boat has in it, in order of entry.
    pub boats: Items<HeldPart>,
}

/// A boat with her scores.
#[derive(Drop)]
pub struct BoatRows {
    /// Her place in the series.
    pub boat: BoatPart,
    /// Her score in each race that counts.
    pub scores: Items<ScorePart>,
}

/// The ranks after a race that counts.
#[derive(Drop)]
pub struct RanksAfter {
    /// The race.
    pub race: RaceNo,
    /// The boats in the order of the table without later races.
    pub ranks: Items<RankPart>,
}

/// A standing explained.
#[derive(Drop)]
pub struct Document {
    /// The rules of the series.
    pub rules: RulesPart,
    /// The place in the journal of the last entry on which the table depends, from 1; 0 if there is
    /// none.
    pub last_entry: u32,
    /// The races of which something is recorded.
    pub races: Items<RaceRows>,
    /// The boats in the order of the table.
    pub boats: Items<BoatRows>,
    /// Neighbours in the table with the same series score.
    pub neighbours: Items<NeighbourPart>,
    /// The ranks after each race that counts.
    pub after_each: Items<RanksAfter>,
}
