//! Laws of exclusions, of the comparison of boats, and of ranks.
ghost use Rattle.regatta_scores.specs.RankLaws.{WorstAreExcluded};
ghost use Rattle.regatta_scores.specs.RankLaws.{ComparisonIsTotal, BeatingIsAnOrder};
ghost use Rattle.regatta_scores.specs.RankLaws.{CountingScoresRise, TiesAreComplete};
ghost use Rattle.regatta_scores.specs.RankLaws.{RowsTieCompletely};
ghost use Rattle.regatta_scores.specs.RankLaws.{StandingHasTheEntered, RanksFollowEachOther};
ghost use Rattle.regatta_scores.specs.RankLaws.{BeatsInThreeCases};
ghost use Rattle.regatta_scores.specs.BeatingLaws.{LowestScoreWins, BeatingIsRanking};
ghost use Rattle.regatta_scores.specs.BeatingLaws.{EntryOrderDoesntCount, LastDifferenceDecides};

/// As many scores are excluded as the rules say, or all that may be excluded if those are fewer. No
/// excludable score that counts is worse than an excluded one (RRS A2.1, 90.3(b)).
pub fn worst_are_excluded()
    ensures { WorstAreExcluded }
{}

/// The comparison of boats is a total order.
pub fn comparison_is_total()
    ensures total { ComparisonIsTotal }
    ensures beating { BeatingIsAnOrder }
{}

/// The scores of a boat that count, sorted from best to worst, rise and are the same scores (RRS
/// A8.1).
pub fn counting_scores_rise()
    ensures { CountingScoresRise }
{}

/// If boats have equally many races and no score below 1.0, they beat each other in the three cases
/// of the rules, and in no other (RRS A2.1, A8.1, A8.2).
pub fn boats_are_beaten_in_three_cases()
    ensures { BeatsInThreeCases }
{}

/// Two boats share a rank if and only if no rule of A8 breaks their tie: their series scores, their
/// scores that count from best to worst and their points in every scored race are equal.
pub fn ties_are_complete()
    ensures boats { TiesAreComplete }
    ensures rows { RowsTieCompletely }
{}

/// The standing has one row for each boat entered, in order of rank and then sail.
pub fn standing_has_the_entered()
    ensures { StandingHasTheEntered }
{}

/// Ranks start at 1, and after k boats that share rank r the next rank is r + k.
pub fn ranks_follow_each_other()
    ensures { RanksFollowEachOther }
{}

/// A boat with a lower series score than another's is ranked ahead of her (RRS A2.1). One boat beats
/// another if and only if her rank is lower (RRS A8).
pub fn lowest_score_wins()
    ensures score { LowestScoreWins }
    ensures beats { BeatingIsRanking }
{}

/// A boat's rank doesn't depend on the order in which boats were entered (RRS A8).
pub fn entry_order_is_free()
    ensures { EntryOrderDoesntCount }
{}

/// Of two boats with equal series scores and the same scores from best to worst, the one that is
/// better in the last race in which they differ beats the other (RRS A8.2).
pub fn last_difference_decides()
    ensures { LastDifferenceDecides }
{}
