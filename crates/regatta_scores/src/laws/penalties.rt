//! Laws of scoring penalties.
ghost use Rattle.regatta_scores.specs.PenaltyLaws.{EveryPenaltyIsCapped, PenaltiesLeaveOthers};
ghost use Rattle.regatta_scores.specs.PenaltyLaws.{TwentyPercentIsNearest};

/// Penalties never make a score better, and none worse than the race's DNF score. A score that is no
/// better than that stays (RRS 44.3(c)).
pub fn penalties_are_capped()
    ensures { EveryPenaltyIsCapped }
{}

/// A 20% penalty is 20% of the race's DNF score, to the nearest whole point, 0.5 upward (RRS 30.2,
/// 44.3(c)).
pub fn penalties_are_nearest()
    ensures { TwentyPercentIsNearest }
{}

/// A penalty of one boat changes no other boat's points in any race, nor which of them are excluded
/// (RRS 44.3(c)).
pub fn penalties_leave_others()
    ensures { PenaltiesLeaveOthers }
{}
