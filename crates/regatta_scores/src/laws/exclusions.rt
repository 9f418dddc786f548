//! Laws of excluded scores.
ghost use Rattle.regatta_scores.specs.ExclusionLaws.{NoChoiceIsBetter, DnesCount, ExcludedArentUsed};

/// No choice of scores to exclude that the rules permit gives a lower series score (RRS A2.1,
/// 90.3(b)).
pub fn no_choice_is_better()
    ensures { NoChoiceIsBetter }
{}

/// A disqualification that is not excludable (DNE) is part of the series score (RRS 90.3(b)).
pub fn dnes_count()
    ensures { DnesCount }
{}

/// In the comparison from best to worst only the scores that count are used, whatever their races
/// and whatever was excluded (RRS A8.1).
pub fn excluded_scores_are_not_listed()
    ensures { ExcludedArentUsed }
{}
