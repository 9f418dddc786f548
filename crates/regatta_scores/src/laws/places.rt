//! Laws of finishing places.
ghost use Rattle.regatta_scores.specs.PlaceLaws.{PlacesAreCounted, TiedBoatsScoreAlike};
ghost use Rattle.regatta_scores.specs.PlaceLaws.{AheadIsBetter, BetterPlacesNeverCost};
ghost use Rattle.regatta_scores.specs.PlaceLaws.{LowerTimesAreAhead};

/// If no two boats that finished a race are tied, they score 1 point for first place, 2 for second,
/// and so on (RRS A4).
pub fn places_are_counted()
    ensures { PlacesAreCounted }
{}

/// Boats that are tied for a place score alike for it (RRS A7).
pub fn tied_boats_score_alike()
    ensures { TiedBoatsScoreAlike }
{}

/// A boat that finished in a group ahead of another's scores at least a point less for her place (RRS
/// A4, A7).
pub fn boats_ahead_score_less()
    ensures { AheadIsBetter }
{}

/// A better place never makes a boat's own score in a race worse, with the same penalties and the
/// same DNF score of the race (RRS A4, 44.3(c)).
pub fn better_places_never_cost()
    ensures { BetterPlacesNeverCost }
{}

/// By corrected times, a boat with a lower time than another is placed ahead of her (RRS A3).
pub fn lower_times_are_ahead()
    ensures { LowerTimesAreAhead }
{}
