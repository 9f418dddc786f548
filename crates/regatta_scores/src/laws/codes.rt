//! Laws of codes and of late entries.
ghost use Rattle.regatta_scores.specs.CodeLaws.{UnplacedByA52, UnplacedByA53, LateEntriesCostCodes};

/// A boat with a code, or that did not finish, scores one more than the number of boats entered
/// (RRS A5.2). Under RRS A5.3 a boat that came to the starting area scores one more than the number
/// of those that came, and a boat that did not come one more than the number entered.
pub fn codes_score_one_more()
    ensures a5_2 { UnplacedByA52 }
    ensures a5_3 { UnplacedByA53 }
{}

/// Under RRS A5.2 a late entry costs each boat with a code a point in each race, and no boat that
/// finished without a penalty anything (RRS A2.2).
pub fn late_entries_cost_codes()
    ensures { LateEntriesCostCodes }
{}
