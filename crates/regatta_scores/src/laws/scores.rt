//! Laws of all scores of a journal.
ghost use Rattle.std.specs.Prelude.{All};
ghost use Rattle.regatta_terms.specs.Entries.{IsEntry};
ghost use Rattle.regatta_terms.specs.Rules.{RulesParts};
ghost use Rattle.regatta_scores.specs.RankLaws.{HasNoScoreBelowOne, NoScoreIsBelowOne};
ghost use Rattle.regatta_scores.specs.RankLaws.{BoatsBeatInThreeCases, EntriesBeatInThreeCases};

use regatta_terms::Entry;
use regatta_terms::laws::parts_are_in_range;

/// No score of a journal is below 1.0 point, whatever the rules: no boat's in a scored race, and
/// none in a cell of the standing.
pub fn no_score_is_below_one(journal: &[Entry])
    ensures here { (rules : RulesParts) → HasNoScoreBelowOne rules journal.now }
    ensures everywhere { NoScoreIsBelowOne }
{
    entries_are_in_range(journal);
}

/// By a journal, one boat beats another in the three cases of the rules and in no other, whatever
/// the rules of the series (RRS A2.1, A8.1, A8.2).
pub fn boats_of_a_journal_are_beaten_in_three_cases(journal: &[Entry])
    ensures here { (rules : RulesParts) → BoatsBeatInThreeCases rules journal.now }
    ensures everywhere { EntriesBeatInThreeCases }
{
    entries_are_in_range(journal);
}

/// The parts of the entries of a journal are in range.
pub fn entries_are_in_range(journal: &[Entry])
    ensures { All IsEntry journal.now }
{
    for entry in journal {
        parts_are_in_range(entry);
    }
}
