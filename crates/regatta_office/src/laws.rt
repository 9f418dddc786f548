//! Laws of the definitions: each function here does nothing, and its contract is the law.
ghost use Rattle.std.specs.Prelude.{ℕ, List};
ghost use mathlib.Core.List.{IsPrefix};
ghost use Rattle.regatta_terms.specs.Rules.{RulesParts};
ghost use Rattle.regatta_scores.specs.Journal.{Journal};
ghost use Rattle.regatta_office.specs.KeptStarts.{IsKeptStart, NothingIsLost};

use regatta_keep::Log;

/// The start of a kept series begins with what is kept, so nothing of it is lost.
pub fn kept_starts_go_on()
    ensures { (kept journal : Journal) (sails : List (List ℕ)) (start : Journal)
        → IsKeptStart kept journal sails start → IsPrefix kept start }
{}

/// What one run of an office leaves is what the next one holds, so nothing is lost over runs of any
/// number. After runs over one file under the same rules, each ended, killed, or stopped with the
/// machine at any moment, a start that goes on from what the file stands for begins with each journal
/// that a keeper of any of the runs confirmed.
///
/// It speaks of values: `regatta_keeper::laws` says which calls are steps of such runs.
pub fn kept_starts_lose_nothing<L: Log>()
    ensures { (rules : RulesParts) → NothingIsLost L rules L.seen }
{}
