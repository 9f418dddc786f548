//! What an accepted command does, by the numbers of boats.
ghost use Rattle.std.specs.Prelude.{◌≡◌, Some, None};
ghost use Rattle.regatta_board.specs.declared.act.Step.TheVariants as step;

use regatta_scores::Change;
use regatta_terms::{RaceNo, Sail};

/// A change of what is kept.
#[derive(Clone, Copy)]
pub(crate) enum Step {
    /// A boat joins the entry list, last.
    Enter { sail: Sail },
    /// The sheet of a race changes.
    Sheet { race: RaceNo, change: Change },
    /// A race counts, or no longer.
    Counts { race: RaceNo, counts: bool },
}

/// What an accepted command does, and whom its answer is about.
#[derive(Clone, Copy)]
pub(crate) struct Act {
    /// The number of the first boat that the command names, if any, in the new entry list.
    pub boat: Option<u16>,
    pub step: Step,
}

impl Act {
    /// A race counts, or no longer.
    pub(crate) fn of_race(race: RaceNo, counts: bool) -> Act
        ensures { result ≡ record { boat = None; step = step.Counts race counts } }
    {
        Act {
            boat: None,
            step: Step::Counts { race, counts },
        }
    }

    /// A change of the sheet of a race, on which the command names this boat first.
    pub(crate) fn on_sheet(race: RaceNo, boat: u16, change: Change) -> Act
        ensures { result ≡ record { boat = Some boat; step = step.Sheet race change } }
    {
        Act {
            boat: Some(boat),
            step: Step::Sheet { race, change },
        }
    }
}
