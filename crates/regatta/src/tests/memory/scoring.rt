//! The calls of scoring.
ghost use Rattle.std.specs.Prelude.{◌≡◌};
ghost use Rattle.regatta_scores.specs.Changes.{after};
ghost use Rattle.regatta_scores.specs.Sheet.{empty_sheet};
ghost use Rattle.regatta_scores.specs.SheetFacts.{Allows};
ghost use Rattle.regatta_scores.specs.declared.sheet.Change.TheVariants.{Last};

use super::*;
use regatta_scores::{
    BoatLine, Change, Held, NOTHING_HELD, Places, RaceSheet, RowItem, Scored, Work, averages,
    excluded, race_points, race_scores, ranks,
};
use regatta_terms::{Award, Redress, Seconds, Tenths};

/// `points` tenths, or ten if that is out of range.
fn tenths(points: u32) -> Tenths {
    Tenths::new(points).unwrap_or(Tenths::new(10).unwrap())
}

/// The calls that score a race or a series, and the changes of a race's sheet.
#[derive(Drop)]
enum Call {
    Sheet,
    Points,
    Scores,
    Averages,
    Excluded,
    Ranks,
    AddBoat,
    Last,
    Timed,
    Join,
    Ahead,
    Out,
    Hold,
}

/// Whether these are the points wanted, in tenths.
fn are_tenths(points: &[Tenths], wanted: &[u32]) -> bool {
    for (found, right) in points.iter().zip(wanted) {
        if *found != tenths(*right) {
            return false;
        }
    }
    points.len() == wanted.len()
}

/// Whether these are the points of the sheet's boats, under the default rules. After a refusal no
/// race is counted as scored.
fn are_points(alloc: Global, sheet: &RaceSheet, wanted: &[u32]) -> Result<bool, AllocError> {
    let mut work = Work::new();
    match race_points(alloc, sheet, &default_rules(), &mut work) {
        Ok(points) => Ok(are_tenths(points.as_slice(), wanted) && work.count() == 1),
        Err(_) if work.count() != 0 => Ok(false),
        Err(why) => Err(why),
    }
}

/// Whether three boats have scores of which the first stands in the order, and no other. After a
/// refusal no race is counted as scored.
fn are_scores(alloc: Global, sheet: &RaceSheet) -> Result<bool, AllocError> {
    let mut work = Work::new();
    match race_scores(alloc, sheet, &default_rules(), &mut work) {
        Ok(scores) => Ok(match scores.as_slice() {
            [one, two, three] => one.mark.is_none()
                && two.mark.is_some()
                && three.mark.is_some()
                && work.count() == 1,
            _ => false,
        }),
        Err(_) if work.count() != 0 => Ok(false),
        Err(why) => Err(why),
    }
}

/// A score that is handed in, one without redress, and the average of both (RRS A9).
fn are_averages(alloc: Global) -> Result<bool, AllocError> {
    let award = Award::new(75).unwrap();
    let row = [
        RowItem {
            plain: tenths(50),
            redress: Some(Redress::Points(award)),
        },
        RowItem {
            plain: tenths(20),
            redress: None,
        },
        RowItem {
            plain: tenths(50),
            redress: Some(Redress::AllRaces),
        },
    ];
    Ok(are_tenths(averages(alloc, &row)?.as_slice(), &[75, 20, 48]))
}

/// A score of `points` tenths that may be excluded.
fn scored(points: u32) -> Scored {
    Scored {
        points: tenths(points),
        dne: false,
    }
}

/// The first of two equal worst scores is excluded (RRS A2.1).
fn is_excluded(alloc: Global) -> Result<bool, AllocError> {
    let scores = [scored(40), scored(20), scored(40)];
    let flags = excluded(alloc, &scores, &default_rules())?;
    Ok(flags.as_slice() == [true, false, false].as_slice())
}

/// The line of a boat with these points in each of two races, of which both count.
fn line(alloc: Global, points: u32) -> Result<BoatLine, AllocError> {
    BoatLine::new(alloc, &[tenths(points), tenths(points)], &[false, false])
}

/// Three lines, of which two have the same points, and the third has more. They don't allocate, so
/// they may be made in the call that is refused.
fn three_lines(alloc: Global) -> Result<[BoatLine; 3], AllocError> {
    Ok([line(alloc, 15)?, line(alloc, 15)?, line(alloc, 30)?])
}

/// Whether these are the ranks of such lines: the first two boats share their places, and the third
/// is third (RRS A8).
fn is_first_shared(places: &Places) -> bool {
    match places.as_slice() {
        [one, two, three] => {
            (one.tied, two.tied, three.tied) == (true, true, false)
                && (one.rank, two.rank, three.rank) == (1, 1, 3)
        }
        _ => false,
    }
}

/// Whether three lines are ranked.
fn are_ranked(alloc: Global) -> Result<bool, AllocError> {
    let places = ranks(alloc, &three_lines(alloc)?)?;
    Ok(is_first_shared(&places))
}

/// The outcome of a change with `bytes` bytes left: the boats then have these points.
fn change_outcome(
    alloc: Global,
    hoard: &mut Hoard,
    bytes: usize,
    sheet: &RaceSheet,
    change: Change,
    wanted: &[u32],
) -> Outcome
    requires { Allows sheet.now change }
{
    hoard.leave(bytes);
    let changed = sheet.after(change);
    hoard.give_back();
    match changed {
        Ok(next) => ordinary_if(are_points(alloc, &next, wanted) == Ok(true)),
        Err(_) => Outcome::OutOfMemory,
    }
}

/// What makes races of three boats, and lines of two races.
#[derive(Drop)]
struct Races {
    alloc: Global,
}

impl Races {
    /// The outcome of a change of a race in which nobody has finished, or the first boat has. One more
    /// boat is added, or one finishes, by her place or by her corrected time (RRS A3). Or a boat ties
    /// with the first or goes ahead of her (RRS A7), or she goes out of the order, or has a penalty
    /// (RRS 44.3(c)).
    fn changes(
        &self,
        call: &Call,
        hoard: &mut Hoard,
        bytes: usize,
        blank: &RaceSheet,
        first: &RaceSheet,
    ) -> Outcome
        requires blank { blank.now ≡ empty_sheet 3 }
        requires first { first.now ≡ after (empty_sheet 3) (Last 0) }
    {
        let seconds = Seconds::new(3600).unwrap();
        let held = Held {
            scp: 1,
            ..NOTHING_HELD
        };
        let (sheet, change, wanted): (&RaceSheet, Change, &[u32]) = match call {
            Call::AddBoat => (blank, Change::AddBoat, &[50, 50, 50, 50]),
            Call::Last => (blank, Change::Last { boat: 0 }, &[10, 40, 40]),
            Call::Timed => (blank, Change::Timed { boat: 0, seconds }, &[10, 40, 40]),
            Call::Join => (first, Change::Join { boat: 1, other: 0 }, &[15, 15, 40]),
            Call::Ahead => (first, Change::Ahead { boat: 1, other: 0 }, &[20, 10, 40]),
            Call::Out => (first, Change::Out { boat: 0 }, &[40, 40, 40]),
            Call::Hold => (first, Change::Hold { boat: 0, held }, &[20, 40, 40]),
            _ => return Outcome::Other,
        };
        change_outcome(self.alloc, hoard, bytes, sheet, change, wanted)
    }

    /// Whether a call that changes no sheet answers as it should, of a race in which the first of
    /// three boats has finished, or of a series.
    fn is_answered(&self, call: &Call, first: &RaceSheet) -> Result<bool, AllocError> {
        let alloc = self.alloc;
        match call {
            Call::Points => are_points(alloc, first, &[10, 40, 40]),
            Call::Scores => are_scores(alloc, first),
            Call::Averages => are_averages(alloc),
            Call::Excluded => is_excluded(alloc),
            Call::Ranks => are_ranked(alloc),
            Call::Sheet => {
                let sheet = RaceSheet::new(alloc, 3)?;
                Ok(sheet.is_empty() && !sheet.placed(2))
            }
            _ => Ok(false),
        }
    }

    /// The outcome of a call with `bytes` bytes left.
    fn outcome_with(
        &self,
        call: &Call,
        hoard: &mut Hoard,
        bytes: usize,
        blank: &RaceSheet,
        first: &RaceSheet,
    ) -> Outcome
        requires blank { blank.now ≡ empty_sheet 3 }
        requires first { first.now ≡ after (empty_sheet 3) (Last 0) }
    {
        match call {
            Call::AddBoat
            | Call::Last
            | Call::Timed
            | Call::Join
            | Call::Ahead
            | Call::Out
            | Call::Hold => self.changes(call, hoard, bytes, blank, first),
            _ => {
                hoard.leave(bytes);
                let answer = self.is_answered(call, first);
                hoard.give_back();
                outcome_of(answer)
            }
        }
    }
}

impl Caller<Call> for Races {
    fn outcome(&mut self, call: &Call, hoard: &mut Hoard, bytes: usize) -> Outcome {
        let Ok(blank) = RaceSheet::new(self.alloc, 3) else {
            return Outcome::Other;
        };
        match blank.after(Change::Last { boat: 0 }) {
            Ok(first) => self.outcome_with(call, hoard, bytes, &blank, &first),
            Err(_) => Outcome::Other,
        }
    }
}

static CALLS: [Call; 13] = [
    Call::Sheet,
    Call::Points,
    Call::Scores,
    Call::Averages,
    Call::Excluded,
    Call::Ranks,
    Call::AddBoat,
    Call::Last,
    Call::Timed,
    Call::Join,
    Call::Ahead,
    Call::Out,
    Call::Hold,
];

#[test]
fn scoring_runs_out_of_memory(rt: HostRuntime) {
    let alloc = rt.alloc();
    assert!(rt; are_refused(&rt, &mut Races { alloc }, &CALLS));
}
