//! The calls of scoring, on worked races and series.

use super::*;
use crate::sheet_after;
use regatta_scores::{
    BoatLine, Change, Held, MAX_RANKED, NOTHING_HELD, RaceScore, RaceSheet, RowItem, Scored, Work,
    averages, better, excluded, net, race_points, race_scores, ranks,
};
use regatta_terms::{Code, Redress, Seconds, Tenths};
use std::alloc::AllocError;
use std::cmp::Ordering;

/// Points in tenths.
fn tenths(points: u32) -> Result<Tenths, Fail> {
    Ok(Tenths::new(points).ok_or("points")?)
}

/// Whether these are the points wanted, in tenths.
fn are_tenths(points: &[Tenths], wanted: &[u32]) -> bool {
    points.iter().map(|p| p.get()).eq(wanted.iter().copied())
}

/// A change of a race's sheet, as plain data.
#[derive(Clone, Copy)]
enum Step {
    /// The boat finishes last.
    Last(u16),
    /// She finishes with the other.
    Join(u16, u16),
    /// She goes ahead of the other.
    Ahead(u16, u16),
    /// She goes out of the order.
    Out(u16),
    /// The number of her penalties under RRS 30.2, and of her Scoring Penalties (44.3).
    Penalised(u16, u8, u8),
    /// She holds a code.
    Coded(u16, Code),
}

/// The change that a step is.
fn change_of(step: Step) -> Change {
    match step {
        Step::Last(boat) => Change::Last { boat },
        Step::Join(boat, other) => Change::Join { boat, other },
        Step::Ahead(boat, other) => Change::Ahead { boat, other },
        Step::Out(boat) => Change::Out { boat },
        Step::Penalised(boat, zfp, scp) => {
            let held = Held {
                zfp,
                scp,
                ..NOTHING_HELD
            };
            Change::Hold { boat, held }
        }
        Step::Coded(boat, code) => {
            let held = Held {
                code: Some(code),
                ..NOTHING_HELD
            };
            Change::Hold { boat, held }
        }
    }
}

/// The changes of a race.
fn changes_of(alloc: Global, steps: &[Step]) -> Result<Vec<Change>, AllocError> {
    // A loop that pushes a change has to name the types that it is made of.
    let _parts: (Option<Held>, Option<Redress>) = (None, None);
    let mut changes = Vec::with_capacity(alloc, steps.len())?;
    for step in steps {
        changes.push(change_of(*step))?;
    }
    Ok(changes)
}

/// A race: its boats, the rules that matter, what happened, and the points of each boat in tenths.
struct Race {
    boats: u16,
    absent: Absent,
    scp: Option<u8>,
    steps: &'static [Step],
    points: &'static [u32],
}

static RACES: [Race; 5] = [
    // Ten boats finish. The DNF score is 11 points, so a 20% penalty is 2 (RRS 44.3(c)); a stated
    // Scoring Penalty is 3 points.
    Race {
        boats: 10,
        absent: Absent::A52,
        scp: Some(3),
        steps: &[
            Step::Last(0),
            Step::Last(1),
            Step::Last(2),
            Step::Last(3),
            Step::Last(4),
            Step::Last(5),
            Step::Last(6),
            Step::Last(7),
            Step::Last(8),
            Step::Last(9),
            Step::Penalised(0, 0, 1),
            Step::Penalised(1, 1, 1),
            Step::Penalised(7, 1, 0),
            Step::Penalised(8, 1, 0),
            Step::Penalised(9, 1, 0),
        ],
        points: &[40, 70, 30, 40, 50, 60, 70, 100, 110, 110],
    },
    // Ten boats are entered and six come to the starting area, of which one doesn't finish: by RRS
    // A5.3 the DNF score is 7 points, and a 20% penalty is 1.
    Race {
        boats: 10,
        absent: Absent::A53,
        scp: None,
        steps: &[
            Step::Last(0),
            Step::Last(1),
            Step::Last(2),
            Step::Last(3),
            Step::Last(4),
            Step::Coded(5, Code::Dnf),
            Step::Penalised(2, 1, 0),
            Step::Penalised(9, 1, 0),
            Step::Penalised(4, 3, 0),
        ],
        points: &[10, 20, 40, 40, 70, 70, 110, 110, 110, 110],
    },
    // The third boat wins, two tie, and the fourth is last.
    Race {
        boats: 4,
        absent: Absent::A52,
        scp: None,
        steps: &[
            Step::Last(0),
            Step::Join(1, 0),
            Step::Ahead(2, 1),
            Step::Last(3),
        ],
        points: &[25, 25, 10, 40],
    },
    // Then the first is disqualified.
    Race {
        boats: 4,
        absent: Absent::A52,
        scp: None,
        steps: &[
            Step::Last(0),
            Step::Join(1, 0),
            Step::Ahead(2, 1),
            Step::Last(3),
            Step::Coded(0, Code::Dsq),
        ],
        points: &[50, 20, 10, 30],
    },
    // And then the third is struck out of the order.
    Race {
        boats: 4,
        absent: Absent::A52,
        scp: None,
        steps: &[
            Step::Last(0),
            Step::Join(1, 0),
            Step::Ahead(2, 1),
            Step::Last(3),
            Step::Coded(0, Code::Dsq),
            Step::Out(2),
        ],
        points: &[50, 10, 50, 20],
    },
];

/// Whether these are the scores of a race without redress: its points.
fn have_points(scores: &[RaceScore], wanted: &[u32]) -> bool {
    scores
        .iter()
        .map(|score| score.points.get())
        .eq(wanted.iter().copied())
}

/// Whether both calls that score a race give its points, and count one race each.
fn is_scored(alloc: Global, race: &Race) -> Result<bool, Fail> {
    if race.boats > 500 {
        return Err(Fail::new("more than 500 boats"));
    }
    let changes = changes_of(alloc, race.steps)?;
    let sheet = sheet_after(alloc, race.boats, &changes)?.ok_or("changes that are allowed")?;
    let rules = Rules::new(race.absent, race.scp, &[], false)
        .ok()
        .ok_or("rules")?;
    let mut work = Work::new();
    let points = race_points(alloc, &sheet, &rules, &mut work)?;
    let scores = race_scores(alloc, &sheet, &rules, &mut work)?;
    Ok(
        are_tenths(points.as_slice(), race.points)
            && have_points(scores.as_slice(), race.points)
            && work.count() == 2,
    )
}

#[test]
fn races_are_scored(rt: HostRuntime) -> Result<(), Fail> {
    for race in &RACES {
        assert!(rt; is_scored(rt.alloc(), race)?);
    }
    Ok(())
}

/// The scores of a boat: in tenths, and whether each is for a disqualification that isn't
/// excludable; from how many races on one is excluded; which are, and the total of the others.
struct Series {
    threshold: u8,
    scores: &'static [(u32, bool)],
    excluded: &'static [bool],
    net: u32,
}

/// The earliest of equal worst scores is excluded (RRS A2.1), a DNE never (90.3(b)).
static SERIES: [Series; 4] = [
    Series {
        threshold: 3,
        scores: &[(40, false), (20, false), (40, false)],
        excluded: &[true, false, false],
        net: 60,
    },
    Series {
        threshold: 3,
        scores: &[(40, true), (30, false), (20, false)],
        excluded: &[false, true, false],
        net: 60,
    },
    Series {
        threshold: 2,
        scores: &[(40, true), (50, true)],
        excluded: &[false, false],
        net: 90,
    },
    Series {
        threshold: 2,
        scores: &[],
        excluded: &[],
        net: 0,
    },
];

/// The scores that may be excluded, and their points.
fn scored(alloc: Global, scores: &[(u32, bool)]) -> Result<(Vec<Scored>, Vec<Tenths>), Fail> {
    let (mut each, mut all) = (Vec::new(alloc), Vec::new(alloc));
    for &(points, dne) in scores {
        let points = tenths(points)?;
        each.push(Scored { points, dne })?;
        all.push(points)?;
    }
    Ok((each, all))
}

/// The total of the scores that aren't excluded, of at most 40 scores with a flag each.
fn total(points: &[Tenths], flags: &[bool]) -> Option<u32> {
    if points.len() > 40 || points.len() != flags.len() {
        return None;
    }
    Some(net(points, flags))
}

/// Whether the scores of a series that are excluded, and the total of the others, are as stated.
fn is_excluded(alloc: Global, series: &Series) -> Result<bool, Fail> {
    let (each, all) = scored(alloc, series.scores)?;
    if each.len() > 40 {
        return Err(Fail::new("more than 40 races"));
    }
    let rules = Rules::new(Absent::A52, None, &[series.threshold], false)
        .ok()
        .ok_or("rules")?;
    let flags = excluded(alloc, &each, &rules)?;
    Ok(flags.as_slice() == series.excluded && total(&all, flags.as_slice()) == Some(series.net))
}

#[test]
fn worst_scores_are_excluded(rt: HostRuntime) -> Result<(), Fail> {
    for series in &SERIES {
        assert!(rt; is_excluded(rt.alloc(), series)?);
    }
    Ok(())
}

/// The average of all other races, and of those before.
const ALL: &str = "ALL";

const BEFORE: &str = "BEFORE";

/// A boat's points before redress in each race, in tenths, the average that is her redress there, and
/// her points with it.
struct Averages {
    races: &'static [(u32, &'static str)],
    points: &'static [u32],
}

/// Averages leave out races in which she has one herself, and count races before the one in
/// question where they say so (RRS A9).
static AVERAGES: [Averages; 6] = [
    Averages {
        races: &[(10, ""), (15, ""), (40, ALL)],
        points: &[10, 15, 13],
    },
    Averages {
        races: &[(10, ""), (20, ""), (20, ""), (50, ALL)],
        points: &[10, 20, 20, 17],
    },
    Averages {
        races: &[(10, ""), (50, BEFORE), (30, "")],
        points: &[10, 10, 30],
    },
    Averages {
        races: &[(30, ""), (50, ALL), (60, ALL)],
        points: &[30, 30, 30],
    },
    Averages {
        races: &[(40, ALL)],
        points: &[40],
    },
    Averages {
        races: &[(40, BEFORE), (20, "")],
        points: &[40, 20],
    },
];

/// The redress of that name.
fn redress(name: &str) -> Option<Redress> {
    match name {
        ALL => Some(Redress::AllRaces),
        BEFORE => Some(Redress::RacesBefore),
        _ => None,
    }
}

/// Whether a boat's points with redress are as stated.
fn is_averaged(alloc: Global, row: &Averages) -> Result<bool, Fail> {
    let mut items = Vec::new(alloc);
    for &(points, name) in row.races {
        let (plain, redress) = (tenths(points)?, redress(name));
        items.push(RowItem { plain, redress })?;
    }
    if items.len() > 40 {
        return Err(Fail::new("more than 40 races"));
    }
    Ok(are_tenths(averages(alloc, &items)?.as_slice(), row.points))
}

#[test]
fn redress_is_an_average(rt: HostRuntime) -> Result<(), Fail> {
    for row in &AVERAGES {
        assert!(rt; is_averaged(rt.alloc(), row)?);
    }
    Ok(())
}

/// Two boats of equal series scores: the points of each in tenths, with a flag if they are excluded,
/// and how the first compares.
struct Pair {
    one: &'static [(u32, bool)],
    other: &'static [(u32, bool)],
    better: Ordering,
}

/// The best scores that count decide (RRS A8.1), and then the last race, excluded or not (A8.2).
static PAIRS: [Pair; 4] = [
    Pair {
        one: &[(10, false), (40, false)],
        other: &[(20, false), (30, false)],
        better: Ordering::Less,
    },
    Pair {
        one: &[(20, false), (10, false)],
        other: &[(10, false), (20, false)],
        better: Ordering::Less,
    },
    Pair {
        one: &[(20, false), (10, false), (50, true)],
        other: &[(10, false), (20, false), (40, true)],
        better: Ordering::Greater,
    },
    Pair {
        one: &[(50, true), (20, false), (10, false)],
        other: &[(40, true), (10, false), (20, false)],
        better: Ordering::Less,
    },
];

/// The line of a boat with these scores.
fn line(alloc: Global, scores: &[(u32, bool)]) -> Result<BoatLine, Fail> {
    let (mut points, mut flags) = (Vec::new(alloc), Vec::new(alloc));
    for &(score, flag) in scores {
        points.push(tenths(score)?)?;
        flags.push(flag)?;
    }
    if points.len() > 40 || points.len() != flags.len() {
        return Err(Fail::new("more than 40 races"));
    }
    Ok(BoatLine::new(alloc, &points, &flags)?)
}

#[test]
fn ties_are_broken(rt: HostRuntime) -> Result<(), Fail> {
    let alloc = rt.alloc();
    for pair in &PAIRS {
        let found = better(&line(alloc, pair.one)?, &line(alloc, pair.other)?);
        assert!(rt; found == pair.better);
    }
    Ok(())
}

/// No boat has no rank, and two boats without a race share the first.
#[test]
fn ranks_without_a_race(rt: HostRuntime) -> Result<(), Fail> {
    let alloc = rt.alloc();
    assert!(rt; ranks(alloc, &[])?.as_slice().is_empty());
    let lines = [
        BoatLine::new(alloc, &[], &[])?,
        BoatLine::new(alloc, &[], &[])?,
    ];
    let places = ranks(alloc, &lines)?;
    assert!(rt; places.as_slice().len() == 2);
    for place in places.as_slice() {
        assert!(rt; (place.rank, place.tied) == (1, true));
    }
    Ok(())
}

/// The most lines that there may be, each with a point more than the one before.
#[test]
fn ranks_of_a_thousand(rt: HostRuntime) -> Result<(), Fail> {
    let alloc = rt.alloc();
    let mut lines = Vec::new(alloc);
    for points in 0..1000u32 {
        lines.push(line(alloc, &[(points, false)])?)?;
    }
    if lines.len() > MAX_RANKED {
        return Err(Fail::new("too many lines"));
    }
    let places = ranks(alloc, &lines)?;
    let ranked = places.as_slice().iter().map(|place| place.rank);
    assert!(rt; ranked.eq(1..1001u16));
    Ok(())
}

/// Whether a list has this many of these points, in tenths.
fn are_all(points: &[Tenths], count: usize, wanted: u32) -> bool {
    for point in points {
        if point.get() != wanted {
            return false;
        }
    }
    points.len() == count
}

/// Nobody came to a race of 500 boats: each scores 501 points (RRS A5.2).
#[test]
fn a_race_of_500_boats(rt: HostRuntime) -> Result<(), Fail> {
    let alloc = rt.alloc();
    let sheet = sheet_after(alloc, 500, &[])?.ok_or("a sheet")?;
    let points = race_points(alloc, &sheet, &default_rules(), &mut Work::new())?;
    assert!(rt; are_all(points.as_slice(), 500, 5010));
    Ok(())
}

/// In each of 40 races a boat scores 1 point; in the last she has her average of the others. The
/// first of her equal scores is excluded (RRS A2.1, A9).
#[test]
fn a_series_of_40_races(rt: HostRuntime) -> Result<(), Fail> {
    let alloc = rt.alloc();
    let point = tenths(10)?;
    let one = RowItem {
        plain: point,
        redress: None,
    };
    let last = RowItem {
        plain: tenths(50)?,
        redress: Some(Redress::AllRaces),
    };
    let mut row = [one; 40];
    row[39] = last;
    assert!(rt; are_all(averages(alloc, &row)?.as_slice(), 40, 10));
    let scores = [Scored {
        points: point,
        dne: false,
    }; 40];
    let flags = excluded(alloc, &scores, &default_rules())?;
    assert!(rt; flags.as_slice().first() == Some(&true));
    assert!(rt; total(&[point; 40], flags.as_slice()) == Some(390));
    Ok(())
}

#[test]
fn a_sheet_has_the_times_of_boats(rt: HostRuntime) -> Result<(), Fail> {
    let sheet = RaceSheet::new(rt.alloc(), 2)?;
    let seconds = Seconds::new(3600).ok_or("seconds")?;
    let timed = sheet.after(Change::Timed { boat: 1, seconds })?;
    assert!(rt; (timed.seconds(0), timed.seconds(1)) == (None, Some(seconds)));
    Ok(())
}
