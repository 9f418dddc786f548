//! What kinds of decisions take.

ghost use Rattle.std.specs.Prelude.{◌≡◌, ◌≤◌, ◌&&◌, Some, codes, count_by, length, nat_eq, nat_le, take};
ghost use Rattle.std.specs.List.{list_all, list_any, slice_split};
ghost use Rattle.std.specs.Option.{option_map};
ghost use Rattle.regatta_terms.specs.Rules.{is_comma, numbers_of};
ghost use Rattle.regatta_terms.specs.Words.{says};
ghost use Rattle.regatta_rulings.specs.DecisionLines.{amount_of, amount_or_30, bare as bare_of};
ghost use Rattle.regatta_rulings.specs.DecisionLines.{chosen_by as chosen_by_races};
ghost use Rattle.regatta_rulings.specs.DecisionLines.{is_named_once as is_named_once_in};
ghost use Rattle.regatta_rulings.specs.DecisionLines.{is_percentage as is_percentage_of, limit_of};
ghost use Rattle.regatta_rulings.specs.DecisionLines.{penalty_of, races_of};
ghost use Rattle.regatta_rulings.specs.DecisionLines.{ruling_of as ruling_of_kind};
ghost use Rattle.regatta_rulings.specs.declared.kind.Kind.TheVariants as kind;

use crate::averaging::names;
use crate::decision::{Amount, Limit, PenaltyName, Races, Ruling};
use crate::digits::{number, tenths_in};
use crate::fault::DecisionFault;
use crate::kind::Kind;
use crate::race_list::RaceList;
use crate::words::{cut, is_keyword};
use regatta_terms::{Award, MAX_RACES, Tenths};

fn is_percentage(how: &[u8]) -> bool
    ensures { result ≡ is_percentage_of how.now }
{
    !how.is_empty() && how[how.len() - 1] == b'%'
}

/// Reads a percentage, or points.
fn read_amount(how: &[u8]) -> Result<Amount, DecisionFault>
    ensures { result ≡ amount_of how.now }
{
    if is_percentage(how) {
        let Some(percent) = number(3, &how[..how.len() - 1]) else {
            return Err(DecisionFault::BadArgument);
        };
        if percent < 1 || percent > 100 {
            return Err(DecisionFault::BadPercent);
        }
        return Ok(Amount::Percent(percent as u8));
    }
    let Some(points) = tenths_in(how) else {
        return Err(DecisionFault::BadArgument);
    };
    if points < 1 {
        return Err(DecisionFault::TooFew);
    }
    Ok(Amount::Plus(Tenths::new(points).unwrap()))
}

/// Reads a percentage or points; nothing is 30%.
fn read_amount_or_30(how: &[u8]) -> Result<Amount, DecisionFault>
    ensures { result ≡ amount_or_30 how.now }
{
    if how.is_empty() {
        return Ok(Amount::Percent(30));
    }
    read_amount(how)
}

fn penalty(
    name: PenaltyName,
    amount: Result<Amount, DecisionFault>,
) -> Result<Ruling, DecisionFault>
    ensures { result ≡ penalty_of name amount }
{
    match amount {
        Ok(amount) => Ok(Ruling::Penalty(name, amount)),
        Err(fault) => Err(fault),
    }
}

/// Whether a word begins with `last+`.
fn is_after_last(how: &[u8]) -> bool
    ensures { result ≡ (nat_le 5 (length how.now) && says (take 5 how.now) (codes "LAST+")) }
{
    how.len() >= 5 && is_keyword(&how[..5], b"LAST+")
}

/// Reads `last+2`, or points.
fn read_limit(how: &[u8]) -> Result<Ruling, DecisionFault>
    ensures { result ≡ limit_of how.now }
{
    if is_after_last(how) {
        let Some(more) = number(2, &how[5..]) else {
            return Err(DecisionFault::BadArgument);
        };
        return Ok(Ruling::TimeLimit(Limit::AfterLast(more as u8)));
    }
    let Some(points) = tenths_in(how) else {
        return Err(DecisionFault::BadArgument);
    };
    if points < 10 {
        return Err(DecisionFault::TooFew);
    }
    Ok(Ruling::TimeLimit(Limit::Score(Award::new(points).unwrap())))
}

/// The first numbers of a list, 41 at most. They are too many for an average, so a later one makes
/// no difference.
#[derive(Clone, Copy)]
pub(crate) struct Listed {
    numbers: [u8; 41],
    count: usize,
    ghost in_range: { count ≤ 41 },
}

impl Listed {
    fn as_slice(&self) -> &[u8]
        ensures value { result.now ≡ take self.now.count self.now.numbers }
    {
        &self.numbers[..self.count]
    }
}

/// Reads numbers of one or two digits, with commas between them.
fn read_numbers(text: &[u8]) -> Option<Listed>
    ensures { option_map (λ listed. take listed.count listed.numbers) result
        ≡ option_map (λ ns. take 41 ns) (numbers_of (slice_split is_comma text.now)) }
{
    let mut numbers = [0; 41];
    let mut count = 0;
    let mut rest = Some(text);
    while let Some(text) = rest {
        let (part, after) = cut(text, b',');
        let races = number(2, part)? as u8;
        if count < 41 {
            numbers[count] = races;
            count += 1;
        }
        rest = after;
    }
    Some(Listed { numbers, count })
}

fn count_of(races: &[u8], race: u8) -> usize
    ensures { result ≡ count_by (nat_eq race) races.now }
{
    races.iter().filter(|other| race == **other).count()
}

fn is_named_once(races: &[u8], race: u8) -> bool
    ensures { result ≡ is_named_once_in races.now race }
{
    1 <= race && race <= MAX_RACES && count_of(races, race) <= 1
}

fn are_named_once(races: &[u8]) -> bool
    ensures { result ≡ list_all (is_named_once_in races.now) races.now }
{
    races.iter().all(|race| is_named_once(races, *race))
}

/// The races that an average in `race` names.
fn chosen(race: u8, races: &[u8]) -> Result<Races, DecisionFault>
    ensures { result ≡ chosen_by_races race (Some races.now) }
{
    if races.len() > usize::from(MAX_RACES) {
        return Err(DecisionFault::BadArgument);
    }
    if names(races, race) {
        return Err(DecisionFault::Itself);
    }
    if !are_named_once(races) {
        return Err(DecisionFault::BadRaces);
    }
    Ok(Races::Chosen(RaceList::new(races)))
}

/// Reads the races that an average in `race` names.
#[tactic(auto, using(crate::proofs::ArgumentFacts::chosen_of_first, crate::proofs::ArgumentFacts::none_listed))]
fn read_chosen(race: u8, how: &[u8]) -> Result<Races, DecisionFault>
    ensures { result ≡ chosen_by_races race (numbers_of (slice_split is_comma how.now)) }
{
    let Some(listed) = read_numbers(how) else {
        return Err(DecisionFault::BadArgument);
    };
    chosen(race, listed.as_slice())
}

/// Reads `sailed`, `all`, `before`, or races as `1,2,4`.
fn read_races(race: u8, how: &[u8]) -> Result<Races, DecisionFault>
    ensures { result ≡ races_of race how.now }
{
    if is_keyword(how, b"SAILED") {
        Ok(Races::Sailed)
    } else if is_keyword(how, b"ALL") {
        Ok(Races::Others)
    } else if is_keyword(how, b"BEFORE") {
        Ok(Races::Earlier)
    } else {
        read_chosen(race, how)
    }
}

/// What takes nothing.
fn bare(ruling: Ruling, how: &[u8]) -> Result<Ruling, DecisionFault>
    ensures { result ≡ bare_of ruling how.now }
{
    if how.is_empty() {
        Ok(ruling)
    } else {
        Err(DecisionFault::BadArgument)
    }
}

fn average(race: u8, how: &[u8]) -> Result<Ruling, DecisionFault>
    ensures { result ≡ ruling_of_kind race kind.Avg how.now }
{
    let races = read_races(race, how)?;
    Ok(Ruling::Average(races))
}

fn duty(race: u8, how: &[u8]) -> Result<Ruling, DecisionFault>
    ensures { result ≡ ruling_of_kind race kind.Duty how.now }
{
    let races = read_races(race, how)?;
    Ok(Ruling::Duty(races))
}

/// Reads what is after a kind, in a race.
pub(crate) fn read_ruling(race: u8, kind: Kind, how: &[u8]) -> Result<Ruling, DecisionFault>
    ensures { result ≡ ruling_of_kind race kind how.now }
{
    match kind {
        Kind::Dpi => penalty(PenaltyName::Dpi, read_amount(how)),
        Kind::Prp => penalty(PenaltyName::Prp, read_amount_or_30(how)),
        Kind::T1 => penalty(PenaltyName::T1, read_amount_or_30(how)),
        Kind::Scp => penalty(PenaltyName::Scp, read_amount(how)),
        Kind::Tle => read_limit(how),
        Kind::Nsc => bare(Ruling::NotSailed, how),
        Kind::Avg => average(race, how),
        Kind::Duty => duty(race, how),
        Kind::Reinstate => bare(Ruling::Reinstate, how),
    }
}
