//! Lines of decisions.

ghost use Rattle.std.specs.Prelude.{◌≡◌, ◌∷◌, ◌<◌, ◌≤◌, IfSome, drop, is_some, length, map};
ghost use Rattle.std.specs.List.{concat, position};
ghost use Rattle.regatta_rulings.specs.DecisionLines.{decision_by, decision_of, decision_of_words};
ghost use Rattle.regatta_rulings.specs.DecisionLines.{decision_or_none, kind_place as kind_place_of};
ghost use Rattle.regatta_rulings.specs.DecisionLines.{decision_named, kind_of as kind_of_word};
ghost use Rattle.regatta_rulings.specs.DecisionLines.{race_named, sail_named, short_ruling_of};

use crate::arguments::read_ruling;
use crate::decision::{Decision, Ruling};
use crate::digits::number;
use crate::fault::DecisionFault;
use crate::kind::{Kind, kind_of};
use crate::words::{Joined, first_words, is_keyword, join, without_note};
use regatta_terms::{RaceNo, Sail};

fn read_race(word: &[u8]) -> Result<RaceNo, DecisionFault>
    ensures { result ≡ race_named word.now }
{
    let Some(race) = number(2, word) else {
        return Err(DecisionFault::BadRace);
    };
    RaceNo::new(race as u8).ok_or(DecisionFault::BadRace)
}

/// Reads the sail that words name, joined.
#[tactic(auto, using(crate::proofs::LineFacts::long_is_no_sail))]
fn read_sail(words: &[&[u8]]) -> Result<Sail, DecisionFault>
    ensures { result ≡ sail_named (map (λ word. word.now) words.now) }
{
    let mut joined = Joined::new();
    if !join(&mut joined, words) {
        return Err(DecisionFault::BadSail);
    }
    Sail::read(&joined).ok_or(DecisionFault::BadSail)
}

/// Reads what is after a kind.
fn read_rest(race: RaceNo, kind: Kind, words: &[&[u8]]) -> Result<Ruling, DecisionFault>
    ensures { result ≡ short_ruling_of race kind (concat (map (λ word. word.now) words.now)) }
{
    let mut joined = Joined::new();
    if !join(&mut joined, words) {
        return Err(DecisionFault::BadArgument);
    }
    read_ruling(race.get(), kind, &joined)
}

fn first_kind(words: &[&[u8]]) -> Option<usize>
    ensures value { result ≡ position (λ word. is_some (kind_of_word word.now)) words.now }
    ensures within { IfSome result (λ at. at < length words.now) }
{
    words.iter().position(|word| kind_of(word).is_some())
}

/// The position of the first word that is a kind.
fn kind_place(words: &[&[u8]]) -> Option<usize>
    ensures value { result ≡ kind_place_of (map (λ word. word.now) words.now) }
    ensures within { IfSome result (λ at. at < length words.now) }
{
    first_kind(words)
}

/// Reads the words that are a sail, and those that a kind takes.
fn read_parts(
    race: RaceNo,
    kind: Kind,
    sail: &[&[u8]],
    rest: &[&[u8]],
) -> Result<Decision, DecisionFault>
    ensures { result ≡ decision_named race kind (map (λ word. word.now) sail.now)
        (map (λ word. word.now) rest.now) }
{
    let sail = read_sail(sail)?;
    let ruling = read_rest(race, kind, rest)?;
    Ok(Decision { race, sail, ruling })
}

/// Reads the words after the race.
fn read_after_race(race: RaceNo, words: &[&[u8]]) -> Result<Decision, DecisionFault>
    requires { 2 ≤ length words.now }
    ensures { result ≡ decision_by race (map (λ word. word.now) words.now)
        (kind_place_of (drop 1 (map (λ word. word.now) words.now))) }
{
    let Some(at) = kind_place(&words[1..]) else {
        return Err(DecisionFault::NoKind);
    };
    let Some(kind) = kind_of(words[at + 1]) else {
        return Err(DecisionFault::NoKind);
    };
    read_parts(race, kind, &words[..at + 1], &words[at + 2..])
}

fn read_words(words: &[&[u8]]) -> Result<Decision, DecisionFault>
    ensures { result ≡ decision_of_words (map (λ word. word.now) words.now) }
{
    let [first, race, others @ ..] = words else {
        return Err(DecisionFault::BadForm);
    };
    if others.len() < 2 || !is_keyword(first, b"RACE") {
        return Err(DecisionFault::BadForm);
    }
    let race = read_race(race)?;
    read_after_race(race, others)
}

fn read_or_none(words: &[&[u8]]) -> Result<Option<Decision>, DecisionFault>
    ensures { result ≡ decision_or_none (map (λ word. word.now) words.now) }
{
    if words.is_empty() {
        return Ok(None);
    }
    let decision = read_words(words)?;
    Ok(Some(decision))
}

/// Returns the decision that a line of `decisions.txt` says, `None` if it has no words before its
/// note, or its first fault. The line is given without its line feed. A note begins with `#`. Words
/// are separated by spaces, tabs and carriage returns, and their letters may be of either case.
pub fn read_decision(line: &[u8]) -> Result<Option<Decision>, DecisionFault>
    ensures { result ≡ decision_of line.now }
{
    let text = without_note(line);
    let mut slots: [&[u8]; 64] = [&[]; 64];
    let count = first_words(text, &mut slots);
    if count > 60 {
        return Err(DecisionFault::TooLong);
    }
    read_or_none(&slots[..count])
}
