//! Numbers as digits, and texts in parts.

ghost use Rattle.std.specs.Prelude.{◌≡◌, ◌≤◌, ◌<◌, ◌^◌, ◌-◌, [], ◌∷◌, ◌==◌, length, IsTrue};
ghost use Rattle.std.specs.Prelude.{IfSome, MatchOption};
ghost use Rattle.std.specs.Char.{is_ascii_digit};
ghost use Rattle.std.specs.List.{list_all, position, slice_split};
ghost use Rattle.std.specs.Option.{option_and_then};
ghost use Rattle.std.specs.Str.Parse.{digits_value};
ghost use Rattle.regatta_terms.specs.Numbers.{within};
ghost use Rattle.regatta_times.specs.Texts.{number_of, decimals_of};

/// The number that a word of `least` to `most` digits writes; `None` for every other word.
#[tactic(auto, using(regatta_terms::proofs::DigitFacts::value_short))]
pub(crate) fn number(least: usize, most: usize, word: &[u8]) -> Option<u64>
    requires { most ≤ 10 }
    ensures value { result ≡ number_of least most word.now }
    ensures bound { IfSome result (λ n. n < 10 ^ most) }
{
    if word.len() < least || word.len() > most || !are_digits(word) {
        return None;
    }
    Some(value(word))
}

/// That number where it is from `low` to `high`; else `None`.
pub(crate) fn number_within(
    least: usize,
    most: usize,
    low: u64,
    high: u64,
    word: &[u8],
) -> Option<u64>
    requires { most ≤ 10 }
    ensures value { result ≡ option_and_then (within low high) (number_of least most word.now) }
    ensures bound { IfSome result (λ n. n ≤ high) }
{
    let number = number(least, most, word)?;
    if low <= number && number <= high {
        Some(number)
    } else {
        None
    }
}

fn are_digits(word: &[u8]) -> bool
    ensures { result ≡ list_all is_ascii_digit word.now }
{
    word.iter().all(|byte| matches!(*byte, b'0'..=b'9'))
}

/// The number that the digits write.
fn value(digits: &[u8]) -> u64
    requires short { length digits.now ≤ 10 }
    requires digits { IsTrue (list_all is_ascii_digit digits.now) }
    ensures value { result ≡ digits_value 10 digits.now }
{
    let mut number = 0;
    for digit in digits {
        number = 10 * number + u64::from(*digit - b'0');
    }
    number
}

/// The units of the last of these decimal places that make a whole one.
pub(crate) fn units(places: usize) -> u64
    requires { places ≤ 4 }
    ensures value { result ≡ 10 ^ places }
    ensures range { result ≤ 10000 }
{
    match places {
        0 => 1,
        1 => 10,
        2 => 100,
        3 => 1000,
        _ => 10_000,
    }
}

/// Digits after a dot, in units of the last of these places; `None` where there are none, or more
/// than there are places.
pub(crate) fn decimals(places: usize, part: &[u8]) -> Option<u64>
    requires { places ≤ 4 }
    ensures value { result ≡ decimals_of places part.now }
    ensures bound { IfSome result (λ n. n ≤ 10 ^ 8) }
{
    let number = number(1, places, part)?;
    Some(units(places - part.len()) * number)
}

/// Where the first `mark` is.
fn find(text: &[u8], mark: u8) -> Option<usize>
    ensures { result ≡ position (λ b. b == mark) text.now }
{
    text.iter().position(|byte| *byte == mark)
}

/// The part before the first `mark`, and the part after it.
#[tactic(auto, using(regatta_terms::proofs::Cuts::cut_at, regatta_terms::proofs::Cuts::cut_nowhere))]
pub(crate) fn cut(text: &[u8], mark: u8) -> (&[u8], Option<&[u8]>)
    ensures { MatchOption result.1
        (slice_split (λ b. b == mark) text.now ≡ result.0.now ∷ [])
        (λ rest. slice_split (λ b. b == mark) text.now
        ≡ result.0.now ∷ slice_split (λ b. b == mark) rest.now) }
{
    match find(text, mark) {
        Some(i) => (&text[..i], Some(&text[i + 1..])),
        None => (text, None),
    }
}
