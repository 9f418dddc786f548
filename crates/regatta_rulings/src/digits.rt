//! Numbers and points as digits.

ghost use Rattle.std.specs.Prelude.{◌≡◌, ◌≤◌, ◌<◌, ◌^◌, ◌==◌, length, IsTrue, IfSome};
ghost use Rattle.std.specs.Char.{is_ascii_digit};
ghost use Rattle.std.specs.List.{list_all, slice_split};
ghost use Rattle.std.specs.Str.Parse.{digits_value};
ghost use Rattle.regatta_terms.specs.Numbers.{number_of, tenths_of};

use crate::words::cut;

/// The number that a word of one to `most` digits writes; `None` for every other word.
#[tactic(auto, using(regatta_terms::proofs::DigitFacts::value_short))]
pub(crate) fn number(most: usize, word: &[u8]) -> Option<u64>
    requires { most ≤ 10 }
    ensures value { result ≡ number_of most word.now }
    ensures bound { IfSome result (λ n. n < 10 ^ most) }
{
    if word.is_empty() || word.len() > most || !are_digits(word) {
        return None;
    }
    Some(value(word))
}

fn are_digits(word: &[u8]) -> bool
    ensures { result ≡ list_all is_ascii_digit word.now }
{
    word.iter().all(|byte| matches!(*byte, b'0'..=b'9'))
}

/// The number that the digits write.
fn value(digits: &[u8]) -> u64
    requires short { length digits.now ≤ 10 }
    requires digits { IsTrue (list_all is_ascii_digit digits.now) }
    ensures value { result ≡ digits_value 10 digits.now }
{
    let mut number = 0;
    for digit in digits {
        number = 10 * number + u64::from(*digit - b'0');
    }
    number
}

/// The tenths of the points that a word writes, with one decimal or none; `None` for every other
/// word.
pub(crate) fn tenths_in(word: &[u8]) -> Option<u32>
    ensures value { result ≡ tenths_of (slice_split (λ b. b == 46) word.now) }
    ensures bound { IfSome result (λ n. n ≤ 9999) }
{
    let (whole, part) = cut(word, b'.');
    let whole = number(3, whole)?;
    match part {
        None => Some((10 * whole) as u32),
        Some(part) => {
            let part = number(1, part)?;
            Some((10 * whole + part) as u32)
        }
    }
}
