//! Corrected times as text: the office's lines, and the sums.

ghost use Rattle.std.specs.Prelude.{◌≡◌, ◌∷◌, ◌++◌, [], OnOk, codes, decimal, map, flat_map};
ghost use Rattle.regatta_times.specs.Printed.{head_text, joined, lines_text, time_line};
ghost use Rattle.regatta_times.specs.Printed.{rounding_text, sum_pieces, sum_text, sums_text};

use crate::fraction::Rounding;
use crate::laps::Laps;
use crate::numbers::Elapsed;
use crate::rating::Rating;
use crate::timing::Timed;
use itoa::Buffer;
use regatta_terms::RaceNo;
use std::alloc::AllocError;

/// Appends the pieces, one after another.
fn push_pieces(out: &mut Vec<u8>, pieces: &[&[u8]]) -> Result<(), AllocError>
    ensures { OnOk result (out.new.items
        ≡ out.old.items ++ flat_map (λ piece. piece.now) pieces.now) }
{
    for piece in pieces {
        out.extend_from_slice(piece)?;
    }
    Ok(())
}

/// Appends a line for each boat, as the office reads it: `TIME 1 GBR7 3401`.
///
/// # Errors
///
/// `AllocError` if an allocation fails. `out` may then have some first part of the lines.
pub fn write_lines(race: RaceNo, times: &[Timed], out: &mut Vec<u8>) -> Result<(), AllocError>
    ensures { OnOk result (out.new.items ≡ out.old.items ++ lines_text race times.now) }
{
    for timed in times {
        push_line(race, timed, out)?;
    }
    Ok(())
}

fn push_line(race: RaceNo, timed: &Timed, out: &mut Vec<u8>) -> Result<(), AllocError>
    ensures { OnOk result (out.new.items ≡ out.old.items ++ time_line race timed.now) }
{
    let (mut first, mut second) = (Buffer::new(), Buffer::new());
    let race = first.format(race.get()).as_bytes();
    let sail = timed.sail.text().as_bytes();
    let seconds = second.format(timed.seconds).as_bytes();
    push_pieces(
        out,
        &[b"TIME", b" ", race, b" ", sail, b" ", seconds, b"\n"],
    )?;
    Ok(())
}

/// The name of a rule for rounding, as `half-up`.
pub fn rounding_text(rounding: Rounding) -> &'static str
    ensures { result.now ≡ rounding_text rounding }
{
    match rounding {
        Rounding::HalfUp => "half-up",
        Rounding::HalfDown => "half-down",
        Rounding::Down => "down",
        Rounding::Up => "up",
    }
}

/// Appends the sums: a line with the race and the rule for rounding, and a line for each boat, as
/// `GBR7 3751 * 1000 / 1103 -> 3401`.
///
/// # Errors
///
/// `AllocError` if an allocation fails. `out` may then have some first part of the sums.
pub fn write_sums(
    race: RaceNo,
    rounding: Rounding,
    times: &[Timed],
    out: &mut Vec<u8>,
) -> Result<(), AllocError>
    ensures { OnOk result (out.new.items ≡ out.old.items ++ sums_text race rounding times.now) }
{
    push_head(race, rounding, out)?;
    push_sums(times, out)?;
    Ok(())
}

fn push_head(race: RaceNo, rounding: Rounding, out: &mut Vec<u8>) -> Result<(), AllocError>
    ensures { OnOk result (out.new.items ≡ out.old.items ++ head_text race rounding) }
{
    let mut number = Buffer::new();
    let race = number.format(race.get()).as_bytes();
    let rule = rounding_text(rounding).as_bytes();
    push_pieces(out, &[b"RACE ", race, b" ", rule, b"\n"])?;
    Ok(())
}

fn push_sums(times: &[Timed], out: &mut Vec<u8>) -> Result<(), AllocError>
    ensures { OnOk result (out.new.items ≡ out.old.items ++ flat_map sum_text times.now) }
{
    for timed in times {
        push_sum(timed, out)?;
    }
    Ok(())
}

fn push_sum(timed: &Timed, out: &mut Vec<u8>) -> Result<(), AllocError>
    ensures { OnOk result (out.new.items ≡ out.old.items ++ sum_text timed.now) }
{
    let mut number = Buffer::new();
    let sail = timed.sail.text().as_bytes();
    let seconds = number.format(timed.seconds).as_bytes();
    push_pieces(out, &[sail, b" "])?;
    push_formula(timed.elapsed, timed.rating, timed.laps, out)?;
    push_pieces(out, &[b" -> ", seconds, b"\n"])?;
    Ok(())
}

/// Appends what is done to an elapsed time, in the units of the rating.
fn push_formula(
    elapsed: Elapsed,
    rating: Rating,
    laps: Option<Laps>,
    out: &mut Vec<u8>,
) -> Result<(), AllocError>
    ensures { OnOk result (out.new.items
        ≡ out.old.items ++ joined (sum_pieces elapsed rating laps)) }
{
    let seconds = elapsed.get();
    match rating {
        Rating::TimeOnTime(factor) => push_factor(seconds, factor.get(), out),
        Rating::Portsmouth(number) => match laps {
            None => push_thousands(seconds, number.get(), out),
            Some(laps) => push_laps(seconds, laps, number.get(), out),
        },
        Rating::TimeOnDistance(allowance, miles) => {
            push_miles(seconds, b" - ", allowance.get(), miles.get(), out)
        }
        Rating::AddedOnDistance(allowance, miles) => {
            push_miles(seconds, b" + ", allowance.get(), miles.get(), out)
        }
    }
}

/// Appends the sum of a boat with a factor.
fn push_factor(seconds: u32, factor: u32, out: &mut Vec<u8>) -> Result<(), AllocError>
    ensures { OnOk result (out.new.items ≡ out.old.items
        ++ joined (decimal seconds ∷ codes " * " ∷ decimal factor ∷ codes " / 10000" ∷ [])) }
{
    let (mut one, mut two) = (Buffer::new(), Buffer::new());
    let seconds = one.format(seconds).as_bytes();
    let factor = two.format(factor).as_bytes();
    push_pieces(out, &[seconds, b" * ", factor, b" / 10000"])?;
    Ok(())
}

/// Appends the sum of a boat with a Portsmouth number, whose laps weren't counted.
fn push_thousands(seconds: u32, number: u32, out: &mut Vec<u8>) -> Result<(), AllocError>
    ensures { OnOk result (out.new.items ≡ out.old.items
        ++ joined (decimal seconds ∷ codes " * 1000 / " ∷ decimal number ∷ [])) }
{
    let (mut one, mut two) = (Buffer::new(), Buffer::new());
    let seconds = one.format(seconds).as_bytes();
    let number = two.format(number).as_bytes();
    push_pieces(out, &[seconds, b" * 1000 / ", number])?;
    Ok(())
}

/// Appends the sum of a boat whose laps were counted.
fn push_laps(seconds: u32, laps: Laps, number: u32, out: &mut Vec<u8>) -> Result<(), AllocError>
    ensures { OnOk result (out.new.items ≡ out.old.items
        ++ joined (decimal seconds ∷ codes " * " ∷ decimal laps.most ∷ codes " * 1000 / "
        ∷ decimal laps.own ∷ codes " / " ∷ decimal number ∷ [])) }
{
    let (mut one, mut two, mut three) = (Buffer::new(), Buffer::new(), Buffer::new());
    let mut four = Buffer::new();
    let seconds = one.format(seconds).as_bytes();
    let most = two.format(laps.most()).as_bytes();
    let own = three.format(laps.own()).as_bytes();
    let number = four.format(number).as_bytes();
    push_pieces(
        out,
        &[seconds, b" * ", most, b" * 1000 / ", own, b" / ", number],
    )?;
    Ok(())
}

/// Appends the sum of a boat with an allowance for each mile.
fn push_miles(
    seconds: u32,
    sign: &[u8],
    allowance: u32,
    miles: u32,
    out: &mut Vec<u8>,
) -> Result<(), AllocError>
    ensures { OnOk result (out.new.items ≡ out.old.items
        ++ joined (decimal seconds ∷ sign.now ∷ decimal allowance ∷ codes " * " ∷ decimal miles
        ∷ codes " / 10000" ∷ [])) }
{
    let (mut one, mut two, mut three) = (Buffer::new(), Buffer::new(), Buffer::new());
    let seconds = one.format(seconds).as_bytes();
    let allowance = two.format(allowance).as_bytes();
    let miles = three.format(miles).as_bytes();
    push_pieces(out, &[seconds, sign, allowance, b" * ", miles, b" / 10000"])?;
    Ok(())
}
