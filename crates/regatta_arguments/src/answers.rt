//! What a program answers that doesn't do what it was asked for, and its status.
ghost use Rattle.std.specs.Prelude.{◌≡◌, ◌≢◌, ◌⊎◌, ℕ, List};
ghost use Rattle.std.specs.Io.KnownBytes.{Appends};
ghost use Rattle.clap.specs.Words.{kind_of};
ghost use Rattle.regatta_arguments.specs.Asking.{IsText};
ghost use Rattle.regatta_arguments.specs.Stops.{status_of};

use crate::stop::Stop;
use clap::error::ErrorKind;
use regatta_streams::{Sink, StreamFault, write_all};
use std::alloc::Global;
use std::fmt::Display;

/// The status for arguments that a program doesn't take.
pub(crate) const BAD_ARGUMENTS: u8 = 2;

/// Writes a line to standard error: the program's name, and what it says.
fn say<E: Sink>(program: &str, text: &str, errors: &mut E) -> Result<(), StreamFault> {
    write_all(errors, program.as_bytes())?;
    write_all(errors, b": ")?;
    write_all(errors, text.as_bytes())?;
    write_all(errors, b"\n")
}

/// Writes to standard error what stops the program, and returns its status. It needs no memory.
pub(crate) fn stopped<E: Sink>(program: &str, stop: Stop, errors: &mut E) -> u8
    ensures some { result ≢ 0 }
    ensures one { result ≡ 1 → status_of stop ≡ 1 }
{
    match say(program, stop.text(), errors) {
        Ok(()) => stop.status(),
        Err(_) => Stop::Device.status(),
    }
}

/// Writes a text to standard error, and returns the status.
fn told<E: Sink>(text: &str, status: u8, errors: &mut E) -> u8
    requires { status ≢ 0 }
    ensures some { result ≢ 0 }
    ensures one { result ≡ 1 → status ≡ 1 }
{
    match write_all(errors, text.as_bytes()) {
        Ok(()) => status,
        Err(_) => Stop::Device.status(),
    }
}

/// Writes to standard error why the program stops, and returns the status.
pub fn complain<C: Display, E: Sink>(
    alloc: Global,
    program: &str,
    complaint: &C,
    status: u8,
    errors: &mut E,
) -> u8
    requires { status ≢ 0 }
    ensures some { result ≢ 0 }

    // A program that ends with 1 was told to.
    ensures one { result ≡ 1 → status ≡ 1 }
{
    let Ok(text) = format!(in alloc; "{complaint}\n") else {
        return stopped(program, Stop::NoMemory, errors);
    };
    told(text.as_str(), status, errors)
}

/// Says that the arguments name no subcommand. `clap` accepts none without.
pub fn no_command<E: Sink>(errors: &mut E) -> u8
    ensures { result ≢ 0 }
{
    told("error: no command\n", BAD_ARGUMENTS, errors)
}

/// Says that an argument isn't UTF-8.
pub(crate) fn not_utf8<E: Sink>(errors: &mut E) -> u8
    ensures { result ≢ 0 }
{
    told("error: a word isn't UTF-8\n", BAD_ARGUMENTS, errors)
}

/// Writes the help or the version, which was asked for, and returns the program's status.
fn write_text<W: Sink, E: Sink>(program: &str, text: &str, output: &mut W, errors: &mut E) -> u8
    ensures done { result ≡ 0 → Appends (W.contents output.old) (W.contents output.new) text.now }
    ensures at_most { (output.new ≡ output.old) ⊎ ((text : List ℕ)
        × Appends (W.contents output.old) (W.contents output.new) text) }
{
    match write_all(output, text.as_bytes()) {
        Ok(()) => 0,
        Err(_) => stopped(program, Stop::Device, errors),
    }
}

/// Answers arguments that ask for no run: with the help or the version that they ask for, or with
/// what `clap` says of arguments that it doesn't take. Returns the program's status.
pub fn answer_arguments<W: Sink, E: Sink>(
    alloc: Global,
    program: &str,
    error: &clap::Error,
    output: &mut W,
    errors: &mut E,
) -> u8
    ensures done { result ≡ 0 → IsText (kind_of error.now) × ((text : List ℕ)
        × Appends (W.contents output.old) (W.contents output.new) text) }
    ensures at_most { (output.new ≡ output.old) ⊎ (IsText (kind_of error.now)
        × ((text : List ℕ) × Appends (W.contents output.old) (W.contents output.new) text)) }
{
    let Ok(text) = format!(in alloc; "{error}") else {
        return stopped(program, Stop::NoMemory, errors);
    };
    match error.kind() {
        ErrorKind::DisplayHelp | ErrorKind::DisplayVersion => {
            write_text(program, text.as_str(), output, errors)
        }
        ErrorKind::OutOfMemory => stopped(program, Stop::NoMemory, errors),
        _ => told(text.as_str(), BAD_ARGUMENTS, errors),
    }
}
