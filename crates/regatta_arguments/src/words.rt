//! The words that a program is started with: its arguments.

use crate::answers::{not_utf8, stopped};
use crate::stop::Stop;
use regatta_streams::Sink;
use std::alloc::{AllocError, Global};
use std::env::{self, Args, Env};
use std::io::ErrorKind;
use std::process::ExitCode;

/// The arguments after the program's own name. The list asks for each allocation once, so that one
/// that fails is reported.
fn words_of(alloc: Global, args: Args<Global>) -> Result<Vec<String>, AllocError> {
    let mut words = Vec::new(alloc);
    for word in args.skip(1) {
        words.push(word)?;
    }
    Ok(words)
}

/// The arguments as borrowed text.
fn texts_of(alloc: Global, words: &[String]) -> Result<Vec<&str>, AllocError> {
    let mut texts = Vec::new(alloc);
    for word in words {
        texts.push(word.as_str())?;
    }
    Ok(texts)
}

/// Starts a program with the arguments after its name, and returns its status. Where there are none
/// to start it with, it says so on standard error.
pub fn start<H, E, F>(rt: &H, program: &str, errors: &mut E, run: F) -> ExitCode
where
    H: Env + AllocGlobal,
    E: Sink,
    F: FnOnce(&[&str], &mut E) -> u8,
    requires { F.IsAlwaysCallable run }
{
    let args = match env::args(rt) {
        Ok(args) => args,
        Err(error) if error.kind() == ErrorKind::OutOfMemory => {
            return ExitCode::from(stopped(program, Stop::NoMemory, errors));
        }
        Err(_) => return ExitCode::from(not_utf8(errors)),
    };
    let Ok(words) = words_of(rt.alloc(), args) else {
        return ExitCode::from(stopped(program, Stop::NoMemory, errors));
    };
    let Ok(texts) = texts_of(rt.alloc(), &words) else {
        return ExitCode::from(stopped(program, Stop::NoMemory, errors));
    };
    ExitCode::from(run(&texts, errors))
}
