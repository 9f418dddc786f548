//! The program: it passes its arguments and its standard streams to the library.
#![tactic(auto)]

use regatta_arguments::start;
use regatta_office::{Foreign, program};
use std::process::ExitCode;

fn main(rt: HostRuntime) -> ExitCode {
    let mut errors = Foreign::new(rt.stderr());
    start(&rt, "regatta", &mut errors, |words, errors| {
        let mut input = Foreign::new(rt.stdin());
        let mut output = Foreign::new(rt.stdout());
        program(&rt, words, &mut input, &mut output, errors)
    })
}

#[cfg(test)]
mod tests;
