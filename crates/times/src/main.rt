//! The program: it passes its arguments and its standard streams to the library.
#![tactic(auto)]

mod command_line;
mod complaint;
mod options;
mod run;
mod settings;

use command_line::program;
use regatta_arguments::start;
use regatta_streams::Foreign;
use std::process::ExitCode;

fn main(rt: HostRuntime) -> ExitCode {
    let mut errors = Foreign::new(rt.stderr());
    start(&rt, "times", &mut errors, |words, errors| {
        let mut input = Foreign::new(rt.stdin());
        let mut output = Foreign::new(rt.stdout());
        program(&rt, words, &mut input, &mut output, errors)
    })
}

#[cfg(test)]
mod tests;
