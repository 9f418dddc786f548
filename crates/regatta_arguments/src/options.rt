//! Options as `clap` is told of them, and their values.
ghost use Rattle.std.specs.Prelude.{◌≡◌, false, IfOk};
ghost use Rattle.std.specs.Option.{option_copied};
ghost use Rattle.clap.specs.Words.{app_of, rule_of};
ghost use Rattle.regatta_arguments.specs.Options.{bare_program as bare_program_of, flag as flag_of};
ghost use Rattle.regatta_arguments.specs.Options.{is_given as is_given_by, option as option_of};
ghost use Rattle.regatta_arguments.specs.Options.{option_or as option_or_of};

use clap::{Arg, ArgAction, Command};
use regatta_version::VERSION;
use std::alloc::{AllocError, Global};

/// An option without a value.
pub fn flag<'a>(alloc: Global, name: &'a str, help: &'a str) -> Arg<'a>
    ensures rule { rule_of result ≡ flag_of name.now }
    ensures local { result.global ≡ false }
{
    Arg::new(alloc, name)
        .long(name)
        .action(ArgAction::SetTrue)
        .help(help)
}

/// An option that takes one value.
pub fn option<'a>(alloc: Global, name: &'a str, value: &'a str, help: &'a str) -> Arg<'a>
    ensures rule { rule_of result ≡ option_of name.now }
    ensures local { result.global ≡ false }
{
    Arg::new(alloc, name)
        .long(name)
        .value_name(value)
        .help(help)
}

/// An option that takes one value and has a default.
pub fn option_or<'a>(
    alloc: Global,
    name: &'a str,
    value: &'a str,
    default: &'a str,
    help: &'a str,
) -> Arg<'a>
    ensures rule { rule_of result ≡ option_or_of name.now default.now }
    ensures local { result.global ≡ false }
{
    option(alloc, name, value, help).default_value(default)
}

/// A program of this name, which has a version and needs a subcommand, without any yet.
pub fn bare_program<'a>(
    alloc: Global,
    name: &'a str,
    about: &'a str,
) -> Result<Command<'a>, AllocError>
    ensures { IfOk result (λ c. app_of c ≡ bare_program_of name.now) }
{
    let command = Command::new(alloc, name)
        .about(about)
        .version(VERSION)
        .no_binary_name(true)
        .subcommand_required(true)
        .bin_name(name)?;
    Ok(command)
}

/// Whether a flag is given: `clap` has the text `true` for it then.
pub fn is_given(flag: Option<&str>) -> bool
    ensures { result ≡ is_given_by (option_copied flag.entry) }
{
    match flag {
        Some(word) => word == "true",
        None => false,
    }
}
