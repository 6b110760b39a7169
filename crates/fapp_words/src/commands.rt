//! The commands that the program takes, as clap reads them.

ghost use Rattle.std.specs.Prelude.{◌≡◌, IfOk, false};
ghost use Rattle.clap.specs.Words.{app_of, shape_of, rule_of};
ghost use Rattle.clap.specs.declared.builder.command.Command.TheViews.{out-Command};
ghost use Rattle.fapp_words.specs.Commands.{option_rule, flag_rule, place_rule, solve_shape, check_shape, two_places, program};

use clap::{Arg, ArgAction, Command};
use std::alloc::{AllocError, Global};

/// An option with a value: `--name value` or `--name=value`.
fn option<'a>(alloc: Global, name: &'a str) -> Arg<'a>
    ensures rule { rule_of result ≡ option_rule name.entry.now }
    ensures local { result.global ≡ false }
{
    Arg::new(alloc, name).long(name).action(ArgAction::Set)
}

/// A word without a value: `--name`.
fn flag<'a>(alloc: Global, name: &'a str) -> Arg<'a>
    ensures rule { rule_of result ≡ flag_rule name.entry.now }
    ensures local { result.global ≡ false }
{
    Arg::new(alloc, name).long(name).action(ArgAction::SetTrue)
}

/// A word at its place, which must be there.
fn place<'a>(alloc: Global, name: &'a str) -> Arg<'a>
    ensures rule { rule_of result ≡ place_rule name.entry.now }
    ensures local { result.global ≡ false }
{
    Arg::new(alloc, name).required(true).action(ArgAction::Set)
}

fn solve<'a>(alloc: Global) -> Result<Command<'a>, AllocError>
    ensures shape { IfOk result (λ c. shape_of c ≡ solve_shape) }
    ensures local { IfOk result (λ c. (out-Command c).has_globals ≡ false) }
{
    Command::new(alloc, "solve")
        .arg(option(alloc, "workers"))?
        .arg(option(alloc, "fuel"))?
        .arg(option(alloc, "split"))?
        .arg(option(alloc, "pool"))?
        .arg(option(alloc, "cert"))?
        .arg(flag(alloc, "answer-only"))
}

fn check<'a>(alloc: Global) -> Result<Command<'a>, AllocError>
    ensures shape { IfOk result (λ c. shape_of c ≡ check_shape) }
    ensures local { IfOk result (λ c. (out-Command c).has_globals ≡ false) }
{
    Command::new(alloc, "check").arg(option(alloc, "workers"))
}

/// A command that takes a number and a number of paths.
fn with_two_places<'a>(alloc: Global, name: &'a str) -> Result<Command<'a>, AllocError>
    ensures shape { IfOk result (λ c. shape_of c ≡ two_places name.entry.now) }
    ensures local { IfOk result (λ c. (out-Command c).has_globals ≡ false) }
{
    Command::new(alloc, name)
        .arg(place(alloc, "number"))?
        .arg(place(alloc, "paths"))
}

/// The program: one command with one level of subcommands, and no help.
pub(crate) fn program<'a>(alloc: Global) -> Result<Command<'a>, AllocError>
    ensures { IfOk result (λ c. app_of c ≡ program) }
{
    Command::new(alloc, "zilmaute")
        .no_binary_name(true)
        .disable_help_flag(true)
        .disable_help_subcommand(true)
        .subcommand_required(true)
        .subcommand(solve(alloc)?)?
        .subcommand(check(alloc)?)?
        .subcommand(with_two_places(alloc, "gen")?)?
        .subcommand(with_two_places(alloc, "demo")?)
}
