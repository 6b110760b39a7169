//! What the words ask for.

ghost use Rattle.std.specs.Prelude.{◌≡◌, IfOk, map, string_bytes, [], codes, IsTrue, ◌↔◌, option_map};
ghost use Rattle.clap.specs.Words.{fault_of, subcommand_of, subcommand_rows_of};
ghost use Rattle.fapp_words.specs.declared.request.Request.TheVariants.{Solve, Check, Gen, Demo};
ghost use Rattle.fapp_words.specs.Commands.{program};
ghost use Rattle.fapp_words.specs.Options.{ReadsSolve, ReadsCheck};
ghost use Rattle.fapp_words.specs.Promises.{AreRanges, ReadsWords, ReadsSeed};

use crate::NoMemory;
use crate::commands::program;
use crate::forms::{are_pieces, is_at_most_workers, is_short_numeral};
use crate::options::{CheckOptions, SolveOptions, check_in, options_in, seed_in};
use crate::request::{Maker, Request, Seed};
use clap::ArgMatches;
use clap::error::ErrorKind;
use std::alloc::Global;

/// What the words after the program's name ask for. `None` comes exactly where they are none of the
/// promised ones: `solve` with `--workers`, `--fuel`, `--split`, `--pool`, `--cert` and
/// `--answer-only`, each at most once and in any order, `check` with `--workers` at most once,
/// `gen` and `demo` with a number and a number of paths; a number has 1 to 10 digits and is in its
/// range: 1 to 32 workers, 0 to 1,000,000 ticks of fuel, 1 to 4,096 prefixes, a pool of 0 to 65,536
/// rows, version 1 or 2, a number of at most 1,000,000,000 and 2 to 2,000 paths. `NoMemory` comes
/// where the words' copies could not be had.
pub fn read_words(alloc: Global, words: &[String]) -> Result<Option<Request>, NoMemory>
    ensures reads { IfOk result (ReadsWords (map string_bytes words.now)) }
    ensures ranges { AreRanges }
{
    match program(alloc)?.try_get_matches_from(words) {
        Ok(matches) => Ok(request(&matches, words)),
        Err(error) if error.kind() == ErrorKind::OutOfMemory => Err(NoMemory),
        Err(_) => Ok(None),
    }
}

/// What is asked for, from what clap found in words that it took.
fn request(matches: &ArgMatches, words: &[String]) -> Option<Request>
    requires found { subcommand_rows_of matches.now
        ≡ subcommand_of program (map string_bytes words.now) }
    requires taken { fault_of program (map string_bytes words.now) ≡ [] }
    ensures { ReadsWords (map string_bytes words.now) result }
{
    let (first, _) = words.split_first()?;
    if is_word(first, "solve") {
        return solving(solve_options(matches, words));
    }
    if is_word(first, "gen") {
        return generating(made_seed(matches, words, Maker::Gen));
    }
    if is_word(first, "demo") {
        return showing(made_seed(matches, words, Maker::Demo));
    }
    if is_word(first, "check") {
        return checking(check_options(matches, words));
    }
    None
}

fn solving(options: Option<SolveOptions>) -> Option<Request>
    ensures { result ≡ option_map Solve options }
{
    options.map(|options| Request::Solve(options))
}

fn checking(options: Option<CheckOptions>) -> Option<Request>
    ensures { result ≡ option_map Check options }
{
    options.map(|options| Request::Check(options))
}

fn generating(seed: Option<Seed>) -> Option<Request>
    ensures { result ≡ option_map Gen seed }
{
    seed.map(|seed| Request::Gen(seed))
}

fn showing(seed: Option<Seed>) -> Option<Request>
    ensures { result ≡ option_map Demo seed }
{
    seed.map(|seed| Request::Demo(seed))
}

/// The number and the paths of a command that makes a network, from what clap found in words that
/// it took.
fn made_seed(matches: &ArgMatches, words: &[String], maker: Maker) -> Option<Seed>
    requires found { subcommand_rows_of matches.now
        ≡ subcommand_of program (map string_bytes words.now) }
    ensures { ReadsSeed maker (map string_bytes words.now) result }
{
    if words.len() != 3 {
        return None;
    }
    if !is_word(&words[0], maker.name()) {
        return None;
    }
    if !is_short_numeral(words[1].as_str()) {
        return None;
    }
    if !is_short_numeral(words[2].as_str()) {
        return None;
    }
    match matches.subcommand() {
        Some((_, found)) => seed_in(found.get_str("number"), found.get_str("paths")),
        None => None,
    }
}

/// The options, from what clap found in words that it took.
fn solve_options(matches: &ArgMatches, words: &[String]) -> Option<SolveOptions>
    requires found { subcommand_rows_of matches.now
        ≡ subcommand_of program (map string_bytes words.now) }
    requires taken { fault_of program (map string_bytes words.now) ≡ [] }
    ensures { ReadsSolve (map string_bytes words.now) result }
{
    let (first, options) = words.split_first()?;
    if !is_word(first, "solve") {
        return None;
    }
    if !are_pieces(options) {
        return None;
    }
    match matches.subcommand() {
        Some((_, found)) => options_in(
            found.get_str("workers"),
            found.get_str("fuel"),
            found.get_str("split"),
            found.get_str("pool"),
            found.get_str("cert"),
            found.get_flag("answer-only"),
        ),
        None => None,
    }
}

/// The options of `check`, from what clap found in words that it took.
fn check_options(matches: &ArgMatches, words: &[String]) -> Option<CheckOptions>
    requires found { subcommand_rows_of matches.now
        ≡ subcommand_of program (map string_bytes words.now) }
    ensures { ReadsCheck (map string_bytes words.now) result }
{
    let (first, options) = words.split_first()?;
    if !is_word(first, "check") {
        return None;
    }
    if !is_at_most_workers(options) {
        return None;
    }
    match matches.subcommand() {
        Some((_, found)) => check_in(found.get_str("workers")),
        None => None,
    }
}

fn is_word(word: &String, text: &str) -> bool
    ensures { IsTrue result ↔ (string_bytes word.now ≡ text.now) }
{
    word.as_str() == text
}
