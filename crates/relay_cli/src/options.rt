//! What the words of the relay ask for.

ghost use Rattle.std.specs.Prelude.{◌≡◌, ◌∷◌, IfOk, IfSome, codes, map, string_bytes};
ghost use Rattle.fapp_run.specs.Answers.{AreOptions};
ghost use Rattle.relay_cli.specs.Words.{ReadsRelay, whole_options};

use fapp_io::NoMemory;
use fapp_words::{Request, SolveOptions, read_words};
use std::alloc::Global;

/// The options that the words name. `None` comes exactly where they are none of the promised ones:
/// `--workers`, `--fuel`, `--split`, `--pool` and `--cert`, with the values that `solve` takes,
/// each at most once and in any order. `NoMemory` comes where the words' copies could not be had.
pub fn relay_options(alloc: Global, words: &[String]) -> Result<Option<SolveOptions>, NoMemory>
    ensures words { IfOk result (ReadsRelay (map string_bytes words.now)) }
    ensures range { IfOk result (λ options. IfSome options AreOptions) }
{
    let words = behind_solve(alloc, words)?;
    match read_words(alloc, &words)? {
        Some(request) => Ok(whole_options(request)),
        None => Ok(None),
    }
}

/// The options of a request to solve, unless the plan is to be written alone.
fn whole_options(request: Request) -> Option<SolveOptions>
    ensures { result ≡ whole_options request }
{
    match request {
        Request::Solve(options) if options.answer_only => None,
        Request::Solve(options) => Some(options),
        Request::Check(_) | Request::Gen(_) | Request::Demo(_) => None,
    }
}

/// The same words behind the word `solve`.
fn behind_solve(alloc: Global, words: &[String]) -> Result<Vec<String>, NoMemory>
    ensures { IfOk result (λ all. map string_bytes all.items ≡ codes "solve"
        ∷ map string_bytes words.now) }
{
    let mut all = Vec::new(alloc);
    all.push(String::from_str(alloc, "solve")?)?;
    all.extend_from_slice(words)?;
    Ok(all)
}
