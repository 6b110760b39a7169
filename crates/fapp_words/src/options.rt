//! The options of a command and their ranges.

ghost use Rattle.std.specs.Prelude.{◌≡◌, option_map};
ghost use Rattle.fapp_words.specs.Options.{ranged, options_in, check_in, seed_in};

use crate::request::Seed;
use fapp_model::{MAX_FUEL, MAX_MADE_PATHS, MAX_NUMBER, MAX_POOL, MAX_SPLIT, MAX_WORKERS};
use fapp_text::number;

/// The threads of `solve` where no number is named.
pub const DEFAULT_WORKERS: u32 = 4;

/// The most prefixes that the search is split into where no number is named.
pub const DEFAULT_SPLIT: u32 = 64;

/// The rows of the pool of nogoods where no number is named.
pub const DEFAULT_POOL: u32 = 4096;

/// The last version of a certificate's text. The first is 1, and that of an answer where none is
/// named.
pub const MAX_VERSION: u32 = 2;

/// How `solve` is to work.
#[derive(Clone, Copy, Debug, PartialEq, Eq)]
pub struct SolveOptions {
    /// The threads that search side by side, 1 to `MAX_WORKERS`.
    pub workers: u32,
    /// The most ticks of a job, 0 to `MAX_FUEL`. `None` where no fuel is named: then it is 1,000
    /// and the number of paths.
    pub fuel: Option<u32>,
    /// The most prefixes that the search is split into, 1 to `MAX_SPLIT`.
    pub split: u32,
    /// The rows of the pool of nogoods, 0 to `MAX_POOL`.
    pub pool: u32,
    /// The version of the certificate's text, 1 to `MAX_VERSION`.
    pub cert: u32,
    /// Whether the plan is written alone.
    pub answer_only: bool,
}

/// How `check` is to work.
#[derive(Clone, Copy, Debug, PartialEq, Eq)]
pub struct CheckOptions {
    /// The threads that judge lines side by side, 1 to `MAX_WORKERS`. It is 1 where no number is
    /// named, and then lines are judged one after another.
    pub workers: u32,
}

/// The options for their values, where each number is in its range.
pub(crate) fn options_in(
    workers: Option<&str>,
    fuel: Option<&str>,
    split: Option<&str>,
    pool: Option<&str>,
    cert: Option<&str>,
    answer_only: bool,
) -> Option<SolveOptions>
    ensures { result ≡ options_in (option_map (λ s. s.now) workers.entry)
        (option_map (λ s. s.now) fuel.entry)
        (option_map (λ s. s.now) split.entry) (option_map (λ s. s.now) pool.entry)
        (option_map (λ s. s.now) cert.entry) answer_only }
{
    let workers = ranged(1, MAX_WORKERS, workers)?;
    let fuel = ranged(0, MAX_FUEL, fuel)?;
    let split = ranged(1, MAX_SPLIT, split)?;
    let pool = ranged(0, MAX_POOL, pool)?;
    let cert = ranged(1, MAX_VERSION, cert)?;
    Some(SolveOptions {
        workers: workers.unwrap_or(DEFAULT_WORKERS),
        fuel,
        split: split.unwrap_or(DEFAULT_SPLIT),
        pool: pool.unwrap_or(DEFAULT_POOL),
        cert: cert.unwrap_or(1),
        answer_only,
    })
}

/// The options of `check` for the value of its option, where the number is in its range.
pub(crate) fn check_in(workers: Option<&str>) -> Option<CheckOptions>
    ensures { result ≡ check_in (option_map (λ s. s.now) workers.entry) }
{
    let workers = ranged(1, MAX_WORKERS, workers)?.unwrap_or(1);
    Some(CheckOptions { workers })
}

/// What a network is made from, for its two values, where each is in its range.
pub(crate) fn seed_in(number: Option<&str>, paths: Option<&str>) -> Option<Seed>
    ensures { result ≡ seed_in (option_map (λ s. s.now) number.entry)
        (option_map (λ s. s.now) paths.entry) }
{
    let number = ranged(0, MAX_NUMBER, number)??;
    let paths = ranged(2, MAX_MADE_PATHS, paths)??;
    Some(Seed { number, paths })
}

/// A number, where it is written; nothing where it is out of its range.
fn ranged(low: u32, high: u32, text: Option<&str>) -> Option<Option<u32>>
    ensures { result ≡ ranged low high (option_map (λ s. s.now) text.entry) }
{
    let Some(text) = text else {
        return Some(None);
    };
    match number(text.as_bytes()) {
        Ok(n) if low <= n && n <= high => Some(Some(n)),
        _ => None,
    }
}
