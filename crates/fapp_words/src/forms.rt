//! The forms that the words of `solve` and `check` have.

ghost use Rattle.std.specs.Prelude.{◌≡◌, map, string_bytes, false};
ghost use Rattle.std.specs.List.{list_all};
ghost use Rattle.fapp_text.specs.Numbers.{is_digit};
ghost use Rattle.fapp_words.specs.Solving.{is_short_numeral, is_name, is_joined, is_bare, are_pieces, is_workers, is_at_most_workers};

/// Whether each word has its form: options with their values, and `--answer-only`.
pub(crate) fn are_pieces(words: &[String]) -> bool
    ensures { result ≡ are_pieces false (map string_bytes words.now) }
{
    let mut wanted = false;
    for word in words {
        let word = word.as_str();
        if wanted {
            if !is_short_numeral(word) {
                return false;
            }
            wanted = false;
        } else if is_name(word) {
            wanted = true;
        } else if !is_bare(word) && !is_joined(word) {
            return false;
        }
    }
    !wanted
}

/// Whether the words are none, or the option `--workers` with its value.
pub(crate) fn is_at_most_workers(words: &[String]) -> bool
    ensures { result ≡ is_at_most_workers (map string_bytes words.now) }
{
    match words {
        [] => true,
        [word] => is_workers(word.as_str()),
        [name, value] => name.as_str() == "--workers" && is_short_numeral(value.as_str()),
        _ => false,
    }
}

/// Whether a word is `--workers=VALUE`.
fn is_workers(word: &str) -> bool
    ensures { result ≡ is_workers word.now }
{
    match word.split_once('=') {
        Some((name, value)) => name == "--workers" && is_short_numeral(value),
        None => false,
    }
}

/// Whether a text has 1 to 10 decimal digits and nothing else.
pub(crate) fn is_short_numeral(text: &str) -> bool
    ensures { result ≡ is_short_numeral text.now }
{
    let bytes = text.as_bytes();
    bytes.len() <= 10 && !bytes.is_empty() && all_digits(bytes)
}

fn all_digits(bytes: &[u8]) -> bool
    ensures { result ≡ list_all is_digit bytes.now }
{
    bytes.iter().all(|byte| byte.is_ascii_digit())
}

fn is_name(word: &str) -> bool
    ensures { result ≡ is_name word.now }
{
    word == "--workers"
        || word == "--fuel"
        || word == "--split"
        || word == "--pool"
        || word == "--cert"
}

fn is_bare(word: &str) -> bool
    ensures { result ≡ is_bare word.now }
{
    word == "--answer-only"
}

fn is_joined(word: &str) -> bool
    ensures { result ≡ is_joined word.now }
{
    match word.split_once('=') {
        Some((name, value)) => is_name(name) && is_short_numeral(value),
        None => false,
    }
}
