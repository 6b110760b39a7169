// Rows and their words.
ghost use Rattle.std.specs.Prelude.{◌≡◌, ◌<◌, ◌≤◌, ℕ, List, length, slice_index, MatchOption};
ghost use Rattle.nogood_pool.specs.Pool.{AreShort, content, content_of_row, literal_word, pool_word_at};
ghost use Rattle.fapp_model.specs.declared.literal.Literal.{Literal};

use fapp_model::{Literal, Tag};
use nogood::Row;

// The word of a literal.
pub(crate) fn word_of(a: Literal) -> u64
    ensures { result ≡ literal_word a }
{
    1 + 65536 * u64::from(a.path) + u64::from(a.choice)
}

// The literal of a word.
pub(crate) fn literal_of(word: u64) -> Literal
    requires { (a : Literal) × (a.path < 65536) × (a.choice < 65536) × (word ≡ literal_word a) }
    ensures { (a : Literal) → (a.path < 65536) → (a.choice < 65536) → (word ≡ literal_word a) →
        result ≡ a }
{
    Literal {
        path: ((word - 1) / 65536) as u16,
        choice: ((word - 1) % 65536) as u16,
    }
}

// The same literal, whose numbers are those of a u16.
fn known(a: Literal) -> Literal
    ensures same { result ≡ a }
    ensures narrow { (a.path < 65536) × (a.choice < 65536) }
{
    a
}

// The literals and the tag as a row, where there are at most eight literals.
pub(crate) fn row_of(lits: &[Literal], tag: Tag) -> Option<Row>
    ensures { MatchOption result (8 < length lits.now) (λ r.
        (content_of_row r ≡ content lits.now tag.code) × AreShort lits.now
        × (length lits.now ≡ r.len)) }
{
    if lits.len() > 8 {
        return None;
    }
    let mut all = [Literal { path: 0, choice: 0 }; 8];
    for k in 0..lits.len() {
        all[k] = known(lits[k]);
    }
    Some(Row {
        tag,
        len: lits.len() as u8,
        lits: all,
    })
}

// The row of eight words.
pub(crate) fn row_from(words: &[u64; 8], tag: Tag) -> Row
    requires { (lits : List Literal) × AreShort lits
        × ((k : ℕ) → k < 8 → slice_index words.now k ≡ pool_word_at lits k) }
    ensures { (lits : List Literal) → AreShort lits →
        ((k : ℕ) → k < 8 → slice_index words.now k ≡ pool_word_at lits k) →
        content_of_row result ≡ content lits tag.code }
{
    let mut all = [Literal { path: 0, choice: 0 }; 8];
    let mut len = 0;
    for k in 0..8 {
        let word = words[k];
        if word > 0 {
            all[k] = literal_of(word);
            len = k as u8 + 1;
        }
    }
    Row {
        tag,
        len,
        lits: all,
    }
}
