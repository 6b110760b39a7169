// Tags that the search judges at.
ghost use Rattle.std.specs.Prelude.{◌≡◌, ◌+◌, ◌≤◌, min};
ghost use Rattle.fapp_model.specs.declared.level.TheConstants.{MAX_LEVELS};
ghost use Rattle.fapp_model.specs.search.Pairs.{limit_of};
ghost use Rattle.fapp_tables.specs.Measures.{pair_code};
ghost use Rattle.settle_laws.specs.Levels.{level_code};

use fapp_model::{S_SPAN, Tag, Triple, tag_of};

/// The lesser of two tags.
pub fn lesser(a: Tag, b: Tag) -> Tag
    ensures { result.code ≡ min a.code b.code }
{
    if b < a { b } else { a }
}

/// The tag (level, 0, 0).
pub fn level_tag(level: u32) -> Tag
    requires { level ≤ MAX_LEVELS + 1 }
    ensures { result.code ≡ level_code level }
{
    tag_of(Triple {
        k: level,
        v: 0,
        s: 0,
    })
}

/// The limit of a tag as one number.
pub fn limit_code(triple: Triple) -> u64
    ensures { result ≡ pair_code (limit_of triple) }
{
    u64::from(triple.v) * u64::from(S_SPAN) + u64::from(triple.s)
}
