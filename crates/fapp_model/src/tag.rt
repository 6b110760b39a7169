ghost use Rattle.std.specs.Prelude.{◌≡◌, ◌<◌, ◌≤◌, IsTrue};
ghost use Rattle.fapp_model.specs.Tags.{code_of, is_code, is_tag, mode_level, triple_from};

use crate::{MAX_LEVELS, S_SPAN, Triple, V_SPAN};

/// The cost that assignments are judged against, as one number: (k, v, s) has the code
/// `(k * V_SPAN + v) * S_SPAN + s`, so codes are ordered as their triples are.
#[derive(Clone, Copy, Debug, PartialEq, Eq, PartialOrd, Ord)]
pub struct Tag {
    pub code: u64,
    ghost of_tag: { IsTrue (is_code code) },
}

/// Whether a triple is a tag for so many levels: a level of 1 to `levels` with v of at least 1, or
/// (k, 0, 0) with k at most `levels + 1`. Its v and s are below `V_SPAN` and `S_SPAN`.
pub fn is_tag(levels: u32, t: Triple) -> bool
    requires { levels ≤ MAX_LEVELS }
    ensures { result ≡ is_tag levels t }
{
    if t.v > 0 {
        t.k > 0 && t.k <= levels && t.v < V_SPAN && t.s < S_SPAN
    } else {
        t.s == 0 && t.k <= levels + 1
    }
}

/// The tag of a triple.
pub fn tag_of(t: Triple) -> Tag
    requires { IsTrue (is_tag MAX_LEVELS t) }
    ensures code { result.code ≡ code_of t }
    ensures triple { triple_from result.code ≡ t }
{
    let code = (u64::from(t.k) * u64::from(V_SPAN) + u64::from(t.v)) * u64::from(S_SPAN)
        + u64::from(t.s);
    Tag { code }
}

/// The triple of a tag.
pub fn triple_of(t: Tag) -> Triple
    ensures { result ≡ triple_from t.code }
{
    let above = t.code / u64::from(S_SPAN);
    Triple {
        k: (above / u64::from(V_SPAN)) as u32,
        v: (above % u64::from(V_SPAN)) as u32,
        s: (t.code % u64::from(S_SPAN)) as u32,
    }
}

/// The level at which a plan that costs less than the tag has no violation: k, or k - 1 where v is
/// 0.
pub fn level_of(t: Tag) -> u32
    requires { 0 < t.code }
    ensures { result ≡ mode_level (triple_from t.code) }
{
    let triple = triple_of(t);
    if triple.v > 0 { triple.k } else { triple.k - 1 }
}

#[cfg(test)]
mod tests {
    use super::*;

    #[test]
    fn codes(rt: HostRuntime) {
        assert_eq!(rt; tag_of(Triple { k: 0, v: 0, s: 0 }).code, 0);
        assert_eq!(rt;
            tag_of(Triple { k: 5, v: 1, s: 4 }).code,
            22_517_998_203_961_348
        );
        assert_eq!(rt;
            tag_of(Triple { k: 12, v: 0, s: 0 }).code,
            54_043_195_528_445_952
        );
    }

    #[test]
    fn triples_and_levels(rt: HostRuntime) {
        let limited = tag_of(Triple { k: 5, v: 1, s: 4 });
        assert_eq!(rt; triple_of(limited), Triple { k: 5, v: 1, s: 4 });
        assert_eq!(rt; level_of(limited), 5);
        assert_eq!(rt; level_of(tag_of(Triple { k: 12, v: 0, s: 0 })), 11);
    }

    #[test]
    fn edges(rt: HostRuntime) {
        assert!(rt;
            is_tag(
                11,
                Triple {
                    k: 11,
                    v: 67_108_863,
                    s: 67_108_863
                }
            )
        );
        assert!(rt;
            !is_tag(
                11,
                Triple {
                    k: 11,
                    v: 67_108_864,
                    s: 0
                }
            )
        );
        assert!(rt; !is_tag(11, Triple { k: 0, v: 1, s: 0 }));
        assert!(rt; !is_tag(11, Triple { k: 12, v: 1, s: 0 }));
        assert!(rt; !is_tag(11, Triple { k: 1, v: 0, s: 1 }));
        assert!(rt; !is_tag(11, Triple { k: 13, v: 0, s: 0 }));
    }
}
