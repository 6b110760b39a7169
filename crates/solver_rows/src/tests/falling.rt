//! A bound that others lower while a job runs.
ghost use Rattle.std.specs.Prelude.{◌≡◌, ◌≤◌, Some, min};
ghost use Rattle.search_log.specs.Bounds.{Offers, Tells, lowest, with_offer};
ghost use Rattle.search_log.specs.PlainBounds.{code_of_offer};

use fapp_model::{Tag, Triple, tag_of};
use search_log::Bound;

/// Tells what it began with, or the least offer, so often. From then on it tells (0, 0, 0), as
/// where another worker has found that.
#[derive(Clone, Copy, Debug)]
pub struct FallingBound {
    began: Tag,
    tag: Tag,
    told: Tag,
    least: Option<Tag>,
    reads: u32,
    ghost known: { tag.code ≤ lowest told.code (code_of_offer least) },
}

impl FallingBound {
    pub fn new(began: Tag, reads: u32) -> FallingBound {
        FallingBound {
            began,
            tag: began,
            told: began,
            least: None,
            reads,
        }
    }
}

fn zero() -> Tag
    ensures { result.code ≡ 0 }
{
    tag_of(Triple { k: 0, v: 0, s: 0 })
}

/// The lesser of two tags.
fn lesser(a: Tag, b: Tag) -> Tag
    ensures { result.code ≡ min a.code b.code }
{
    if b < a { b } else { a }
}

/// The least offer after one more.
fn least_offer(least: Option<Tag>, tag: Tag) -> Tag
    ensures { Some result.code ≡ with_offer (code_of_offer least) tag.code }
{
    match least {
        Some(least) => lesser(least, tag),
        None => tag,
    }
}

impl Bound for FallingBound {
    ghost state = { λ bound. record {
      began = bound.began.code;
      told = bound.told.code;
      least = code_of_offer bound.least;
    } };

    ghost since = { λ _ _. Unit {0} };

    fn now(&mut self) -> Tag {
        if self.reads == 0 {
            self.tag = zero();
        } else {
            self.reads -= 1;
        }
        self.told = self.tag;
        self.tag
    }

    fn offer(&mut self, tag: Tag) {
        self.tag = lesser(self.tag, tag);
        self.least = Some(least_offer(self.least, tag));
    }
}
