ghost use Rattle.std.specs.Prelude.{◌≡◌, ◌≤◌, None, Some, min};
ghost use Rattle.search_log.specs.Bounds.{Offers, Tells, lowest, with_offer};
ghost use Rattle.search_log.specs.PlainBounds.{code_of_offer};

use fapp_model::Tag;
use std::marker::Model;

/// The least cost that any job has found, as far as this holder knows.
pub trait Bound {
    ghost use Rattle.search_log.specs.Bounds.{BoundState};

    /// The tag that the bound began with, the tag that was told last, at first this one, and the
    /// least tag that was offered.
    ghost state: { Self → BoundState };

    /// What is known of a bound since an earlier state of it. Each call keeps what was known since
    /// any state.
    ghost since: { Self → Self → Type 0 };

    /// The least tag that is known now. It is at most what was told last and what was offered.
    fn now(&mut self) -> Tag
        ensures tells { Tells (state self.old) (state self.new) result.code }
        ensures since { (was : Self) → since was self.old → since was self.new };

    /// Makes the cost of an assignment known. It is at most the tag that was told last.
    fn offer(&mut self, tag: Tag)
        requires { tag.code ≤ (state self.old).told }
        ensures offers { Offers (state self.old) (state self.new) tag.code }
        ensures since { (was : Self) → since was self.old → since was self.new };
}

/// A bound of one holder, which nobody else lowers. Contracts see its state.
#[derive(Debug, Drop)]
pub struct PlainBound {
    began: Tag,
    tag: Tag,
    told: Tag,
    least: Option<Tag>,
    ghost known: { tag.code ≤ lowest told.code (code_of_offer least) },
    ghost lowest_is: { tag.code ≡ lowest began.code (code_of_offer least) },
}

impl Model for PlainBound {
    ghost use Rattle.search_log.specs.Bounds.{BoundState};
    ghost use Rattle.search_log.specs.PlainBounds.{code_of_offer};

    ghost Value = { BoundState };

    ghost view = { λ bound. record {
      began = bound.began.code;
      told = bound.told.code;
      least = code_of_offer bound.least;
    } };
}

impl PlainBound {
    /// A bound that begins with this tag.
    pub fn new(tag: Tag) -> PlainBound
        ensures { result ≡ record { began = tag.code; told = tag.code; least = None } }
    {
        PlainBound {
            began: tag,
            tag,
            told: tag,
            least: None,
        }
    }

    /// The least of the tag that it began with and of what was offered. It is at most what was told
    /// last.
    pub fn lowest(&self) -> Tag
        ensures lowest { result.code ≡ lowest self.now.began self.now.least }
        ensures told { result.code ≤ self.now.told }
    {
        self.tag
    }
}

impl Bound for PlainBound {
    ghost use Rattle.search_log.specs.Bounds.{BoundState};

    ghost state = { λ bound. bound };

    ghost since = { λ _ _. Unit {0} };

    /// The tag that it began with, or the least that was offered since where that is less.
    fn now(&mut self) -> Tag
        ensures tells { Tells self.old self.new result.code }
        ensures since { (was : BoundState) → ⟦<PlainBound as Bound>⟧.since was self.old →
            ⟦<PlainBound as Bound>⟧.since was self.new }
        ensures kept { result.code ≡ lowest self.old.began self.old.least }
    {
        self.told = self.tag;
        self.tag
    }

    fn offer(&mut self, tag: Tag)
        requires { tag.code ≤ self.old.told }
        ensures offers { Offers self.old self.new tag.code }
        ensures since { (was : BoundState) → ⟦<PlainBound as Bound>⟧.since was self.old →
            ⟦<PlainBound as Bound>⟧.since was self.new }
    {
        self.tag = lesser(self.tag, tag);
        self.least = Some(least_offer(self.least, tag));
    }
}

/// The lesser of two tags.
fn lesser(a: Tag, b: Tag) -> Tag
    ensures { result.code ≡ min a.code b.code }
{
    if b < a { b } else { a }
}

/// The least offer after one more.
fn least_offer(least: Option<Tag>, tag: Tag) -> Tag
    ensures { Some result.code ≡ with_offer (code_of_offer least) tag.code }
{
    match least {
        Some(least) => lesser(least, tag),
        None => tag,
    }
}
