ghost use Rattle.std.specs.Prelude.{◌↔◌, false, []};
ghost use Rattle.search_log.specs.Shares.{IsCiteOf, IsOffer, LooksUp, OffersRow};

use fapp_model::{Literal, Tag};
use nogood::{Partial, Published, Row};

/// A row that a look-up gave, by its number, with its content.
#[derive(Clone, Copy, Debug)]
pub struct Cite {
    pub row: u32,
    pub content: Row,
}

/// Conflicts that are shared as rows, as far as this holder knows them.
pub trait Shared {
    ghost use Rattle.fapp_model.specs.declared.instance.Instance.{Instance};
    ghost use Rattle.search_log.specs.Shares.{HaveOneContent, SharedState, known};

    /// The rows that it has copied and those that it has published, whether it takes offers, and
    /// how many it refused.
    ghost state: { Self → SharedState };

    /// The instances whose conflicts its rows are.
    ghost serves: { Self → Instance → Type 0 };

    /// What is known of a holder since an earlier state of it. Each call keeps what was known since
    /// any state.
    ghost since: { Self → Self → Type 0 };

    /// A copied row whose literals the part has, at a tag of at least the target. None comes only
    /// where no copied row is one.
    fn lookup(&mut self, part: &Partial, target: Tag) -> Option<Cite>
        ensures looks { LooksUp (state self.old) (state self.new) part.now target.code result }
        ensures serves { (instance : Instance) →
            serves self.old instance ↔ serves self.new instance }
        ensures implied { (instance : Instance) → serves self.old instance →
            IsCiteOf instance result }
        ensures since { (was : Self) → since was self.old → since was self.new };

    /// Offers literals that are implied at a tag above (0, 0, 0).
    fn offer(&mut self, lits: &[Literal], tag: Tag) -> Published
        requires { (instance : Instance) × serves self.old instance
            × IsOffer instance lits.now tag.code }
        ensures offered { OffersRow (state self.old) (state self.new) lits.now tag.code result }
        ensures serves { (instance : Instance) →
            serves self.old instance ↔ serves self.new instance }
        ensures since { (was : Self) → since was self.old → since was self.new };

    /// One number has one content.
    ghost one_content: { (shared : Self) → HaveOneContent (known (state shared)) };
}

/// No rows at all.
#[derive(Clone, Copy, Debug, Default, PartialEq, Eq)]
pub struct NoRows;

impl Shared for NoRows {
    ghost use Rattle.search_log.specs.NumberedRows.{none-one};

    ghost state = { λ _. record { copied = []; published = []; takes = false; refusals = 0 } };

    ghost serves = { λ _ _. Unit {0} };

    ghost since = { λ _ _. Unit {0} };

    fn lookup(&mut self, _part: &Partial, _target: Tag) -> Option<Cite> {
        None
    }

    fn offer(&mut self, lits: &[Literal], _tag: Tag) -> Published {
        if lits.len() > 8 {
            Published::TooLong
        } else {
            Published::Full(0)
        }
    }

    ghost one_content = { λ _. none-one };
}
