ghost use Rattle.std.specs.Prelude.{◌≡◌, ◌+◌, ◌<◌, ◌≤◌, ◌↔◌, length, IsTrue, IfOk};
ghost use Rattle.fapp_model.specs.declared.level.TheConstants.{MAX_LEVELS};
ghost use Rattle.fapp_model.specs.Assignments.{count_at};
ghost use Rattle.fapp_model.specs.Instances.{IsInstance};
ghost use Rattle.fapp_model.specs.Levels.{levels_of};
ghost use Rattle.fapp_model.specs.Tags.{triple_from};
ghost use Rattle.fapp_model.specs.search.Arcs.{OutsideArc};
ghost use Rattle.fapp_model.specs.search.Partials.{IsLiteral, literal};
ghost use Rattle.arc_levels.specs.ArcLines.{AreArcLines};
ghost use Rattle.arc_levels.specs.Outside.{IsOutsideTag, IsRootTag};
ghost use Rattle.arc_levels.specs.Heights.{AreArcs, AreHeights, IsGreatestLeast, IsLeastHeight};

use crate::levels::{blank_rows, settle_all};
use crate::removals::Removals;
use crate::rounds::count;
use cert_lines::Line;
use fapp_model::{Instance, Items, NoMemory, Tag, Triple, levels, tag_of};
use fapp_tables::Tables;
use std::alloc::Global;
use std::marker::Model;

/// The arcs of all levels of an instance. Contracts see the instance.
///
/// It has a byte for each choice, and a line for each choice that is outside some level's arcs.
#[derive(Debug, Drop)]
pub struct ArcTable<'a> {
    instance: &'a Instance,
    removals: Removals,
}

impl<'a> Model for ArcTable<'a> {
    ghost use Rattle.fapp_model.specs.declared.instance.Instance.{Instance as Seen};
    ghost use Rattle.arc_levels.specs.Removals.{IsArcTable};

    ghost Value = { Seen };

    ghost view = { λ t. t.instance.now };

    ghost invariant = { λ t. IsArcTable t.instance.now t.removals.rows.items t.removals.lines };
}

/// The tag (`number`, 0, 0).
fn plain_tag(number: u32) -> Tag
    requires { number ≤ MAX_LEVELS + 1 }
    ensures k { (triple_from result.code).k ≡ number }
    ensures limit { (triple_from result.code).v ≡ 0 }
    ensures further { (triple_from result.code).s ≡ 0 }
{
    tag_of(Triple {
        k: number,
        v: 0,
        s: 0,
    })
}

/// At how many levels a path has no choice in the arcs.
fn least_height(instance: &Instance, removals: &Removals, path: u16) -> u32
    requires instance { IsInstance instance.now }
    requires heights { AreHeights instance.now removals.now.rows.items }
    requires path { path < length instance.now.paths }
    ensures { IsLeastHeight instance.now removals.now.rows.items path (count_at instance.now path)
        result }
{
    let mut least = levels(instance) + 1;
    for choice in 0..count(instance, path) {
        least = least.min(u32::from(removals.height(path, choice as u16)));
    }
    least
}

/// At how many levels some path has no choice in the arcs.
fn greatest_least(instance: &Instance, removals: &Removals) -> u32
    requires instance { IsInstance instance.now }
    requires heights { AreHeights instance.now removals.now.rows.items }
    ensures { IsGreatestLeast instance.now removals.now.rows.items (length instance.now.paths)
        result }
{
    let mut greatest = 0;
    for path in 0..instance.paths.len() as u16 {
        let least = least_height(instance, removals, path);
        if greatest < least {
            greatest = least;
        }
    }
    greatest
}

impl<'a> ArcTable<'a> {
    /// Finds the arcs of each level. While it runs it takes four bytes for each choice of one path
    /// besides, and a byte a path. `NoMemory` comes where room could not be had.
    pub fn build(alloc: Global, tables: &Tables<'a>) -> Result<ArcTable<'a>, NoMemory>
        ensures { IfOk result (λ arcs. arcs ≡ tables.now) }
    {
        let instance = tables.instance();
        let mut removals = Removals {
            rows: blank_rows(alloc, instance)?,
            lines: Items::new(alloc),
        };
        settle_all(alloc, tables, &mut removals)?;
        Ok(ArcTable { instance, removals })
    }

    /// Whether a choice is outside the arcs of a level, from 0 to the instance's number of levels.
    pub fn is_outside(&self, level: u32, path: u16, choice: u16) -> bool
        requires level { level ≤ levels_of self.now }
        requires choice { IsLiteral self.now (literal path choice) }
        ensures { IsTrue result ↔ OutsideArc self.now level (literal path choice) }
    {
        level < u32::from(self.removals.height(path, choice))
    }

    /// The tag (`l + 1`, 0, 0) for the greatest level `l`, from 0 to the instance's number of
    /// levels, at which a choice is outside the arcs, else (0, 0, 0).
    pub fn tag_at(&self, path: u16, choice: u16) -> Tag
        requires { IsLiteral self.now (literal path choice) }
        ensures { IsOutsideTag self.now (literal path choice) (triple_from result.code) }
    {
        plain_tag(u32::from(self.removals.height(path, choice)))
    }

    /// The tag (`l + 1`, 0, 0) for the greatest level `l` at which some path has no choice in the
    /// arcs, else (0, 0, 0).
    pub fn root_tag(&self) -> Tag
        ensures { IsRootTag self.now (triple_from result.code) }
    {
        plain_tag(greatest_least(self.instance, &self.removals))
    }

    /// One Count line with one literal and no cites for each choice whose tag is above (0, 0, 0),
    /// at that tag, in an order in which each is good from those before it.
    pub fn lines(&self) -> &[Line]
        ensures { AreArcLines self.now result.now }
    {
        self.removals.lines.as_slice()
    }
}
