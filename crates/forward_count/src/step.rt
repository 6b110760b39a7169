ghost use Rattle.std.specs.Prelude.{◌≡◌, ◌≢◌, ◌≤◌, ◌<◌, ◌^◌, length};
ghost use Rattle.fapp_model.specs.declared.limits.TheConstants.{MAX_PATH_CHOICES};
ghost use Rattle.choice_counts.specs.Counts.{pair_tally};
ghost use Rattle.fapp_model.specs.declared.level.TheConstants.{MAX_LEVELS};
ghost use Rattle.fapp_model.specs.declared.limits.TheConstants.{MAX_PATHS};
ghost use Rattle.fapp_model.specs.Assignments.{count_at, path_at};
ghost use Rattle.fapp_model.specs.Instances.{IsInstance, IsPath};
ghost use Rattle.fapp_model.specs.search.Partials.{IsLiteral, choice_of, literal};
ghost use Rattle.fapp_tables.specs.Indexes.{records_of};

use choice_counts::Edge;
use fapp_model::{Choice, Instance, Literal, Path, choice_at, choice_count};
use fapp_tables::Tables;

/// A literal that is pushed or taken back, with the choice that it stands for, and the level that
/// counts are of.
#[derive(Clone, Copy, Debug)]
pub struct Step<'a> {
    pub tables: &'a Tables<'a>,
    pub level: u32,
    /// Whether it is taken back.
    pub taking: bool,
    pub literal: Literal,
    pub choice: Choice,
    ghost few: { length tables.now.paths ≤ MAX_PATHS },
    ghost low: { level ≤ MAX_LEVELS },
    ghost home: { IsLiteral tables.now literal },
    ghost chosen: { choice ≡ choice_of tables.now literal },
}

/// The path at a position.
pub fn path_at(instance: &Instance, position: u16) -> &Path
    requires instance { IsInstance instance.now }
    requires position { position < length instance.now.paths }
    ensures path { result.now ≡ path_at instance.now position }
    ensures valid { IsPath result.now }
{
    &instance.paths.as_slice()[position as usize]
}

/// How many choices a path has.
pub fn count(instance: &Instance, path: u16) -> u32
    requires instance { IsInstance instance.now }
    requires path { path < length instance.now.paths }
    ensures count { result ≡ count_at instance.now path }
    ensures few { result ≤ MAX_PATH_CHOICES }
{
    choice_count(path_at(instance, path))
}

impl<'a> Step<'a> {
    /// The step of a literal.
    pub fn new(tables: &'a Tables<'a>, level: u32, taking: bool, literal: Literal) -> Step<'a>
        requires level { level ≤ MAX_LEVELS }
        requires literal { IsLiteral tables.now literal }
        ensures tables { result.tables.now ≡ tables.now }
        ensures level { result.level ≡ level }
        ensures taking { result.taking ≡ taking }
        ensures literal { result.literal ≡ literal }
    {
        let path = path_at(tables.instance(), literal.path);
        let choice = choice_at(path, u32::from(literal.choice));
        Step {
            tables,
            level,
            taking,
            literal,
            choice,
        }
    }

    /// Another path.
    pub fn owner(&self, other: u16) -> &Path
        requires { other < length self.now.tables.now.paths }
        ensures path { result.now ≡ path_at self.now.tables.now other }
        ensures valid { IsPath result.now }
    {
        path_at(self.tables.instance(), other)
    }

    /// How many choices another path has.
    pub fn count(&self, other: u16) -> u32
        requires { other < length self.now.tables.now.paths }
        ensures count { result ≡ count_at self.now.tables.now other }
        ensures few { result ≤ MAX_PATH_CHOICES }
    {
        count(self.tables.instance(), other)
    }

    /// A choice of another path.
    pub fn choice_at(&self, other: u16, index: u32) -> Choice
        requires other { other < length self.now.tables.now.paths }
        requires index { index < count_at self.now.tables.now other }
        ensures { result ≡ choice_of self.now.tables.now (literal other index) }
    {
        choice_at(path_at(self.tables.instance(), other), index)
    }

    /// What the literal counts in the tally of a neighbour's choice, by the positions of the
    /// records between the two.
    pub fn pair_tally(&self, positions: &[u32], other: u16, index: u32) -> u64
        requires apart { self.now.literal.path ≢ other }
        requires other { other < length self.now.tables.now.paths }
        requires index { index < count_at self.now.tables.now other }
        requires positions { positions.now
            ≡ records_of self.now.tables.now self.now.literal.path other }
        ensures tally { result ≡ pair_tally self.now.tables.now self.now.level (literal other index)
            self.now.literal }
        ensures small { result ≤ 2 ^ 49 }
    {
        let second = self.choice_at(other, index);
        let pair = Edge {
            instance: self.tables.instance(),
            level: self.level,
            path: self.literal.path,
            other,
            positions,
        };
        pair.tally(self.choice, second)
    }
}
