// The plan of jobs: each level on each prefix.
ghost use Rattle.std.specs.Prelude.{◌≡◌, ◌<◌, ◌≤◌, [], length, slice_index_or, All, IfOk};
ghost use Rattle.fapp_model.specs.declared.limits.TheConstants.{MAX_PATH_CHOICES, MAX_SPLIT};
ghost use Rattle.fapp_model.specs.Instances.{IsInstance};
ghost use Rattle.fapp_model.specs.search.Jobs.{depth, job_count, job_level, job_prefix, prefixes};
ghost use Rattle.fapp_plan.specs.Plans.{split_of};
ghost use Rattle.fapp_plan.specs.NamedPaths.{prefix_paths, steps_along};

use crate::steps::{Reach, Step, reach_of, steps_along};
use fapp_model::{Instance, Items, Literal, NoMemory, levels};
use fapp_tables::Tables;
use search_log::Job;
use std::alloc::Global;
use std::marker::Model;

/// How the work is split into jobs: each level on each prefix. Contracts see the instance and the
/// split number.
///
/// The prefixes choose for the first paths of the work order: as many, up to `MAX_DEPTH`, as have
/// together at most the split number of ways to choose. They are numbered in the order of their
/// choices' indices. Jobs are numbered prefix by prefix, and on each prefix from the last level
/// down to 0.
#[derive(Debug, Drop)]
pub struct Plan<'a> {
    instance: &'a Instance,
    split: u32,
    steps: Vec<Step>,
    prefixes: u32,
}

impl<'a> Model for Plan<'a> {
    ghost use Rattle.fapp_plan.specs.Plans.{IsPlan, Split, split_of};

    ghost Value = { Split };

    ghost view = { λ p. split_of p.instance.now p.split };

    ghost invariant = { λ p. IsPlan p.instance.now p.split p.steps.items p.prefixes };
}

impl<'a> Plan<'a> {
    /// Splits the work over an instance into at most so many prefixes, from 1 to 4,096.
    pub fn new(alloc: Global, tables: &Tables<'a>, split: u32) -> Result<Plan<'a>, NoMemory>
        requires some { 1 ≤ split }
        requires few { split ≤ MAX_SPLIT }
        ensures { IfOk result (λ plan. plan ≡ split_of tables.now split) }
    {
        let instance = tables.instance();
        let order = tables.order();
        let Reach { depth, ways } = reach_of(instance, order, split);
        let steps = steps_along(alloc, instance, &order[..depth], ways)?;
        Ok(Plan {
            instance,
            split,
            steps,
            prefixes: ways,
        })
    }

    /// The instance that the plan was made for.
    pub fn instance(&self) -> &'a Instance
        ensures value { result.now ≡ self.now.instance }
        ensures valid { IsInstance result.now }
    {
        self.instance
    }

    /// The paths that the prefixes name, in the work order.
    pub fn steps(&self) -> &[Step]
        ensures value { result.now ≡ steps_along self.now.instance
            (prefix_paths self.now.instance self.now.split) }
        ensures few { All (λ step. step.choices ≤ MAX_PATH_CHOICES) result.now }
    {
        self.steps.as_slice()
    }

    /// How many paths the prefixes name, at most `MAX_DEPTH`.
    pub fn depth(&self) -> u32
        ensures { result ≡ depth self.now.instance self.now.split }
    {
        self.steps.len() as u32
    }

    /// How many prefixes there are, at least one.
    pub fn prefix_count(&self) -> u32
        ensures count { result ≡ length (prefixes self.now.instance self.now.split) }
        ensures some { 0 < result }
        ensures few { result ≤ MAX_SPLIT }
    {
        self.prefixes
    }

    /// How many jobs there are: one for each prefix and level.
    pub fn job_count(&self) -> u32
        ensures count { result ≡ job_count self.now.instance self.now.split }
        ensures some { 0 < result }
        ensures few { result ≤ 131072 }
    {
        (levels(self.instance) + 1) * self.prefixes
    }

    /// The job of a number below their count.
    pub fn job(&self, alloc: Global, id: u32) -> Result<Job, NoMemory>
        requires { id < job_count self.now.instance self.now.split }
        ensures level { IfOk result (λ job. job.level ≡ job_level self.now.instance id) }
        ensures prefix { IfOk result (λ job.
            job.prefix ≡ job_prefix self.now.instance self.now.split id) }
    {
        let levels = levels(self.instance);
        let prefix = self.prefix(alloc, id / (levels + 1))?;
        Ok(Job {
            level: levels - id % (levels + 1),
            prefix,
        })
    }

    /// The prefix of a number below their count, its literals along the work order.
    pub fn prefix(&self, alloc: Global, place: u32) -> Result<Items<Literal>, NoMemory>
        requires { place < length (prefixes self.now.instance self.now.split) }
        ensures { IfOk result (λ prefix. prefix ≡ slice_index_or
            (prefixes self.now.instance self.now.split) place []) }
    {
        let mut rest = place;
        let mut prefix = Vec::with_capacity(alloc, self.steps.len())?;
        for step in &self.steps {
            prefix.push(Literal {
                path: step.path,
                choice: (rest / step.ways) as u16,
            })?;
            rest %= step.ways;
        }
        Ok(Items::from_vec(prefix))
    }
}
