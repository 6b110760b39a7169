// What became of the jobs.
ghost use Rattle.std.specs.Prelude.{◌≡◌, ◌<◌, ◌≤◌, length, replicate, slice_index_or, slice_set, IfOk, None, Some};
ghost use Rattle.fapp_model.specs.search.Jobs.{job_count};

use crate::jobs::Plan;
use fapp_model::NoMemory;
use search_log::Outcome;
use std::alloc::Global;
use std::marker::Model;

/// The outcomes of a plan's jobs, by their numbers, each with the place of the log that an `Own`
/// line of it stands in. Contracts see the list, with None for a job that was not put.
#[derive(Debug, Drop)]
pub struct Collected {
    outcomes: Vec<Option<(u32, Outcome)>>,
}

impl Model for Collected {
    ghost use Rattle.std.specs.Prelude.{List};
    ghost use Rattle.fapp_plan.specs.Outcomes.{Placed};

    ghost Value = { List Placed };

    ghost view = { λ c. c.outcomes.items };
}

impl Collected {
    /// Room for the outcome of each job of a plan.
    pub fn new(alloc: Global, plan: &Plan) -> Result<Collected, NoMemory>
        ensures { IfOk result (λ collected.
            collected ≡ replicate (job_count plan.now.instance plan.now.split) None) }
    {
        let none: Option<(u32, Outcome)> = None;
        let outcomes = vec![in alloc; none; plan.job_count() as usize]?;
        Ok(Collected { outcomes })
    }

    /// Puts the outcome of a job that has none yet, with the place of its log.
    pub fn put(&mut self, id: u32, log: u32, outcome: Outcome)
        requires inside { id < length self.old }
        requires open { slice_index_or self.old id None ≡ None }
        ensures { self.new ≡ slice_set self.old id (Some (log, outcome)) }
    {
        self.outcomes[id as usize] = Some((log, outcome));
    }

    /// The place of a job's log and the job's outcome. None comes exactly where it was not put.
    pub fn get(&self, id: u32) -> Option<(u32, Outcome)>
        requires { id < length self.now }
        ensures { result ≡ slice_index_or self.now id None }
    {
        self.outcomes[id as usize]
    }

    /// The outcomes, by the jobs' numbers.
    pub(crate) fn outcomes(&self) -> &[Option<(u32, Outcome)>]
        ensures { result.now ≡ self.now }
    {
        self.outcomes.as_slice()
    }
}
