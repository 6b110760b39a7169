//! Laws over what workers that share rows leave behind, and over the outcomes of all jobs. Each
//! stands as the contract of a function that does nothing; the lemmas that they rest on are in
//! `proofs/`.
ghost use Rattle.fapp_workers.specs.VerdictLaws.{EnoughSettles, OpenSaysSo};
ghost use Rattle.fapp_workers.specs.SharingLaws.{JobsAreSettled, OffersAreCounted, PooledSeatsClose, SegmentsAreUsed, SettledJobsStay, SharedLogsAreGood, SharedOutcomesAreShown, SharedRunIsSettled, WorkGoesOn};

/// The logs of workers that share rows are good over the rows that they published, each of which is
/// home in one log.
pub fn shared_logs_are_good()
    ensures { SharedLogsAreGood }
{}

/// What a worker's outcomes name is shown by all logs over all rows.
pub fn shared_outcomes_are_shown()
    ensures { SharedOutcomesAreShown }
{}

/// A job more leaves a worker what workers leave behind.
pub fn work_goes_on()
    ensures { WorkGoesOn }
{}

/// A job that is settled stays so.
pub fn settled_jobs_stay()
    ensures { SettledJobsStay }
{}

/// The close of a pool with all its seats says what the workers' rows are.
pub fn pooled_seats_close()
    ensures { PooledSeatsClose }
{}

/// What workers that shared rows leave behind is good and shows the outcomes of all jobs, once the
/// pool was closed.
pub fn shared_run_is_settled()
    ensures { SharedRunIsSettled }
{}

/// What a search answers of a job is settled.
pub fn jobs_are_settled()
    ensures { JobsAreSettled }
{}

/// What was pooled is used.
pub fn segments_are_used()
    ensures { SegmentsAreUsed }
{}

/// What settles a job is pooled, or a refusal was counted.
pub fn offers_are_counted()
    ensures { OffersAreCounted }
{}

/// An open verdict names a job that has more tries than its fuel, its lower bound reaches past the
/// levels that have tries within the fuel, and no assignment whose job has tries within the fuel
/// costs less than the shown one.
pub fn open_says_so()
    ensures { OpenSaysSo }
{}

/// Where all jobs of the least cost's level have tries within the fuel, or of the last level where
/// there is no feasible assignment, the verdict is not open.
pub fn enough_settles()
    ensures { EnoughSettles }
{}
