/// How a network is solved.
#[derive(Clone, Copy, Debug, PartialEq, Eq)]
pub struct Settings {
    /// How many workers there are, 1 to 32.
    pub workers: u32,
    /// How many ticks each job has, at most 1,000,000.
    pub fuel: u64,
    /// The most prefixes that the work is split into, 1 to 4,096.
    pub split: u32,
    /// How many rows the workers' pool has, at most 65,536: lines that refute a job, which all of
    /// them may use.
    pub pool: u32,
}
