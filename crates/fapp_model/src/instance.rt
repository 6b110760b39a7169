use crate::{Items, Record};

/// A radio path, which gets one frequency and one polarization.
#[derive(Debug, Drop)]
pub struct Path {
    /// The number that the instance's text gives it, at most `MAX_NUMBER`.
    pub number: u32,
    /// The frequencies that it may use, ascending, at least one.
    pub freqs: Items<u32>,
    /// -1 or 1 where the polarization is fixed, 0 where it is free.
    pub pol: i8,
}

/// A radio network to be planned: its paths and constraint records. Each is named by its position,
/// from 0.
#[derive(Debug, Drop)]
pub struct Instance {
    pub paths: Items<Path>,
    pub records: Items<Record>,
}
