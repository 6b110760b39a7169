//! What all threads of a relay work at.

use cert_lines::Answer;
use fapp_model::Instance;
use std::alloc::Global;

/// Whose pieces are sent, by how many senders, and where their texts take memory.
#[derive(Clone, Copy)]
pub(crate) struct Task<'i, 'a> {
    pub alloc: Global,
    pub instance: &'i Instance,
    pub answer: &'a Answer,
    pub senders: u32,
}
