//! Reads the text of an instance: a record a line, of domains, paths and constraints, in any order.
//!
//! | record | meaning |
//! |---|---|
//! | `DM d f` | frequency f is in domain d; a repeated pair is kept once |
//! | `TR i d p` | the next path has number i, domain d and polarization p: `1`, `-1`, or `0` where it is free |
//! | `CI i j F E n`, `CI i j F I n` | the distance of the frequencies of paths i and j is n, is not n |
//! | `CI i j P E x`, `CI i j P I x` | the polarizations are equal, are not; the number x is ignored |
//! | `CE i j g0 g1 ..` | a least distance for each level at equal polarizations, which don't rise |
//! | `CD i j d0 d1 ..` | a least distance for each level at unequal polarizations, which don't rise |
//!
//! Fields stand between spaces and tabs. A line without fields is skipped, but it counts, and one
//! carriage return at the end of a line is ignored. Numbers are decimal digits of at most
//! 1,000,000,000, leading zeros too.
#![tactic(auto)]

mod cause;
mod draft;
mod entry;
mod field;
mod laws;
mod line;
mod reader;
mod reading;
#[cfg(test)]
mod tests;

pub use cause::{BadInput, Cause, ReadError};
pub use laws::{frequencies_law, line_end_law, one_instance_law, refusal_law};
pub use reading::read_instance;
