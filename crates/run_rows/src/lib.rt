//! Worked rows of whole runs: networks that are solved, and their answers handed back to the
//! checker. Tests alone.
#![tactic(auto)]

#[cfg(test)]
mod tests;
