//! Worked rows of workers and of the certificate that their logs are merged into. Tests alone.
#![tactic(auto)]

#[cfg(test)]
mod tests;
