//! Worked rows of the solver's parts, on networks that are read from their texts. Tests alone.
#![tactic(auto)]

#[cfg(test)]
mod tests;
