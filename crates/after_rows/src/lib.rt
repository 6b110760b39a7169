//! Worked rows of solving on from rows and lines that stand, and of the certificate that comes
//! behind them. Tests alone.
#![tactic(auto)]

#[cfg(test)]
mod tests;
