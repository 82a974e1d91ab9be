//! Tests of daa_ahead and daa_judge.
#![tactic(auto)]

#[cfg(test)]
mod tests;
