//! Tests of daa_replay.
#![tactic(auto)]

#[cfg(test)]
mod tests;
