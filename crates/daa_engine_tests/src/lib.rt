//! Tests of daa_engine.
#![tactic(auto)]

#[cfg(test)]
mod tests;
