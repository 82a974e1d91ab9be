//! Tests of daa_schedule.
#![tactic(auto)]

#[cfg(test)]
mod tests;
