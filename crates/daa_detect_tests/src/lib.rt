//! Tests of daa_detect.
#![tactic(auto)]

#[cfg(test)]
mod tests;
