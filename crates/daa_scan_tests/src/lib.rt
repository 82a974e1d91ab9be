//! Tests of daa_legs and daa_scan.
#![tactic(auto)]

#[cfg(test)]
mod tests;
