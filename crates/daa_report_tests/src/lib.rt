//! Tests of daa_report.
#![tactic(auto)]

#[cfg(test)]
mod tests;
