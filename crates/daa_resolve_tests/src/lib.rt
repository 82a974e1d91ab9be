//! Tests of daa_bands and daa_resolve.
#![tactic(auto)]

#[cfg(test)]
mod tests;
