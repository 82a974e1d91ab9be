//! Tests of daa_config, daa_lines and daa_state.
#![tactic(auto)]

#[cfg(test)]
mod tests;
