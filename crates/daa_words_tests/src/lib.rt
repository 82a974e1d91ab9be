//! Tests of daa_words.
#![tactic(auto)]

#[cfg(test)]
mod tests;
