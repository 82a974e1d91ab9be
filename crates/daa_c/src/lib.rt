//! The calls of C, under the names that `include/daidalus.h` declares: each but `daa_version` is a
//! function of daa_numbers or daa_plane.
#![tactic(auto)]

mod closing;
mod configuration;
mod moments;
mod planes;
mod states;
mod steadying;
mod version;
