//! The configuration: what a text of TOML says of levels and candidates, and the candidates that it
//! lists. A text is read into numbers, the numbers are checked against the table of their ranges,
//! and what is accepted is a [`Config`], whose readers know every range.
#![tactic(auto)]

mod accepting;
mod candidate;
mod config;
mod document;
pub mod examples;
mod fault;
mod keys;
mod kind;
mod laws;
mod level;
mod limits;
mod numbers;
pub mod packing;
mod reading;
mod rows;

pub use candidate::{Candidate, Resolution};
pub use config::{Config, Rates};
pub use fault::ConfigFault;
pub use kind::Kind;
pub use laws::{
    accepted_is_in_range, levels_without_tau_and_tep_are_as_before,
    recoveries_without_nearest_are_as_before, texts_without_last_times_are_as_before,
    values_are_all_steps,
};
pub use level::Level;
pub use numbers::{ConfigNumbers, Grid, LevelNumbers, Numbers, RecoveryNumbers};
pub use reading::{read, read_numbers};
